//! Obligations of refinements: for each leaf of a refined role the term that is true where the leaf
//! fails. The leaves of a role's tree are counted first, without a tree, in numbers that stop at the last of 64 bits
//! ([`leaf_count`]); then the trees are made, of one body or of a refined role with the new roles behind it
//! ([`inline`]), and of each leaf beside an old tree its formula ([`formula`]).
#![tactic(auto)]

mod comparing;
mod copies;
mod counting;
mod counts;
mod hops;
mod inlining;
mod inputs;
mod known;
mod last;
mod making;
mod obligation;
mod refined;
mod replacing;
mod sizes;
mod standing;
mod tree;
mod ways;

pub use comparing::formula;
pub use counts::{body_leaf_count, leaf_count};
pub use inlining::{body_tree, inline};
pub use making::{all_obligations, obligations};
pub use obligation::{Kind, Obligation};
pub use tree::{End, InlineFault, Leaf, Tree};
