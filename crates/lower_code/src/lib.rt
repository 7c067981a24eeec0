//! The body of a switch's role, lowered to the code of a program: expressions, calls, statements and blocks, as the
//! functions on trees of `lowering` say it.
#![tactic(auto)]

pub mod blocks;
mod calls;
pub mod counting;
mod exprs;
mod functions;
pub mod made;
mod operators;
mod places;
pub mod sites;
mod statements;
mod uses;
pub mod variables;

pub use blocks::{Frame, Site, lower_block};
pub use counting::{code_size, count_forks, count_tables};
pub use exprs::{lower_expr, lower_exprs};
pub use functions::Scope;
pub use made::{Counts, FieldName, Lowering, Made, MetaField};
pub use sites::lower_sites;
pub use variables::{Reading, Variable};
