//! Terms over numbers of fixed widths, their values, and terms in place of inputs. docs/CLAUSES.md says what they mean.
//! [`walk`] gives the distinct terms that a term is made of, in the order in which a walk leaves them; [`copy`] copies terms
//! into another arena, with other names for their inputs; [`input_values`] finds the values of inputs by the inputs' numbers;
//! and [`replacing`] puts tables in the place of functions: each application is a chain of choices over the rows of a table.
#![tactic(auto)]

pub mod arena;
mod copying;
pub mod eval;
pub mod input_values;
mod keys;
pub mod laws;
mod needed;
pub mod node;
pub mod replacing;
mod rows;
mod substitute;
pub mod table_laws;
mod term_map;
pub mod walk;
pub mod walk_laws;

pub use arena::Terms;
pub use copying::{Copied, copy};
pub use eval::Env;
pub use input_values::InputValues;
pub use node::{FunId, InputId, Node, TermId, TermOp};
pub use replacing::with_defs;
pub use substitute::with_parts;
pub use term_map::TermMap;
pub use walk::{applications, distinct};
