//! Expressions of a design as terms of an arena, as docs/CLAUSES.md says which they are. A function with a body stands for its
//! body over the arguments. What is too large is told by a count, before anything is made.
#![tactic(auto)]

pub mod exprs;
mod fields;
mod functions;
mod operators;
pub mod sizes;
pub mod variables;

pub use exprs::{expr_term, expr_terms};
pub use sizes::CallSizes;
pub use variables::{Variable, bind};
