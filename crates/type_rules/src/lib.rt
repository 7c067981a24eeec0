//! The rules on types, the second phase of the rules of a design: [`note_types`] notes every fault of it. The type of
//! each expression is computed once.
#![tactic(auto)]

mod bodies;
mod calls;
mod decls;
mod exprs;
mod noting;
mod operands;
mod plain;
mod sort;
mod stmts;
pub mod types;

pub use types::note_types;
