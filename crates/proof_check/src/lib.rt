//! Checks logs: that each step follows by its hints, and that each brings a new clause. Nothing is searched for. Whether a
//! step follows takes the time of reading its clause and those that its hints name; whether it is new, of the clauses whose
//! top literal, the one of the highest variable, is one of its literals. [`laws`] has laws on logs.
#![tactic(auto)]

mod chains;
mod known;
pub mod laws;
mod step;
mod subsumption;

pub use step::check_log;
pub use subsumption::check_distinct;
