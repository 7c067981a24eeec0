//! Goals without functions: Ackermann's reduction of a goal in an arena. docs/CLAUSES.md says what a flat goal looks like.
#![tactic(auto)]

mod agreeing;
mod applied;
mod flattening;
mod groups;
mod reducing;

pub use applied::{Applied, Flat};
pub use flattening::flatten;
