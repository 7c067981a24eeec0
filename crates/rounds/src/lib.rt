//! Rounds: a search for inputs at which a formula is true, under definitions that meet the assumptions. An assignment gives
//! candidates; an assumption that these break is added at the values at which they do, and the search goes on.
#![tactic(auto)]

mod asking;
mod breaking;
mod goal_parts;
mod guessing;
mod holding;
mod judging;
pub mod outcome;
mod pinning;
pub mod searching;
mod shortening;

pub use outcome::{Outcome, Query, Witness};
pub use searching::search;
