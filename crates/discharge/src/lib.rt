//! Verdicts by search: whether definitions meet the assumptions of a design.
#![tactic(auto)]

mod asking;
pub mod laws;
pub mod meeting;

pub use meeting::{Budget, Met, meets, meets_to};
