//! Verdicts on obligations by search, with what shows them.
#![tactic(auto)]

mod deciding;
pub mod laws;

pub use deciding::{Verdict, decide};
pub use rounds::Query;
