//! Failures of obligations, by values that were found for the inputs of their formulas. [`laws`] has a law: where the
//! formula of an obligation is true, a run of its leaf fails.
#![tactic(auto)]

mod beginning;
pub mod laws;
pub mod reading;

pub use reading::failure;
