//! Failures of refinements: runs that show that a block is not contained, or not bounded, with the definitions under which
//! they do. They are tested by runs alone, and reported line by line; how they were found plays no part here.
#![tactic(auto)]

pub mod failure;
pub mod laws;
mod leading_lines;
mod numbers;
pub mod printing;
pub mod testing;

pub use failure::{Begin, Failure};
pub use printing::{over_text, refuted_text};
pub use testing::{over, refuted};
