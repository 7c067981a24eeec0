//! What the assumptions of a design say as terms, over terms, over numbers and over inputs of their own.
#![tactic(auto)]

pub mod assumptions;
pub mod laws;
pub mod own;

pub use assumptions::{assumption_term, value_instance};
pub use own::own_term;
