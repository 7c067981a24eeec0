//! Instances of assumptions: each at the terms that a goal applies functions to where the
//! assumption applies them to its parameters. docs/CLAUSES.md says which these are, and in which
//! order.
#![tactic(auto)]

pub mod instances;
mod patterns;
mod tuples;

pub use instances::pattern_instances;
