//! Goals without applications: inputs stand for these, and equal arguments have equal results. Before that, laws of terms:
//! values that fit, and other names for inputs. There is no code here.
#![tactic(auto)]

pub mod examples;
pub mod fitting;
pub mod laws;
pub mod names;
