//! The values of expressions, as the section "Values" of docs/LANGUAGE.md defines them. Functions with
//! a body are evaluated by their bodies, and those that are defined at run time by tables.
#![tactic(auto)]

pub mod bindings;
pub mod evaluation;
pub mod fields;
mod functions;
mod kept;
pub mod laws;
pub mod operators;
pub mod value;

pub use bindings::Binding;
pub use evaluation::{Scene, State, evaluate, evaluate_all};
pub use value::Value;
