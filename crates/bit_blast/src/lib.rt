//! The clauses of a term, in the order that docs/CLAUSES.md gives them.
#![tactic(auto)]

mod bit;
pub mod blasting;
mod counts;
mod emit;
mod gates;
mod input_bits;
pub mod inputs;
mod joining;
pub mod laws;
mod made;
mod parts;
mod table;

pub use blasting::{BlastFault, blast};
pub use inputs::InputMap;
