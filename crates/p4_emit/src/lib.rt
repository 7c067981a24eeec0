//! The text of P4 programs.
#![tactic(auto)]

pub mod print;

pub use print::{emit, emit_switch};
