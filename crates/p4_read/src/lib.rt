//! P4 texts, read: the program that a text is, or its first fault. By its laws each text has one of the two, and one only.
#![tactic(auto)]

pub mod fault;
pub mod laws;
pub mod whole_text;

pub use fault::P4Fault;
pub use whole_text::read;
