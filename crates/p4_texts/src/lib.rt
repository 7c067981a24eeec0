//! P4 texts as they may be written: trees whose names are not yet looked up, where any name stands that the grammar has one
//! for, and a plain reader of their tokens. What reads tokens makes the trees of [`written`], and what looks names up takes
//! them. The kind rules of these texts stand here, too, with the programs that texts stand for ([`program_laws`]).
#![tactic(auto)]

pub mod program_laws;
pub mod reader_laws;
pub mod written;
