//! What a refinement owes, and that levels which owe nothing compose: what each level may do, the
//! level above may do, if each block is contained and bounded. The definitions of both stand in
//! `specs/`; how they are decided plays no part here. [`sending_laws`] says which choices of a body are enough for a send,
//! and [`table_laws`] that tables which fit a design stand for definitions of it. There is no code here.
#![tactic(auto)]

pub mod laws;
pub mod sending_laws;
pub mod table_laws;
