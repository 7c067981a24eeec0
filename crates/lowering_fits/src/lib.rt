//! The program that lowering makes is one that can be printed and read: it keeps the kind rules ([`kinds`]), its text is
//! not too deep ([`depth`], over the depth of a design's trees, [`tree_depth`]) and not shorter than told ([`size`]), and
//! the programs of all switches are one with a hole for the number of the switch ([`alike`]), so that the programs of two
//! switches give those of all. Each law is the contract of a function that does nothing.
#![tactic(auto)]

pub mod alike;
pub mod depth;
pub mod kinds;
pub mod size;
pub mod tree_depth;
