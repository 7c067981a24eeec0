//! Lowering, as functions on trees, and what it keeps: the body of a switch's role becomes statements, and those, with
//! headers, meta fields and tables, the program of a switch. [`bodies`] has the laws of bodies, [`visits`] those of visits:
//! what leaves a switch is what its role's body sends. Each law is the contract of a function that does nothing. The code
//! that follows these functions stands in `lower_code` and `lower_net`.
#![tactic(auto)]

pub mod bodies;
pub mod visits;
