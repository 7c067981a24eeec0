//! What the formulas of obligations mean, as laws: a formula is true exactly at a failure, in a design whose refined bodies
//! read back ([`exactness_laws`]). What this rests on: which term an expression stands for, and that it has the value of the
//! expression ([`expr_laws`]); bodies of roles as trees, of which a leaf is true exactly at the runs of its way
//! ([`tree_laws`]); what is known of the leaves of trees ([`leaf_laws`]), the widths of formulas, which code that makes them
//! asks for ([`form_laws`]), and the read-back rule on leaves: a choice of a body that a later level refines is read back
//! from what a leaf sends, or is read nowhere ([`read_back_laws`]). Each law is the contract of a function that does nothing.
#![tactic(auto)]

pub mod exactness_laws;
pub mod expr_laws;
pub mod form_laws;
pub mod laws;
pub mod leaf_laws;
pub mod read_back_laws;
pub mod tree_laws;
