//! Type soundness of designs that keep the rules: a well-typed expression has a value of its type, and
//! runs keep types. So runs by tables of functions are those under the definitions that the tables
//! stand for.
#![tactic(auto)]

pub mod laws;
