//! What was made of the terms so far.
ghost use Rattle.std.specs.Prelude.{◌≤◌, ◌^◌};

use cnf_core::Clause;

/// The clauses of the gates so far, and the variable that is free.
#[derive(Drop)]
pub(crate) struct Gates {
    pub(crate) clauses: Vec<Clause>,
    pub(crate) next: u32,
    ghost first: { 1 ≤ next },
    ghost last: { next ≤ 2 ^ 31 },
}
