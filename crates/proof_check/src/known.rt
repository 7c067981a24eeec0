//! The clauses that a step may use.
ghost use Rattle.std.specs.Prelude.{◌≡◌, option_map, slice_get};
ghost use Rattle.cnf_core.specs.Clauses.{literals};
ghost use Rattle.proof_check.specs.KnownClauses.{clauses_of};

use cnf_core::{Clause, Cnf, Step, known_clause};

/// The clauses that are given, and the steps so far.
#[derive(Clone, Copy)]
pub(crate) struct Known<'k> {
    pub cnf: &'k Cnf,
    pub so_far: &'k [Step],
}

impl<'k> Known<'k> {
    /// The clause of this number, if it is one.
    pub fn clause(&self, number: usize) -> Option<&'k Clause>
        ensures { option_map (λ c. literals c.now) result
            ≡ slice_get (clauses_of self.now) number }
    {
        known_clause(self.cnf, self.so_far, number)
    }
}
