//! Logs: clauses that follow from clauses, each with what shows it.
ghost use Rattle.std.specs.Prelude.{◌≡◌, option_map, slice_get};
ghost use Rattle.cnf_core.specs.Clauses.{literals};
ghost use Rattle.cnf_core.specs.Deriving.{known};

use crate::clauses::{Clause, Cnf};
use cocoon_num::List;

/// A clause that follows by unit propagation, and the clauses that propagate.
#[derive(Drop)]
pub struct Step {
    pub clause: Clause,
    /// Numbers of clauses in the order in which they propagate. The clauses that are given count from 0, and then come
    /// those of the steps.
    pub hints: List<u32>,
}

/// Steps, each of which may use the clauses of those before it.
#[derive(Drop)]
pub struct Log {
    pub steps: List<Step>,
}

/// The clause of this number, if it is one: those that are given count from 0, and then come those of the steps.
pub fn known_clause<'k>(cnf: &'k Cnf, steps: &'k [Step], number: usize) -> Option<&'k Clause>
    ensures { option_map (λ c. literals c.now) result ≡ slice_get (known cnf.now steps.now) number }
{
    let given = cnf.clauses.items();
    if number < given.len() {
        given.get(number)
    } else {
        step_clause(steps, number - given.len())
    }
}

fn step_clause(steps: &[Step], index: usize) -> Option<&Clause>
    ensures { option_map (λ c. literals c.now) result
        ≡ option_map (λ s. literals s.clause) (slice_get steps.now index) }
{
    match steps.get(index) {
        Some(step) => Some(&step.clause),
        None => None,
    }
}
