//! The state of a search: the trail, with reasons and levels; the learned clauses; the watches.
ghost use Rattle.std.specs.Prelude.{◌≡◌};

use crate::Watches;
use cnf_core::{Log, Step, Trail};
use cocoon_num::List;

/// A state of the search. A level is what one decision made true, with all that it forced; before the first decision
/// there is level 0.
#[derive(Drop)]
pub struct Search {
    /// The learned clauses, with their hints. Their numbers follow those of the clauses that are given.
    pub steps: Vec<Step>,
    pub trail: Trail,
    /// For each literal of the trail the number of the clause that forced it, its reason; none for a decision.
    pub reasons: Vec<Option<u32>>,
    /// For each decision its place on the trail, where its level starts.
    pub starts: Vec<usize>,
    pub watches: Watches,
    /// How many literals of the trail were propagated: each clause that watches the opposite of one was visited.
    pub propagated: usize,
}

impl Search {
    /// The learned clauses, as a log.
    pub fn into_log(self) -> Log
        ensures { result.steps ≡ self.steps.items }
    {
        let Search { steps, .. } = self;
        Log {
            steps: List::from(steps),
        }
    }
}
