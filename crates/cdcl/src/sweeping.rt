//! Unit propagation before any clause is watched: over all clauses in turn, forward and back. Most goals that cannot be true are
//! refuted by it, in a fraction of the time that it takes to watch their clauses.
ghost use Rattle.std.specs.Prelude.{[], ◌<◌, ◌≡◌, ◌^◌, IfOk, IfSome, IsFalse, IsTrue, length, OnOk, slice_get, Some};
ghost use Rattle.cnf_core.specs.Clauses.{literals};
ghost use Rattle.cnf_core.specs.Deriving.{is_conflict};
ghost use Rattle.cnf_core.specs.Satisfying.{WellNamed};
ghost use Rattle.cnf_core.specs.TrailViews.{trues};
ghost use Rattle.cdcl.specs.Searching.{IsConflictAt};
ghost use Rattle.cdcl.specs.States.{clauses_of, IsSound, IsUndecided};

use crate::search::Search;
use crate::watches::Watches;
use cnf_core::{Clause, ClauseStatus, Cnf, Trail};
use cocoon_num::NoMemory;
use std::alloc::Global;

/// So many times at most all clauses are gone over.
const MOST_SWEEPS: u32 = 4;

impl Search {
    /// Nothing is true yet, and nothing is learned or watched. Without a list for each literal nothing can be.
    fn unwatched(alloc: Global, cnf: &Cnf) -> Result<Search, NoMemory>
        requires { WellNamed cnf.now }
        ensures sound { IfOk result (λ search. IsSound cnf.now search) }
        ensures undecided { IfOk result (λ search. IsUndecided search) }
    {
        let steps = Vec::new(alloc);
        let trail = Trail::new(alloc, cnf.vars)?;
        let reasons = Vec::new(alloc);
        let starts = Vec::new(alloc);
        let watches = Watches::new(alloc, 0)?;
        Ok(Search {
            steps,
            trail,
            reasons,
            starts,
            watches,
            propagated: 0,
        })
    }

    /// Puts on the trail what the clause of this number forces, if it does. False if it is a conflict.
    fn sweep_clause(&mut self, cnf: &Cnf, clause: &Clause, number: u32) -> Result<bool, NoMemory>
        requires sound { IsSound cnf.now self.old }
        requires named { WellNamed cnf.now }
        requires undecided { IsUndecided self.old }
        requires clause { slice_get (clauses_of cnf.now self.old) number
            ≡ Some (literals clause.now) }
        ensures sound { OnOk result (IsSound cnf.now self.new) }
        ensures undecided { OnOk result (IsUndecided self.new) }
        ensures conflict { IfOk result (λ good. IsFalse good
            → IsTrue (is_conflict (trues self.new.trail) (literals clause.now))) }
    {
        match self.trail.status(clause) {
            ClauseStatus::Open => Ok(true),
            ClauseStatus::Forces(lit) => {
                self.force(cnf, lit, number)?;
                Ok(true)
            }
            ClauseStatus::Conflict => Ok(false),
        }
    }

    /// Goes over the given clauses once, from the last to the first if it is `back`. The number of a conflict, if one is found.
    fn sweep(&mut self, cnf: &Cnf, back: bool) -> Result<Option<u32>, NoMemory>
        requires sound { IsSound cnf.now self.old }
        requires named { WellNamed cnf.now }
        requires undecided { IsUndecided self.old }
        requires numbered { length cnf.now.clauses < 2 ^ 32 }
        ensures sound { OnOk result (IsSound cnf.now self.new) }
        ensures undecided { OnOk result (IsUndecided self.new) }
        ensures conflict { IfOk result (λ found. IfSome found
            (IsConflictAt (clauses_of cnf.now self.new) (trues self.new.trail))) }
    {
        let clauses = cnf.clauses.items();
        for place in 0..clauses.len() {
            let number = if back {
                clauses.len() - 1 - place
            } else {
                place
            };
            if !self.sweep_clause(cnf, &clauses[number], number as u32)? {
                return Ok(Some(number as u32));
            }
        }
        Ok(None)
    }

    /// What is forced before any decision, as far as a few sweeps find it, and the number of a conflict, if they find one.
    pub fn swept(alloc: Global, cnf: &Cnf) -> Result<(Search, Option<u32>), NoMemory>
        requires named { WellNamed cnf.now }
        requires numbered { length cnf.now.clauses < 2 ^ 32 }
        ensures sound { IfOk result (λ swept. IsSound cnf.now swept.0) }
        ensures undecided { IfOk result (λ swept. IsUndecided swept.0) }
        ensures conflict { IfOk result (λ swept. IfSome swept.1
            (IsConflictAt (clauses_of cnf.now swept.0) (trues swept.0.trail))) }
    {
        let mut search = Search::unwatched(alloc, cnf)?;
        for sweep in 0..MOST_SWEEPS {
            let before = search.trail.len();
            if let Some(conflict) = search.sweep(cnf, sweep % 2 == 1)? {
                return Ok((search, Some(conflict)));
            }
            if search.trail.len() == before {
                break;
            }
        }
        Ok((search, None))
    }
}
