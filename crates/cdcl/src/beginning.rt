//! How a search begins: the clauses that are given are attached, and those of one literal put it on the trail.
ghost use Rattle.std.specs.Prelude.{[], ◌+◌, ◌<◌, ◌≡◌, ◌^◌, IfOk, IsFalse, IsTrue, length, OnOk, slice_get, Some};
ghost use Rattle.cnf_core.specs.Clauses.{literals};
ghost use Rattle.cnf_core.specs.Deriving.{is_conflict};
ghost use Rattle.cnf_core.specs.Literals.{has_literal};
ghost use Rattle.cnf_core.specs.Satisfying.{WellNamed};
ghost use Rattle.cnf_core.specs.TrailViews.{trues};
ghost use Rattle.cdcl.specs.States.{Begins, clauses_of, IsBegun, IsSound};

use crate::propagation::Visit;
use crate::search::Search;
use crate::{Pair, Watches};
use cnf_core::{Clause, Cnf, Lit, Trail};
use cocoon_num::NoMemory;
use std::alloc::Global;

impl Search {
    /// Nothing is true yet, and nothing is learned or watched.
    fn empty(alloc: Global, cnf: &Cnf) -> Result<Search, NoMemory>
        requires { WellNamed cnf.now }
        ensures sound { IfOk result (λ search. IsSound cnf.now search) }
        ensures begun { IfOk result (λ search. IsBegun cnf.now search 0) }
    {
        let steps = Vec::new(alloc);
        let trail = Trail::new(alloc, cnf.vars)?;
        let reasons = Vec::new(alloc);
        let starts = Vec::new(alloc);
        let watches = Watches::new(alloc, cnf.vars)?;
        Ok(Search {
            steps,
            trail,
            reasons,
            starts,
            watches,
            propagated: 0,
        })
    }

    /// Attaches the clauses that are given, and puts on the trail what those of one literal force. Besides gives the
    /// number of a clause that is a conflict already.
    pub fn new(alloc: Global, cnf: &Cnf) -> Result<(Search, Option<u32>), NoMemory>
        requires named { WellNamed cnf.now }
        requires numbered { length cnf.now.clauses < 2 ^ 32 }
        ensures sound { IfOk result (λ begun. IsSound cnf.now begun.0) }
        ensures steps { IfOk result (λ begun. begun.0.steps.items ≡ []) }
        ensures undecided { IfOk result (λ begun. begun.0.starts.items ≡ []) }
        ensures begins { IfOk result (λ begun. Begins cnf.now begun.0 begun.1) }
    {
        let mut search = Search::empty(alloc, cnf)?;
        let mut number = 0;
        for clause in cnf.clauses.items() {
            let is_watched = search.watch_given(cnf, clause, number)?;
            if !is_watched {
                return Ok((search, Some(number)));
            }
            number += 1;
        }
        Ok((search, None))
    }

    /// Attaches the next clause, and puts its literal on the trail if it is unit. False if it is a conflict.
    fn watch_given(&mut self, cnf: &Cnf, clause: &Clause, number: u32) -> Result<bool, NoMemory>
        requires sound { IsSound cnf.now self.old }
        requires named { WellNamed cnf.now }
        requires begun { IsBegun cnf.now self.old number }
        requires clause { slice_get (clauses_of cnf.now self.old) number
            ≡ Some (literals clause.now) }
        ensures sound { OnOk result (IsSound cnf.now self.new) }
        ensures begun { IfOk result (λ good. IsTrue good
            → IsBegun cnf.now self.new (number + 1)) }
        ensures undecided { OnOk result (self.new.starts.items ≡ []) }
        ensures steps { OnOk result (self.new.steps.items ≡ []) }
        ensures conflict { IfOk result (λ good. IsFalse good
            → IsTrue (is_conflict (trues self.new.trail) (literals clause.now))) }
    {
        match first_literal(clause) {
            Some(first) => self.watch_from(cnf, clause, number, first),
            None => Ok(false),
        }
    }

    /// The same for a clause that has this literal.
    fn watch_from(
        &mut self,
        cnf: &Cnf,
        clause: &Clause,
        number: u32,
        first: Lit,
    ) -> Result<bool, NoMemory>
        requires sound { IsSound cnf.now self.old }
        requires named { WellNamed cnf.now }
        requires begun { IsBegun cnf.now self.old number }
        requires clause { slice_get (clauses_of cnf.now self.old) number
            ≡ Some (literals clause.now) }
        requires inside { IsTrue (has_literal (literals clause.now) first.number) }
        ensures sound { OnOk result (IsSound cnf.now self.new) }
        ensures begun { IfOk result (λ good. IsTrue good
            → IsBegun cnf.now self.new (number + 1)) }
        ensures undecided { OnOk result (self.new.starts.items ≡ []) }
        ensures steps { OnOk result (self.new.steps.items ≡ []) }
        ensures conflict { IfOk result (λ good. IsFalse good
            → IsTrue (is_conflict (trues self.new.trail) (literals clause.now))) }
    {
        match self.visit_clause(clause, first, 0) {
            Visit::Kept => {
                self.watch(cnf, Pair::twice(first))?;
                Ok(true)
            }
            Visit::Moved(pair) => {
                self.watch(cnf, pair)?;
                Ok(true)
            }
            Visit::Forces(lit) => {
                self.enqueue(cnf, lit, number)?;
                self.watch(cnf, Pair::twice(lit))?;
                Ok(true)
            }
            Visit::Conflict => Ok(false),
        }
    }
}

fn first_literal(clause: &Clause) -> Option<Lit>
    ensures { result ≡ slice_get clause.now.lits 0 }
{
    clause.lits.items().get(0).copied()
}
