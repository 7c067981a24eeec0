//! Unit propagation: what clauses force when literals become false.
ghost use Rattle.std.specs.Prelude.{[], ◌+◌, ◌<◌, ◌≡◌, ◌≤◌, ◌++◌, ◌∷◌, ◌^◌, ◌||◌, IfOk, IsTrue, length, List, OnOk, option_map, slice_get, Some, ℤ};
ghost use Rattle.std.specs.List.{All};
ghost use Rattle.cnf_core.specs.Clauses.{literals};
ghost use Rattle.cnf_core.specs.Deriving.{has_no_value, is_false};
ghost use Rattle.cnf_core.specs.Literals.{has_literal, Names, opposite, same, variable};
ghost use Rattle.cnf_core.specs.Satisfying.{WellNamed};
ghost use Rattle.cnf_core.specs.Trails.{literal_at, numbers};
ghost use Rattle.cnf_core.specs.TrailViews.{not_true, room, trues};
ghost use Rattle.cdcl.specs.Searching.{IsForcedBy};
ghost use Rattle.cdcl.specs.States.{clauses_of, HasWatches, Inside, IsLonger, IsReady, IsSameButWatches, IsSound, PropagatesLiteral, ReplacesAt, SameSteps, Settled, PropagatesClause, VisitsClause, VisitsNumber, WatchesNext};
ghost use Rattle.cdcl.specs.Watching.{IsEntry, IsLookedAt, list_of};

use crate::Pair;
use crate::search::Search;
use cnf_core::{Clause, Cnf, Lit, known_clause};
use cocoon_num::NoMemory;

/// What becomes of a clause in whose pair a literal is false.
#[derive(Clone, Copy)]
pub(crate) enum Visit {
    /// It does not watch the literal, or watches a true one besides: nothing changes.
    Kept,
    /// It watches these two from now on, the second in place of the false one.
    Moved(Pair),
    /// It is unit: this literal has no value, and all others are false.
    Forces(Lit),
    /// All its literals are false.
    Conflict,
}

impl Search {
    /// How many clauses there are, given and learned.
    pub(crate) fn count(&self, cnf: &Cnf) -> usize
        requires { length (clauses_of cnf.now self.now) < 2 ^ 32 }
        ensures { result ≡ length (clauses_of cnf.now self.now) }
    {
        cnf.clauses.items().len() + self.steps.len()
    }

    /// The clause of this number, if it is one.
    pub fn clause<'s>(&'s self, cnf: &'s Cnf, number: usize) -> Option<&'s Clause>
        ensures { option_map (λ c. literals c.now) result
            ≡ slice_get (clauses_of cnf.now self.now) number }
    {
        known_clause(cnf, &self.steps, number)
    }

    /// Puts the literal on the trail that the clause of this number forces, which is its reason.
    pub(crate) fn force(&mut self, cnf: &Cnf, lit: Lit, number: u32) -> Result<(), NoMemory>
        requires sound { IsSound cnf.now self.old }
        requires named { Names (room self.old.trail) lit.number }
        requires no_value { IsTrue (has_no_value (trues self.old.trail) lit.number) }
        requires forced { IsForcedBy (clauses_of cnf.now self.old)
            (trues self.old.trail ++ lit.number ∷ []) (length (trues self.old.trail)) number }
        ensures sound { OnOk result (IsSound cnf.now self.new) }
        ensures steps { SameSteps self.old self.new }
        ensures starts { self.new.starts.items ≡ self.old.starts.items }
        ensures watches { self.new.watches ≡ self.old.watches }
        ensures propagated { self.new.propagated ≡ self.old.propagated }
        ensures trues { OnOk result
            (trues self.new.trail ≡ trues self.old.trail ++ lit.number ∷ []) }
        ensures fewer { OnOk result (not_true self.new.trail < not_true self.old.trail) }
    {
        self.trail.push(lit)?;
        self.reasons.push(Some(number))?;
        Ok(())
    }

    /// The same where clauses are watched.
    pub(crate) fn enqueue(&mut self, cnf: &Cnf, lit: Lit, number: u32) -> Result<(), NoMemory>
        requires sound { IsSound cnf.now self.old }
        requires named { Names (room self.old.trail) lit.number }
        requires no_value { IsTrue (has_no_value (trues self.old.trail) lit.number) }
        requires forced { IsForcedBy (clauses_of cnf.now self.old)
            (trues self.old.trail ++ lit.number ∷ []) (length (trues self.old.trail)) number }
        requires watched { HasWatches cnf.now self.old }
        ensures sound { OnOk result (IsSound cnf.now self.new) }
        ensures watched { OnOk result (HasWatches cnf.now self.new) }
        ensures steps { SameSteps self.old self.new }
        ensures starts { self.new.starts.items ≡ self.old.starts.items }
        ensures watches { self.new.watches ≡ self.old.watches }
        ensures propagated { self.new.propagated ≡ self.old.propagated }
        ensures trues { OnOk result
            (trues self.new.trail ≡ trues self.old.trail ++ lit.number ∷ []) }
        ensures fewer { OnOk result (not_true self.new.trail < not_true self.old.trail) }
    {
        self.force(cnf, lit, number)?;
        Ok(())
    }

    /// Attaches the next clause: it watches these literals.
    pub(crate) fn watch(&mut self, cnf: &Cnf, pair: Pair) -> Result<(), NoMemory>
        requires sound { IsSound cnf.now self.old }
        requires named { WellNamed cnf.now }
        requires numbered { length self.old.watches.pairs.items < 2 ^ 32 }
        requires watched { HasWatches cnf.now self.old }
        requires next { WatchesNext cnf.now self.old pair }
        ensures sound { OnOk result (IsSound cnf.now self.new) }
        ensures watched { OnOk result (HasWatches cnf.now self.new) }
        ensures count { OnOk result (length self.new.watches.pairs.items
            ≡ length self.old.watches.pairs.items + 1) }
        ensures same { IsSameButWatches self.old self.new }
    {
        self.watches.add(pair)?;
        Ok(())
    }

    /// Whether a literal is this one, or false.
    fn is_spent(&self, lit: Lit, other: Lit) -> bool
        requires { variable lit.number ≤ room self.now.trail }
        ensures { result ≡ (same other.number lit.number
            || is_false (trues self.now.trail) lit.number) }
    {
        other.is_same(lit) || self.trail.is_false(lit)
    }

    /// The place of a literal that is not false, besides this one.
    fn find_open(&self, lits: &[Lit], other: Lit) -> Option<usize>
        requires { All (Names (room self.now.trail)) (numbers lits.now) }
        ensures { ReplacesAt (trues self.now.trail) (numbers lits.now) other.number result }
    {
        for place in 0..lits.len() {
            if !self.is_spent(lits[place], other) {
                return Some(place);
            }
        }
        None
    }

    /// The place in a clause of a literal that is not false, besides this one. The look begins at the place `from`, and
    /// goes on at the first one after the last.
    fn replacement(&self, clause: &Clause, other: Lit, from: usize) -> Option<usize>
        requires { All (Names (room self.now.trail)) (literals clause.now) }
        ensures { ReplacesAt (trues self.now.trail) (literals clause.now) other.number result }
    {
        let lits = clause.lits.items();
        let (before, after) = lits.split_at(from.min(lits.len()));
        match self.find_open(after, other) {
            Some(place) => Some(before.len() + place),
            None => self.find_open(before, other),
        }
    }

    /// What becomes of a clause that watches this literal of its own besides one that is false. The look for a literal to
    /// watch begins at the place `from`.
    pub(crate) fn visit_clause(&self, clause: &Clause, other: Lit, from: usize) -> Visit
        requires named { All (Names (room self.now.trail)) (literals clause.now) }
        requires inside { IsTrue (has_literal (literals clause.now) other.number) }
        ensures { VisitsClause (trues self.now.trail) (literals clause.now) other.number result }
    {
        if self.trail.is_true(other) {
            return Visit::Kept;
        }
        if let Some(place) = self.replacement(clause, other, from) {
            let second = clause.lits.items()[place];
            return Visit::Moved(Pair::new(other, second, place));
        }
        if self.trail.is_false(other) {
            Visit::Conflict
        } else {
            Visit::Forces(other)
        }
    }

    /// The same for the clause of this number.
    fn visit_number(&self, cnf: &Cnf, number: u32, other: Lit) -> Visit
        requires sound { IsSound cnf.now self.now }
        requires named { WellNamed cnf.now }
        requires inside { Inside (clauses_of cnf.now self.now) number other.number }
        ensures { (clause : List ℤ) → slice_get (clauses_of cnf.now self.now) number ≡ Some clause
            → VisitsClause (trues self.now.trail) clause other.number result }
    {
        match self.clause(cnf, number as usize) {
            Some(clause) => self.visit_clause(clause, other, self.watches.resume(number)),
            None => Visit::Kept,
        }
    }

    /// What becomes of the clause of this number where this literal is false.
    fn visit(&self, cnf: &Cnf, number: u32, off: Lit) -> Visit
        requires sound { IsSound cnf.now self.now }
        requires named { WellNamed cnf.now }
        requires ready { IsReady cnf.now self.now }
        ensures { VisitsNumber cnf.now self.now number off.number result }
    {
        match self.watches.other(number, off) {
            Some(other) => self.visit_number(cnf, number, other),
            None => Visit::Kept,
        }
    }

    /// Visits the clause of this number, at this place of the list of a literal that is false. Gives the place that is
    /// next, if the clause is no conflict.
    fn propagate_clause(
        &mut self,
        cnf: &Cnf,
        off: Lit,
        at: usize,
        number: u32,
    ) -> Result<Option<usize>, NoMemory>
        requires sound { IsSound cnf.now self.old }
        requires named { WellNamed cnf.now }
        requires ready { IsReady cnf.now self.old }
        requires false_now { self.old.propagated < length (trues self.old.trail) }
        requires off { literal_at (trues self.old.trail) self.old.propagated ≡ opposite off.number }
        requires entry { IsEntry (list_of self.old.watches off.number) at number }
        requires small { at < 2 ^ 63 }
        requires before { IsLookedAt (trues self.old.trail) self.old.watches off.number at }
        ensures sound { OnOk result (IsSound cnf.now self.new) }
        ensures ready { OnOk result (IsReady cnf.now self.new) }
        ensures steps { SameSteps self.old self.new }
        ensures propagated { self.new.propagated ≡ self.old.propagated }
        ensures trues { OnOk result (IsLonger self.old self.new) }
        ensures next { IfOk result (λ next. PropagatesClause cnf.now self.old self.new off.number at
            number next) }
    {
        match self.visit(cnf, number, off) {
            Visit::Kept => Ok(Some(at + 1)),
            Visit::Moved(pair) => {
                self.watches.change(off, at, pair)?;
                Ok(Some(at))
            }
            Visit::Forces(lit) => {
                self.enqueue(cnf, lit, number)?;
                Ok(Some(at + 1))
            }
            Visit::Conflict => Ok(None),
        }
    }

    /// Visits each clause that watches a literal, which is false. Gives the number of a conflict.
    fn propagate_literal(&mut self, cnf: &Cnf, off: Lit) -> Result<Option<u32>, NoMemory>
        requires sound { IsSound cnf.now self.old }
        requires named { WellNamed cnf.now }
        requires ready { IsReady cnf.now self.old }
        requires false_now { self.old.propagated < length (trues self.old.trail) }
        requires off { literal_at (trues self.old.trail) self.old.propagated ≡ opposite off.number }
        ensures sound { OnOk result (IsSound cnf.now self.new) }
        ensures ready { OnOk result (IsReady cnf.now self.new) }
        ensures steps { SameSteps self.old self.new }
        ensures propagated { self.new.propagated ≡ self.old.propagated }
        ensures trues { OnOk result (IsLonger self.old self.new) }
        ensures found { IfOk result (λ found. PropagatesLiteral cnf.now self.new off.number found) }
    {
        let mut at = 0;
        while let Some(number) = self.watches.entry(off, at) {
            match self.propagate_clause(cnf, off, at, number)? {
                Some(next) => at = next,
                None => return Ok(Some(number)),
            }
        }
        Ok(None)
    }

    /// Propagates the literals of the trail until all were or a clause is a conflict, whose number it gives then.
    pub(crate) fn propagate(&mut self, cnf: &Cnf) -> Result<Option<u32>, NoMemory>
        requires sound { IsSound cnf.now self.old }
        requires named { WellNamed cnf.now }
        requires ready { IsReady cnf.now self.old }
        ensures sound { OnOk result (IsSound cnf.now self.new) }
        ensures ready { OnOk result (IsReady cnf.now self.new) }
        ensures steps { SameSteps self.old self.new }
        ensures fewer { OnOk result (not_true self.new.trail ≤ not_true self.old.trail) }
        ensures settled { IfOk result (λ found. Settled cnf.now self.new found) }
    {
        while self.propagated < self.trail.len() {
            let lit = self.trail.literal(self.propagated);
            if let Some(conflict) = self.propagate_literal(cnf, lit.opposite())? {
                return Ok(Some(conflict));
            }
            self.propagated += 1;
        }
        Ok(None)
    }
}
