//! Decisions, made when nothing is forced any more.
ghost use Rattle.std.specs.Prelude.{◌≡◌, ◌≤◌, ◌<◌, ◌^◌, IfOk, IfSome, IsTrue, length, OnOk, pos, unsigned_abs};
ghost use Rattle.cnf_core.specs.Deriving.{has_no_value};
ghost use Rattle.cnf_core.specs.Literals.{Names};
ghost use Rattle.cnf_core.specs.Satisfying.{HasAllValues, Satisfies, WellNamed};
ghost use Rattle.cnf_core.specs.TrailViews.{not_true, room, trues};
ghost use Rattle.cdcl.specs.Searching.{IsClosed, IsTotal};
ghost use Rattle.cdcl.specs.States.{CanDecide, clauses_of, Decides, IsReady, IsSound, IsNextConflict, SameSteps};
ghost use Rattle.cdcl.specs.declared.search.Search.{Search};

use crate::order::Order;
use crate::search::Search;
use cnf_core::{Assignment, Cnf, Lit};
use cocoon_num::{List, NoMemory};
use std::alloc::Global;

impl Search {
    /// The last variable that has no value.
    fn last_unassigned(&self) -> Option<Lit>
        ensures { Decides (room self.now.trail) (trues self.now.trail) result }
    {
        for index in (0..self.trail.vars()).rev() {
            let lit = positive(index + 1);
            if !self.trail.has_value(lit) {
                return Some(lit);
            }
        }
        None
    }

    /// The literal of this variable that is true where the variable has the value that it had last, if it has none now.
    fn decision(&self, order: &Order, variable: u32) -> Option<Lit>
        ensures { IfSome result (λ l. CanDecide (room self.now.trail) (trues self.now.trail) l) }
    {
        if variable == 0 || variable > self.trail.vars() {
            return None;
        }
        let lit = literal(variable, order.was_true(variable));
        if self.trail.has_value(lit) {
            return None;
        }
        Some(lit)
    }

    /// The first variable of the order that has no value.
    fn first_unassigned(&self, order: &mut Order) -> Option<Lit>
        ensures { IfSome result (λ l. CanDecide (room self.now.trail) (trues self.now.trail) l) }
    {
        while let Some(variable) = order.next() {
            if let Some(lit) = self.decision(order, variable) {
                return Some(lit);
            }
        }
        None
    }

    /// The variable that is decided next.
    fn next_decision(&self, order: &mut Order) -> Option<Lit>
        ensures { Decides (room self.now.trail) (trues self.now.trail) result }
    {
        match self.first_unassigned(order) {
            Some(lit) => Some(lit),
            None => self.last_unassigned(),
        }
    }

    /// Begins a level with this decision.
    fn decide(&mut self, cnf: &Cnf, lit: Lit) -> Result<(), NoMemory>
        requires sound { IsSound cnf.now self.old }
        requires named { Names (room self.old.trail) lit.number }
        requires no_value { IsTrue (has_no_value (trues self.old.trail) lit.number) }
        requires closed { IsClosed (clauses_of cnf.now self.old) (trues self.old.trail) }
        requires ready { IsReady cnf.now self.old }
        requires propagated { self.old.propagated ≡ length (trues self.old.trail) }
        ensures sound { OnOk result (IsSound cnf.now self.new) }
        ensures ready { OnOk result (IsReady cnf.now self.new) }
        ensures steps { SameSteps self.old self.new }
        ensures fewer { OnOk result (not_true self.new.trail < not_true self.old.trail) }
    {
        self.starts.push(self.trail.len())?;
        self.trail.push(lit)?;
        self.reasons.push(None)?;
        Ok(())
    }

    /// Propagates and decides until a clause is a conflict, whose number it gives then, or each variable has a value and
    /// none is.
    pub fn next_conflict(&mut self, cnf: &Cnf, order: &mut Order) -> Result<Option<u32>, NoMemory>
        requires sound { IsSound cnf.now self.old }
        requires named { WellNamed cnf.now }
        requires ready { IsReady cnf.now self.old }
        ensures sound { OnOk result (IsSound cnf.now self.new) }
        ensures ready { OnOk result (IsReady cnf.now self.new) }
        ensures steps { SameSteps self.old self.new }
        ensures ran { IfOk result (λ found. IsNextConflict cnf.now self.new found) }
    {
        loop {
            if let Some(conflict) = self.propagate(cnf)? {
                return Ok(Some(conflict));
            }
            match self.next_decision(order) {
                Some(lit) => self.decide(cnf, lit)?,
                None => return Ok(None),
            }
        }
    }
}

impl Search {
    /// The values of the variables.
    pub fn assignment(&self, alloc: Global, cnf: &Cnf) -> Result<Assignment, NoMemory>
        requires sound { IsSound cnf.now self.now }
        requires named { WellNamed cnf.now }
        requires closed { IsClosed (clauses_of cnf.now self.now) (trues self.now.trail) }
        requires total { IsTotal cnf.now.vars (trues self.now.trail) }
        ensures values { IfOk result (λ assignment. HasAllValues cnf.now assignment) }
        ensures satisfies { IfOk result (λ assignment. Satisfies assignment cnf.now) }
    {
        let mut values = Vec::new(alloc);
        for index in 0..cnf.vars {
            values.push(self.trail.is_true(positive(index + 1)))?;
        }
        Ok(Assignment {
            values: List::from(values),
        })
    }
}

/// The literal that is true where this variable has this value.
fn literal(variable: u32, is_true: bool) -> Lit
    requires some { 1 ≤ variable }
    requires few { variable < 2 ^ 31 }
    ensures { unsigned_abs result.number ≡ variable }
{
    let lit = positive(variable);
    if is_true { lit } else { lit.opposite() }
}

/// The literal that is true where this variable is.
fn positive(variable: u32) -> Lit
    requires some { 1 ≤ variable }
    requires few { variable < 2 ^ 31 }
    ensures { result.number ≡ pos variable }
{
    Lit {
        number: variable as i32,
    }
}
