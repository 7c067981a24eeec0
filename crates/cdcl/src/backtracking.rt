//! Back to an earlier level, with a clause that was learned.
ghost use Rattle.std.specs.Prelude.{◌≡◌, ◌≤◌, ◌<◌, ◌+◌, ◌^◌, ◌++◌, ◌∷◌, [], length, OnOk, slice_index, take, ℕ};
ghost use Rattle.cnf_core.specs.Clauses.{literals};
ghost use Rattle.cnf_core.specs.Deriving.{Follows};
ghost use Rattle.cnf_core.specs.Licensing.{IsNew};
ghost use Rattle.cnf_core.specs.Satisfying.{WellNamed};
ghost use Rattle.cnf_core.specs.Trails.{HasStatus};
ghost use Rattle.cnf_core.specs.TrailViews.{trues};
ghost use Rattle.cdcl.specs.Searching.{IsAsserting};
ghost use Rattle.cdcl.specs.States.{Backtracks, clauses_of, HasWatches, IsReady, IsSound};

use crate::Pair;
use crate::order::Order;
use crate::search::Search;
use cnf_core::{ClauseStatus, Cnf, Step};
use cocoon_num::NoMemory;

impl Search {
    /// The level to go back to: the first at which all literals before this place are still true.
    pub fn backtrack_level(&self, second: usize) -> usize
        ensures within { result ≤ length self.now.starts.items }
        ensures below { (i : ℕ) → i < result → slice_index self.now.starts.items i < second }
        ensures above { result < length self.now.starts.items
            → second ≤ slice_index self.now.starts.items result }
    {
        let mut level = 0;
        for start in &self.starts {
            if second <= *start {
                return level;
            }
            level += 1;
        }
        level
    }

    /// Tells the order that the literals from this place on will be true no more.
    fn release(&self, order: &mut Order, cut: usize) {
        for place in cut..self.trail.len() {
            order.release(self.trail.literal(place));
        }
    }

    /// Takes back this level (counted from 0) and the later ones, so that as many levels are left.
    pub fn backtrack(&mut self, cnf: &Cnf, order: &mut Order, level: usize)
        requires sound { IsSound cnf.now self.old }
        requires ready { IsReady cnf.now self.old }
        requires within { level < length self.old.starts.items }
        ensures sound { IsSound cnf.now self.new }
        ensures ready { IsReady cnf.now self.new }
        ensures back { Backtracks self.old self.new level }
    {
        let cut = self.starts[level];
        self.release(order, cut);
        self.trail.truncate(cut);
        self.reasons.truncate(cut);
        self.starts.truncate(level);
        self.propagated = cut;
    }

    /// Adds a learned clause, attaches it by these literals, and puts the first on the trail, which it forces.
    pub fn add_step(&mut self, cnf: &Cnf, step: Step, pair: Pair) -> Result<(), NoMemory>
        requires sound { IsSound cnf.now self.old }
        requires named { WellNamed cnf.now }
        requires ready { IsReady cnf.now self.old }
        requires numbered { length (clauses_of cnf.now self.old) < 2 ^ 32 }
        requires follows { Follows cnf.now.vars (clauses_of cnf.now self.old)
            (literals step.clause) step.hints }
        requires new { IsNew (clauses_of cnf.now self.old) (literals step.clause) }
        requires unforced { (i : ℕ) → i < length self.old.starts.items
            → HasStatus (take (slice_index self.old.starts.items i) (trues self.old.trail))
            (literals step.clause) ClauseStatus.Open }
        requires asserting { IsAsserting (trues self.old.trail) self.old.starts.items
            (literals step.clause) pair.first.number pair.second.number }
        ensures sound { OnOk result (IsSound cnf.now self.new) }
        ensures ready { OnOk result (IsReady cnf.now self.new) }
        ensures one { OnOk result
            (length self.new.steps.items ≡ length self.old.steps.items + 1) }
    {
        let number = self.count(cnf) as u32;
        self.push_step(cnf, step)?;
        self.enqueue(cnf, pair.first, number)?;
        self.watch(cnf, pair)?;
        Ok(())
    }

    /// Adds a learned clause to the log.
    fn push_step(&mut self, cnf: &Cnf, step: Step) -> Result<(), NoMemory>
        requires sound { IsSound cnf.now self.old }
        requires ready { IsReady cnf.now self.old }
        requires follows { Follows cnf.now.vars (clauses_of cnf.now self.old)
            (literals step.clause) step.hints }
        requires new { IsNew (clauses_of cnf.now self.old) (literals step.clause) }
        requires unforced { (i : ℕ) → i < length self.old.starts.items
            → HasStatus (take (slice_index self.old.starts.items i) (trues self.old.trail))
            (literals step.clause) ClauseStatus.Open }
        ensures sound { OnOk result (IsSound cnf.now self.new) }
        ensures watched { OnOk result (HasWatches cnf.now self.new) }
        ensures clauses { OnOk result (clauses_of cnf.now self.new
            ≡ clauses_of cnf.now self.old ++ literals step.clause ∷ []) }
        ensures steps { OnOk result
            (length self.new.steps.items ≡ length self.old.steps.items + 1) }
        ensures pairs { self.new.watches ≡ self.old.watches }
        ensures trues { trues self.new.trail ≡ trues self.old.trail }
        ensures starts { self.new.starts.items ≡ self.old.starts.items }
        ensures propagated { self.new.propagated ≡ self.old.propagated }
    {
        self.steps.push(step)?;
        Ok(())
    }
}
