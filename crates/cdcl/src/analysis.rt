//! Which literals of a trail a conflict follows from.
ghost use Rattle.std.specs.Prelude.{◌≡◌};
ghost use Rattle.cdcl.specs.Marks.{count_from};

use crate::Order;
use cnf_core::{Clause, Lit, Trail};
use cocoon_num::{List, NoMemory};
use std::alloc::Global;

/// Marks on the literals of a trail.
#[derive(Drop)]
pub(crate) struct Analysis {
    /// By the place of a literal on the trail.
    pub marks: Vec<bool>,
    /// The place on the trail at which the last level starts.
    pub floor: usize,
    /// How many literals of the last level are marked. The clause of the marks is asserting when one is left.
    pub count: usize,
    /// The numbers of the clauses that were resolved, the conflict first.
    pub hints: Vec<u32>,
    ghost counted: { count ≡ count_from floor marks.items },
}

impl Analysis {
    ghost use Rattle.std.specs.Prelude.{[], ◌∷◌, ◌≤◌, ◌<◌, ◌+◌, false, IfOk, IsTrue, length, reverse, slice_set, true, ℕ};
    ghost use Rattle.std.specs.List.{All};
    ghost use Rattle.cnf_core.specs.Clauses.{literals};
    ghost use Rattle.cnf_core.specs.Literals.{Names};
    ghost use Rattle.cnf_core.specs.TrailViews.{room, trues};
    ghost use Rattle.cdcl.specs.Analyses.{IsFresh, IsSameBut};
    ghost use Rattle.cdcl.specs.Marks.{is_marked, MarksToo};

    /// Nothing is marked yet, on a trail of this length.
    pub fn new(alloc: Global, len: usize, floor: usize) -> Result<Analysis, NoMemory>
        ensures { IfOk result (λ analysis. IsFresh len floor analysis) }
    {
        let marks = vec![in alloc; false; len]?;
        Ok(Analysis {
            marks,
            floor,
            count: 0,
            hints: Vec::new(alloc),
        })
    }

    pub fn is_marked(&self, place: usize) -> bool
        ensures { result ≡ is_marked self.now.marks.items place }
    {
        match self.marks.get(place) {
            Some(mark) => *mark,
            None => false,
        }
    }

    /// Marks the literals that make literals of a clause false. The order learns of each that was not marked.
    pub fn mark_clause(&mut self, trail: &Trail, order: &mut Order, clause: &Clause)
        requires named { All (Names (room trail.now)) (literals clause.now) }
        requires sized { length self.old.marks.items ≡ length (trues trail.now) }
        ensures marks { MarksToo (literals clause.now) (trues trail.now)
            self.old.marks.items self.new.marks.items }
        ensures same { IsSameBut self.old self.new }
        ensures more { self.old.count ≤ self.new.count }
    {
        for lit in clause.lits.items() {
            self.mark_false(trail, order, *lit);
        }
    }

    /// Marks the literal that makes this one false, if one does.
    fn mark_false(&mut self, trail: &Trail, order: &mut Order, lit: Lit)
        requires named { Names (room trail.now) lit.number }
        requires sized { length self.old.marks.items ≡ length (trues trail.now) }
        ensures marks { MarksToo (lit.number ∷ []) (trues trail.now)
            self.old.marks.items self.new.marks.items }
        ensures same { IsSameBut self.old self.new }
        ensures more { self.old.count ≤ self.new.count }
    {
        if !trail.is_false(lit) {
            return;
        }
        if self.mark(trail.place(lit.opposite())) {
            order.bump(lit);
        }
    }

    /// Marks a literal. False if it is marked already.
    fn mark(&mut self, place: usize) -> bool
        requires within { place < length self.old.marks.items }
        ensures marks { self.new.marks.items ≡ slice_set self.old.marks.items place true }
        ensures same { IsSameBut self.old self.new }
        ensures more { self.old.count ≤ self.new.count }
    {
        if self.marks[place] {
            return false;
        }
        self.marks[place] = true;
        if place >= self.floor {
            self.count += 1;
        }
        true
    }

    /// Takes back the mark of a literal of the last level.
    pub fn unmark(&mut self, place: usize)
        requires within { place < length self.old.marks.items }
        requires last { self.old.floor ≤ place }
        requires marked { IsTrue (is_marked self.old.marks.items place) }
        ensures marks { self.new.marks.items ≡ slice_set self.old.marks.items place false }
        ensures same { IsSameBut self.old self.new }
        ensures one { self.new.count + 1 ≡ self.old.count }
    {
        self.marks[place] = false;
        self.count -= 1;
    }

    /// One more than the last marked place before this one, or 0.
    pub fn last_before(&self, place: usize) -> usize
        ensures within { result ≤ place }
        ensures none { (p : ℕ) → result ≤ p → p < place
            → is_marked self.now.marks.items p ≡ false }
        ensures marked { (p : ℕ) → result ≡ p + 1 → IsTrue (is_marked self.now.marks.items p) }
    {
        let mut end = place;
        while end > 0 {
            if self.is_marked(end - 1) {
                return end;
            }
            end -= 1;
        }
        0
    }

    /// The numbers of the resolved clauses, the conflict last.
    pub fn hints(&self, alloc: Global) -> Result<List<u32>, NoMemory>
        ensures { IfOk result (λ hints. hints ≡ reverse self.now.hints.items) }
    {
        let hints: Vec<u32> = self.hints.iter().rev().copied().collect(alloc)?;
        Ok(List::from(hints))
    }
}
