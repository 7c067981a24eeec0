//! The literals that are true, in the order in which they became so.
ghost use Rattle.std.specs.Prelude.{◌≡◌, ◌+◌, ◌*◌, ◌<◌, ◌≤◌, ◌^◌, length};
ghost use Rattle.std.specs.List.{All};
ghost use Rattle.cnf_core.specs.Literals.{Names};
ghost use Rattle.cnf_core.specs.Trails.{IsApart, numbers, Placed};

use crate::clause_status::ClauseStatus;
use crate::clauses::Clause;
use crate::lit::Lit;
use cocoon_num::NoMemory;
use std::alloc::Global;

/// Literals that are true, none with its opposite. Whether a literal is among them takes constant time.
#[derive(Drop)]
pub struct Trail {
    vars: u32,
    lits: Vec<Lit>,
    places: Vec<usize>,
    ghost few: { vars < 2 ^ 31 },
    ghost sized: { length places.items ≡ vars * 2 + 2 },
    ghost placed: { Placed (numbers lits.items) places.items },
    pub ghost named: { All (Names vars) (numbers lits.items) },
    pub ghost apart: { IsApart (numbers lits.items) },
}

impl Trail {
    ghost use Rattle.std.specs.Prelude.{[], ◌++◌, ◌∷◌, ◌-◌, ◌||◌, IfOk, IsTrue, List, OnOk, OnErr, take, ℤ};
    ghost use Rattle.cnf_core.specs.Deriving.{has_no_value, is_false};
    ghost use Rattle.cnf_core.specs.Clauses.{literals};
    ghost use Rattle.cnf_core.specs.Literals.{has_literal, variable};
    ghost use Rattle.cnf_core.specs.Trails.{HasStatus, literal_at};
    ghost use Rattle.cnf_core.specs.TrailViews.{not_true, room, trues};

    /// A trail for this many variables on which nothing is true yet.
    pub fn new(alloc: Global, vars: u32) -> Result<Trail, NoMemory>
        requires { vars < 2 ^ 31 }
        ensures trues { IfOk result (λ trail. trues trail ≡ []) }
        ensures room { IfOk result (λ trail. room trail ≡ vars) }
    {
        let places = vec![in alloc; 0; vars as usize * 2 + 2]?;
        Ok(Trail {
            vars,
            lits: Vec::new(alloc),
            places,
        })
    }

    /// How many variables there are.
    pub fn vars(&self) -> u32
        ensures { result ≡ room self.now }
    {
        self.vars
    }

    pub fn len(&self) -> usize
        ensures { result ≡ length (trues self.now) }
    {
        self.lits.len()
    }

    /// The literal at this place.
    pub fn literal(&self, place: usize) -> Lit
        requires { place < length (trues self.now) }
        ensures { result.number ≡ literal_at (trues self.now) place }
    {
        self.lits[place]
    }

    /// The place of a literal that is true.
    pub fn place(&self, lit: Lit) -> usize
        requires { IsTrue (has_literal (trues self.now) lit.number) }
        ensures within { result < length (trues self.now) }
        ensures literal { literal_at (trues self.now) result ≡ lit.number }
    {
        self.places[lit.index()] - 1
    }

    pub fn is_true(&self, lit: Lit) -> bool
        requires { variable lit.number ≤ room self.now }
        ensures { result ≡ has_literal (trues self.now) lit.number }
    {
        self.places[lit.index()] != 0
    }

    pub fn is_false(&self, lit: Lit) -> bool
        requires { variable lit.number ≤ room self.now }
        ensures { result ≡ is_false (trues self.now) lit.number }
    {
        self.is_true(lit.opposite())
    }

    pub fn has_value(&self, lit: Lit) -> bool
        requires { variable lit.number ≤ room self.now }
        ensures { result ≡ (has_literal (trues self.now) lit.number
            || is_false (trues self.now) lit.number) }
    {
        self.is_true(lit) || self.is_false(lit)
    }

    /// Makes a literal true.
    pub fn push(&mut self, lit: Lit) -> Result<(), NoMemory>
        requires named { variable lit.number ≤ room self.old }
        requires no_value { IsTrue (has_no_value (trues self.old) lit.number) }
        ensures trues { OnOk result (trues self.new ≡ trues self.old ++ lit.number ∷ []) }
        ensures same { OnErr result (trues self.new ≡ trues self.old) }
        ensures fewer { OnOk result (not_true self.new < not_true self.old) }
        ensures room { room self.new ≡ room self.old }
    {
        self.lits.push(lit)?;
        self.places[lit.index()] = self.lits.len();
        Ok(())
    }

    /// Takes back all but the first literals.
    pub fn truncate(&mut self, len: usize)
        ensures trues { trues self.new ≡ take len (trues self.old) }
        ensures room { room self.new ≡ room self.old }
    {
        while len < self.lits.len() {
            self.pop();
        }
    }

    fn pop(&mut self)
        requires { 0 < length (trues self.old) }
        ensures trues { trues self.new ≡ take (length (trues self.old) - 1) (trues self.old) }
        ensures room { room self.new ≡ room self.old }
    {
        if let Some(lit) = self.lits.pop() {
            self.places[lit.index()] = 0;
        }
    }

    /// The status of a clause under the literals that are true.
    pub fn status(&self, clause: &Clause) -> ClauseStatus
        requires { All (Names (room self.now)) (literals clause.now) }
        ensures { HasStatus (trues self.now) (literals clause.now) result }
    {
        let mut status = ClauseStatus::Conflict;
        for lit in clause.lits.items() {
            status = self.status_with(status, *lit);
            if matches!(status, ClauseStatus::Open) {
                return status;
            }
        }
        status
    }

    /// The status of a clause with one more literal, from that without it.
    fn status_with(&self, status: ClauseStatus, lit: Lit) -> ClauseStatus
        requires { variable lit.number ≤ room self.now }
        ensures { (ls : List ℤ) → HasStatus (trues self.now) ls status
            → HasStatus (trues self.now) (ls ++ lit.number ∷ []) result }
    {
        match status {
            ClauseStatus::Conflict => self.status_with_first(lit),
            ClauseStatus::Forces(forced) => self.status_with_second(forced, lit),
            ClauseStatus::Open => ClauseStatus::Open,
        }
    }

    /// The same, where all others are false.
    fn status_with_first(&self, lit: Lit) -> ClauseStatus
        requires { variable lit.number ≤ room self.now }
        ensures { (ls : List ℤ) → HasStatus (trues self.now) ls ClauseStatus.Conflict
            → HasStatus (trues self.now) (ls ++ lit.number ∷ []) result }
    {
        if self.is_false(lit) {
            return ClauseStatus::Conflict;
        }
        if self.is_true(lit) {
            return ClauseStatus::Open;
        }
        ClauseStatus::Forces(lit)
    }

    /// The same, where the others force a literal.
    fn status_with_second(&self, forced: Lit, lit: Lit) -> ClauseStatus
        requires { variable lit.number ≤ room self.now }
        ensures { (ls : List ℤ) → HasStatus (trues self.now) ls (ClauseStatus.Forces forced)
            → HasStatus (trues self.now) (ls ++ lit.number ∷ []) result }
    {
        if self.is_false(lit) {
            return ClauseStatus::Forces(forced);
        }
        if forced.is_same(lit) {
            return ClauseStatus::Forces(forced);
        }
        ClauseStatus::Open
    }
}
