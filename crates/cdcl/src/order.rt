//! Which variables are decided first, and on which values. Any order and any values are right; good ones make a search short.
ghost use Rattle.std.specs.Prelude.{◌<◌, ℕ, IfSome};
ghost use Rattle.cdcl.specs.Waiting.{waiting};

use crate::drawn::Drawn;
use crate::heap::Heap;
use crate::scores::Scores;
use cnf_core::{Cnf, Lit};
use cocoon_num::NoMemory;
use std::alloc::Global;

/// The variables that wait to be decided, and the values that they had.
#[derive(Drop)]
pub struct Order {
    scores: Scores,
    /// Those that were not drawn yet, and those that had to do with a conflict.
    heap: Heap,
    drawn: Drawn,
    /// At the number of each variable whether it was true when it had a value last; false before that.
    phases: Vec<bool>,
}

impl Order {
    /// No conflict yet, over these clauses.
    pub fn new(alloc: Global, cnf: &Cnf) -> Result<Order, NoMemory> {
        let scores = Scores::new(alloc, cnf)?;
        let heap = Heap::new(alloc, &scores, cnf.vars)?;
        let drawn = Drawn::new(alloc, cnf.vars)?;
        let phases = vec![in alloc; false; cnf.vars as usize + 1]?;
        Ok(Order {
            scores,
            heap,
            drawn,
            phases,
        })
    }

    /// No variable waits, and none will: for what decides nothing.
    pub(crate) fn idle(alloc: Global) -> Order {
        Order {
            scores: Scores::none(alloc),
            heap: Heap::none(alloc),
            drawn: Drawn::none(alloc),
            phases: Vec::new(alloc),
        }
    }

    /// Takes out the first variable.
    pub(crate) fn next(&mut self) -> Option<u32>
        ensures { IfSome result (λ variable. waiting self.new < waiting self.old) }
    {
        if let Some(variable) = self.drawn.first() {
            if !self.heap.comes_before(&self.scores, variable) {
                self.drawn.advance();
                return Some(variable);
            }
        }
        let variable = self.heap.pop(&self.scores)?;
        self.drawn.draw(variable);
        Some(variable)
    }

    /// Whether the variable was true when it had a value last.
    pub(crate) fn was_true(&self, variable: u32) -> bool {
        match self.phases.get(variable as usize) {
            Some(phase) => *phase,
            None => false,
        }
    }

    /// The variable of this literal, which was true, has no value any more.
    pub(crate) fn release(&mut self, lit: Lit) {
        let variable = lit.variable();
        if let Some(phase) = self.phases.get_mut(variable as usize) {
            *phase = lit.number > 0;
        }
        if !self.drawn.put_back(variable) {
            self.heap.insert(&self.scores, variable);
        }
    }

    /// The variable of this literal had to do with the conflict.
    pub fn bump(&mut self, lit: Lit) {
        let variable = lit.variable();
        self.scores.raise(variable);
        self.drawn.take_out(variable);
        self.heap.raise(&self.scores, variable);
    }

    /// The next conflict counts more.
    pub fn decay(&mut self) {
        self.scores.grow();
    }
}
