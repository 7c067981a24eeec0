//! How much each variable had to do with the conflicts so far, the last ones above all: the order that is known as VSIDS.

use cnf_core::{Clause, Cnf};
use cocoon_num::NoMemory;
use std::alloc::Global;

/// What the first conflict adds: more than 8,000,000 short clauses do. What a conflict adds grows by a thirty-second, so that
/// it has to be 32 at least.
const FIRST: u64 = 1 << 26;
/// What a given clause of one or two literals adds before any conflict. Each other one adds 1.
const SHORT: u64 = 8;
/// Above it, all is divided.
const GREATEST: u64 = 1 << 50;
/// The number of bits that each number then loses.
const LOST: u32 = 40;

#[derive(Drop)]
pub(crate) struct Scores {
    /// At the number of each variable.
    scores: Vec<u64>,
    /// What a conflict adds.
    increment: u64,
}

impl Scores {
    /// No conflict yet: a variable comes first that is in many of these clauses, in short ones above all.
    pub(crate) fn new(alloc: Global, cnf: &Cnf) -> Result<Scores, NoMemory> {
        let mut scores = Scores {
            scores: vec![in alloc; 0; cnf.vars as usize + 1]?,
            increment: FIRST,
        };
        for clause in cnf.clauses.items() {
            scores.count(clause);
        }
        Ok(scores)
    }

    /// Those of no variable.
    pub(crate) fn none(alloc: Global) -> Scores {
        Scores {
            scores: Vec::new(alloc),
            increment: FIRST,
        }
    }

    /// Adds what a given clause adds to each of its variables.
    fn count(&mut self, clause: &Clause) {
        let lits = clause.lits.items();
        let share = if lits.len() <= 2 { SHORT } else { 1 };
        for lit in lits {
            self.add(lit.variable(), share);
        }
    }

    fn add(&mut self, variable: u32, share: u64) {
        if let Some(score) = self.scores.get_mut(variable as usize) {
            *score = score.saturating_add(share);
        }
    }

    fn score(&self, variable: u32) -> u64 {
        match self.scores.get(variable as usize) {
            Some(score) => *score,
            None => 0,
        }
    }

    /// Whether the first variable comes before the other. Among equals the last one comes first: clauses of goals number a
    /// gate after what it is made of, so it is one near the goal.
    pub(crate) fn is_before(&self, variable: u32, other: u32) -> bool {
        let score = self.score(variable);
        let beside = self.score(other);
        score > beside || (score == beside && variable > other)
    }

    /// Adds what a conflict adds.
    pub(crate) fn raise(&mut self, variable: u32) {
        self.add(variable, self.increment);
    }

    /// The next conflict adds more. Where that is too much all scores become smaller, in the same order but for those that
    /// become equal.
    pub(crate) fn grow(&mut self) {
        self.increment = self.increment.saturating_add(self.increment / 32);
        if self.increment > GREATEST {
            self.increment >>= LOST;
            for score in &mut self.scores {
                *score >>= LOST;
            }
        }
    }
}
