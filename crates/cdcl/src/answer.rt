//! The answers of a search.
ghost use Rattle.std.specs.Prelude.{◌≡◌, ◌+◌, ◌<◌, ◌≤◌, ◌^◌, IfOk, length, ℕ};
ghost use Rattle.cnf_core.specs.Satisfying.{WellNamed};
ghost use Rattle.cnf_core.specs.TrailViews.{trues};
ghost use Rattle.cdcl.specs.Answering.{Answers};
ghost use Rattle.cdcl.specs.Searching.{IsConflictAt};
ghost use Rattle.cdcl.specs.States.{clauses_of, IsReady, IsSound};

use crate::learning::{learn, refute};
use crate::{Order, Search};
use cnf_core::{Assignment, Cnf, Log};
use cocoon_num::NoMemory;
use std::alloc::Global;

#[derive(Drop)]
pub enum Answer {
    /// It satisfies the clauses.
    Satisfied(Assignment),
    /// It derives the empty clause, so nothing satisfies the clauses.
    Unsat(Log),
    /// The conflicts that were allowed are used up; each showed a new clause.
    Spent(Log),
}

/// Searches until it has an answer or has met this many conflicts.
pub fn solve(alloc: Global, cnf: &Cnf, conflicts: u64) -> Result<Answer, NoMemory>
    requires named { WellNamed cnf.now }
    requires numbered { length cnf.now.clauses + conflicts < 2 ^ 32 }
    ensures { IfOk result (λ answer. Answers cnf.now conflicts answer) }
{
    let (swept, conflict) = Search::swept(alloc, cnf)?;
    if conflicts == 0 {
        return Ok(Answer::Spent(swept.into_log()));
    }
    match conflict {
        Some(number) => unsat(alloc, cnf, swept, Order::idle(alloc), number),
        None => search_on(alloc, cnf, conflicts),
    }
}

/// Searches with watched literals. The search begins anew, so that what it finds does not depend on what was swept.
fn search_on(alloc: Global, cnf: &Cnf, conflicts: u64) -> Result<Answer, NoMemory>
    requires named { WellNamed cnf.now }
    requires numbered { length cnf.now.clauses + conflicts < 2 ^ 32 }
    requires some { 1 ≤ conflicts }
    ensures { IfOk result (λ answer. Answers cnf.now conflicts answer) }
{
    let (search, conflict) = Search::new(alloc, cnf)?;
    let order = Order::new(alloc, cnf)?;
    match conflict {
        Some(number) => unsat(alloc, cnf, search, order, number),
        None => decide_and_learn(alloc, cnf, search, order, conflicts),
    }
}

/// Nothing satisfies the clauses: one is a conflict before any decision.
fn unsat(
    alloc: Global,
    cnf: &Cnf,
    search: Search,
    order: Order,
    conflict: u32,
) -> Result<Answer, NoMemory>
    requires sound { IsSound cnf.now search }
    requires named { WellNamed cnf.now }
    requires conflict { IsConflictAt (clauses_of cnf.now search) (trues search.trail) conflict }
    requires undecided { length search.starts.items ≡ 0 }
    ensures { IfOk result (λ answer. (conflicts : ℕ) → length search.steps.items < conflicts
        → Answers cnf.now conflicts answer) }
{
    let mut search = search;
    let mut order = order;
    refute(&mut search, alloc, cnf, &mut order, conflict)?;
    Ok(Answer::Unsat(search.into_log()))
}

/// Decides and learns until there is an answer.
fn decide_and_learn(
    alloc: Global,
    cnf: &Cnf,
    search: Search,
    order: Order,
    conflicts: u64,
) -> Result<Answer, NoMemory>
    requires sound { IsSound cnf.now search }
    requires named { WellNamed cnf.now }
    requires ready { IsReady cnf.now search }
    requires numbered { length cnf.now.clauses + conflicts < 2 ^ 32 }
    requires within { length search.steps.items ≤ conflicts }
    ensures { IfOk result (λ answer. Answers cnf.now conflicts answer) }
{
    let mut search = search;
    let mut order = order;
    while (search.steps.len() as u64) < conflicts {
        let Some(conflict) = search.next_conflict(cnf, &mut order)? else {
            return Ok(Answer::Satisfied(search.assignment(alloc, cnf)?));
        };
        if search.starts.is_empty() {
            return unsat(alloc, cnf, search, order, conflict);
        }
        learn(&mut search, alloc, cnf, &mut order, conflict)?;
        order.decay();
    }
    Ok(Answer::Spent(search.into_log()))
}
