//! The candidates of an assignment, and whether each meets the assumptions.
ghost use Rattle.std.specs.Prelude.{◌≡◌, ◌⊎◌, ◌≤◌, ◌<◌, ◌^◌, IfOk};
ghost use Rattle.cocoon_syntax.specs.TreeOf.{design_of};
ghost use Rattle.cocoon_types.specs.Design.{last_level};
ghost use Rattle.candidates.specs.Flat.{IsFlatGoal};
ghost use Rattle.rounds.specs.Steps.{IsCandidate, IsJudged};

use crate::asking::Satisfied;
use crate::breaking::breaks_too;
use candidates::candidate;
use cocoon_num::NoMemory;
use cocoon_resolve::Checked;
use discharge::{Budget, Met, meets_to};
use runtime_defs::{Defaults, Defs};
use std::alloc::Global;

/// A candidate, and whether it meets the assumptions.
#[derive(Drop)]
pub(crate) struct Judged {
    pub(crate) defs: Defs,
    pub(crate) met: Met,
}

/// The candidate that an assignment gives with these defaults.
fn candidate_with(
    alloc: Global,
    checked: &Checked,
    satisfied: &Satisfied,
    defaults: Defaults,
) -> Result<Defs, NoMemory>
    requires { IsFlatGoal (design_of checked.now) satisfied.now.own.terms
        satisfied.now.own.applied satisfied.now.inputs }
    ensures { IfOk result (IsCandidate (design_of checked.now) satisfied.now) }
{
    let defs = candidate(
        alloc,
        checked,
        &satisfied.own.terms,
        satisfied.own.applied.items(),
        &satisfied.inputs,
        &satisfied.assignment,
        defaults,
    )?;
    Ok(defs)
}

/// What is said of the candidate with these defaults.
fn judge_one(
    alloc: Global,
    checked: &Checked,
    level: u32,
    satisfied: &Satisfied,
    defaults: Defaults,
    budget: &Budget,
) -> Result<Judged, NoMemory>
    requires level { level ≤ last_level (design_of checked.now) }
    requires flat { IsFlatGoal (design_of checked.now) satisfied.now.own.terms
        satisfied.now.own.applied satisfied.now.inputs }
    requires some { 1 ≤ budget.now.conflicts }
    requires few { budget.now.conflicts < 2 ^ 31 }
    ensures { IfOk result (IsJudged (design_of checked.now) level satisfied.now
        budget.now.conflicts) }
{
    let defs = candidate_with(alloc, checked, satisfied, defaults)?;
    let met = meets_to(alloc, checked, &defs, level, budget)?;
    Ok(Judged { defs, met })
}

/// How much is known of a candidate, from the least to the most.
#[derive(Drop, PartialEq, PartialOrd)]
enum Known {
    /// A search was given up.
    Undecided,
    /// It breaks an assumption.
    Broken,
    /// It meets all assumptions.
    Met,
}

/// How much is known of a candidate of which this is said.
fn known_of(met: &Met) -> Known {
    match met {
        Met::Yes => Known::Met,
        Met::Broken(_, _) => Known::Broken,
        Met::SpentConflicts(_, _, _) | Met::Big(_, _) => Known::Undecided,
    }
}

/// Of two candidates the one of which more is known; the first, if as much is known of both.
fn better(first: Judged, second: Judged) -> Judged
    ensures { (result ≡ first) ⊎ (result ≡ second) }
{
    if known_of(&second.met) > known_of(&first.met) {
        second
    } else {
        first
    }
}

/// The better one of a candidate and the one with these defaults, which is not asked if it breaks what
/// the other breaks.
fn judge_next(
    alloc: Global,
    checked: &Checked,
    level: u32,
    satisfied: &Satisfied,
    defaults: Defaults,
    best: Judged,
    budget: &Budget,
) -> Result<Judged, NoMemory>
    requires level { level ≤ last_level (design_of checked.now) }
    requires flat { IsFlatGoal (design_of checked.now) satisfied.now.own.terms
        satisfied.now.own.applied satisfied.now.inputs }
    requires best { IsJudged (design_of checked.now) level satisfied.now
        budget.now.conflicts best }
    requires some { 1 ≤ budget.now.conflicts }
    requires few { budget.now.conflicts < 2 ^ 31 }
    ensures { IfOk result (IsJudged (design_of checked.now) level satisfied.now
        budget.now.conflicts) }
{
    let defs = candidate_with(alloc, checked, satisfied, defaults)?;
    if breaks_too(alloc, checked, level, &best.met, &defs)? {
        return Ok(best);
    }
    let next = Judged {
        met: meets_to(alloc, checked, &defs, level, budget)?,
        defs,
    };
    Ok(better(best, next))
}

/// Of the candidates that this round tries the first that meets all assumptions; else the first that
/// breaks one; else the first.
pub(crate) fn judge(
    alloc: Global,
    checked: &Checked,
    level: u32,
    satisfied: &Satisfied,
    round: u32,
    budget: &Budget,
) -> Result<Judged, NoMemory>
    requires level { level ≤ last_level (design_of checked.now) }
    requires flat { IsFlatGoal (design_of checked.now) satisfied.now.own.terms
        satisfied.now.own.applied satisfied.now.inputs }
    requires some { 1 ≤ budget.now.conflicts }
    requires few { budget.now.conflicts < 2 ^ 31 }
    ensures { IfOk result (IsJudged (design_of checked.now) level satisfied.now
        budget.now.conflicts) }
{
    let tries = Defaults::tries(round);
    let mut best = judge_one(alloc, checked, level, satisfied, tries[0], budget)?;
    for at in 1..tries.len() {
        if known_of(&best.met) == Known::Met {
            return Ok(best);
        }
        best = judge_next(alloc, checked, level, satisfied, tries[at], best, budget)?;
    }
    Ok(best)
}
