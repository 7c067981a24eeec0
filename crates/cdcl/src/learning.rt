//! From a conflict to the clause that is learned.
ghost use Rattle.std.specs.Prelude.{[], ◌≡◌, ◌≤◌, ◌<◌, ◌+◌, ◌-◌, ◌^◌, ◌++◌, false, IfOk, IsTrue, length, map, OnOk, slice_get, Some, ℕ};
ghost use Rattle.cocoon_num.specs.Lists.{has_number};
ghost use Rattle.cnf_core.specs.Clauses.{literals};
ghost use Rattle.cnf_core.specs.Literals.{opposite};
ghost use Rattle.cnf_core.specs.Satisfying.{WellNamed};
ghost use Rattle.cnf_core.specs.Trails.{literal_at, numbers};
ghost use Rattle.cnf_core.specs.TrailViews.{trues};
ghost use Rattle.cdcl.specs.Marks.{is_marked, marked_literals, opposite_at};
ghost use Rattle.cdcl.specs.Searching.{HasReason, IsConflictAt};
ghost use Rattle.cdcl.specs.States.{clauses_of, IsReady, IsSound};
ghost use Rattle.cdcl.specs.Analyses.{IsSameBut};
ghost use Rattle.cdcl.specs.Resolving.{Analyzed, IsLevel, IsResolved, MarksClause, MarksNumber, RefutesIn};

use crate::analysis::Analysis;
use crate::{Order, Pair, Search};
use cnf_core::{Clause, Cnf, Lit, Literals, Step};
use cocoon_num::NoMemory;
use std::alloc::Global;

/// Marks what a conflict follows from, until `keep` literals of the last level are left: one, the first unique
/// implication point, or none before any decision. The last level starts at `floor`.
pub(crate) fn analyze(
    search: &Search,
    alloc: Global,
    cnf: &Cnf,
    order: &mut Order,
    conflict: u32,
    floor: usize,
    keep: usize,
) -> Result<Analysis, NoMemory>
    requires sound { IsSound cnf.now search.now }
    requires named { WellNamed cnf.now }
    requires conflict { IsConflictAt (clauses_of cnf.now search.now) (trues search.now.trail)
        conflict }
    requires forced { (p : ℕ) → floor + keep ≤ p → p < length (trues search.now.trail)
        → has_number p search.now.starts.items ≡ false }
    requires level { IsLevel (clauses_of cnf.now search.now) (trues search.now.trail) floor keep }
    ensures { IfOk result (λ analysis. IsResolved (clauses_of cnf.now search.now)
        (trues search.now.trail) floor keep analysis) }
{
    let mut analysis = Analysis::new(alloc, search.trail.len(), floor)?;
    add_antecedent(search, cnf, order, &mut analysis, conflict)?;
    let mut top = search.trail.len();
    while keep < analysis.count {
        top -= 1;
        resolve(search, cnf, order, &mut analysis, top)?;
    }
    Ok(analysis)
}

/// Resolves with the clause of this number: marks what makes its literals false, and notes it as a hint.
fn add_antecedent(
    search: &Search,
    cnf: &Cnf,
    order: &mut Order,
    analysis: &mut Analysis,
    number: u32,
) -> Result<(), NoMemory>
    requires sound { IsSound cnf.now search.now }
    requires named { WellNamed cnf.now }
    requires sized { length analysis.old.marks.items ≡ length (trues search.now.trail) }
    requires within { number < length (clauses_of cnf.now search.now) }
    ensures { OnOk result (MarksClause (clauses_of cnf.now search.now) (trues search.now.trail)
        number analysis.old analysis.new) }
{
    mark_number(search, cnf, order, analysis, number as usize);
    analysis.hints.push(number)?;
    Ok(())
}

/// Marks what makes the literals of the clause of this number false.
fn mark_number(
    search: &Search,
    cnf: &Cnf,
    order: &mut Order,
    analysis: &mut Analysis,
    number: usize,
)
    requires sound { IsSound cnf.now search.now }
    requires named { WellNamed cnf.now }
    requires sized { length analysis.old.marks.items ≡ length (trues search.now.trail) }
    requires within { number < length (clauses_of cnf.now search.now) }
    ensures same { IsSameBut analysis.old analysis.new }
    ensures more { analysis.old.count ≤ analysis.new.count }
    ensures marks { MarksNumber (clauses_of cnf.now search.now) (trues search.now.trail) number
        analysis.old.marks.items analysis.new.marks.items }
{
    match search.clause(cnf, number) {
        Some(clause) => analysis.mark_clause(&search.trail, order, clause),
        None => (),
    }
}

/// The reason of the literal at this place.
fn reason(search: &Search, place: usize) -> Option<u32>
    requires { place < length search.now.reasons.items }
    ensures { slice_get search.now.reasons.items place ≡ Some result }
{
    search.reasons[place]
}

/// Resolves with the reason of the literal at this place, if it is marked: the mark goes to those that forced it.
fn resolve(
    search: &Search,
    cnf: &Cnf,
    order: &mut Order,
    analysis: &mut Analysis,
    place: usize,
) -> Result<(), NoMemory>
    requires sound { IsSound cnf.now search.now }
    requires named { WellNamed cnf.now }
    requires within { place < length (trues search.now.trail) }
    requires last { analysis.old.floor ≤ place }
    requires forced { HasReason (clauses_of cnf.now search.now) (trues search.now.trail)
        search.now.reasons.items place }
    requires before { Analyzed (clauses_of cnf.now search.now) (trues search.now.trail)
        (place + 1) analysis.old }
    ensures after { OnOk result (Analyzed (clauses_of cnf.now search.now)
        (trues search.now.trail) place analysis.new) }
    ensures floor { OnOk result (analysis.new.floor ≡ analysis.old.floor) }
    ensures count { OnOk result (analysis.old.count ≤ analysis.new.count + 1) }
{
    if !analysis.is_marked(place) {
        return Ok(());
    }
    analysis.unmark(place);
    match reason(search, place) {
        Some(number) => add_antecedent(search, cnf, order, analysis, number),
        None => Ok(()),
    }
}

/// The learned clause: one of the marked literals is false.
pub(crate) fn learned(
    search: &Search,
    alloc: Global,
    analysis: &Analysis,
) -> Result<Clause, NoMemory>
    requires { length analysis.now.marks.items ≡ length (trues search.now.trail) }
    ensures { IfOk result (λ clause. literals clause
        ≡ map opposite (marked_literals analysis.now.marks.items (trues search.now.trail))) }
{
    let mut lits = Vec::new(alloc);
    for place in 0..search.trail.len() {
        add_opposite(search, analysis, place, &mut lits)?;
    }
    Ok(Clause {
        lits: Literals::from(lits),
    })
}

/// Adds the opposite of the literal at this place, if it is marked.
fn add_opposite(
    search: &Search,
    analysis: &Analysis,
    place: usize,
    lits: &mut Vec<Lit>,
) -> Result<(), NoMemory>
    requires { place < length (trues search.now.trail) }
    ensures { OnOk result (numbers lits.new.items ≡ numbers lits.old.items
        ++ opposite_at analysis.now.marks.items (trues search.now.trail) place) }
{
    if !analysis.is_marked(place) {
        return Ok(());
    }
    lits.push(search.trail.literal(place).opposite())?;
    Ok(())
}

/// The literals that a learned clause watches: the opposites of the last literal that is marked and of the one before
/// it, if there are two. `second` is one more than the place of that one, or 0.
fn asserting_pair(search: &Search, analysis: &Analysis, second: usize) -> Pair
    requires sized { length analysis.now.marks.items ≡ length (trues search.now.trail) }
    requires one { analysis.now.count ≡ 1 }
    requires within { second ≤ length (trues search.now.trail) }
    ensures first { (p : ℕ) → analysis.now.floor ≤ p → p < length (trues search.now.trail)
        → IsTrue (is_marked analysis.now.marks.items p)
        → result.first.number ≡ opposite (literal_at (trues search.now.trail) p) }
    ensures second { (p : ℕ) → second ≡ p + 1
        → result.second.number ≡ opposite (literal_at (trues search.now.trail) p) }
    ensures alone { second ≡ 0 → result.second.number ≡ result.first.number }
{
    let end = analysis.last_before(search.trail.len());
    let first = opposite_before(search, end);
    if second == 0 {
        return Pair::twice(first);
    }
    let second = opposite_before(search, second);
    Pair::new(first, second, 0)
}

/// The opposite of the literal before this place.
fn opposite_before(search: &Search, end: usize) -> Lit
    requires some { 1 ≤ end }
    requires within { end ≤ length (trues search.now.trail) }
    ensures { result.number ≡ opposite (literal_at (trues search.now.trail) (end - 1)) }
{
    search.trail.literal(end - 1).opposite()
}

/// Learns the clause that a conflict shows, goes back to the first level at which it forces a literal, and makes that
/// literal true.
pub(crate) fn learn(
    search: &mut Search,
    alloc: Global,
    cnf: &Cnf,
    order: &mut Order,
    conflict: u32,
) -> Result<(), NoMemory>
    requires sound { IsSound cnf.now search.old }
    requires named { WellNamed cnf.now }
    requires ready { IsReady cnf.now search.old }
    requires numbered { length (clauses_of cnf.now search.old) < 2 ^ 32 }
    requires conflict { IsConflictAt (clauses_of cnf.now search.old) (trues search.old.trail)
        conflict }
    requires decided { 0 < length search.old.starts.items }
    ensures sound { OnOk result (IsSound cnf.now search.new) }
    ensures ready { OnOk result (IsReady cnf.now search.new) }
    ensures one { OnOk result
        (length search.new.steps.items ≡ length search.old.steps.items + 1) }
{
    let last = search.starts.len() - 1;
    let floor = search.starts[last];
    let analysis = analyze(search, alloc, cnf, order, conflict, floor, 1)?;
    let clause = learned(search, alloc, &analysis)?;
    let hints = analysis.hints(alloc)?;
    let second = analysis.last_before(floor);
    let pair = asserting_pair(search, &analysis, second);
    let level = search.backtrack_level(second);
    search.backtrack(cnf, order, level);
    search.add_step(cnf, Step { clause, hints }, pair)?;
    Ok(())
}

/// Adds the step of the empty clause, which a conflict before any decision shows.
pub(crate) fn refute(
    search: &mut Search,
    alloc: Global,
    cnf: &Cnf,
    order: &mut Order,
    conflict: u32,
) -> Result<(), NoMemory>
    requires sound { IsSound cnf.now search.old }
    requires named { WellNamed cnf.now }
    requires conflict { IsConflictAt (clauses_of cnf.now search.old) (trues search.old.trail)
        conflict }
    requires undecided { length search.old.starts.items ≡ 0 }
    ensures { OnOk result (RefutesIn cnf.now search.old.steps.items search.new.steps.items) }
{
    let analysis = analyze(search, alloc, cnf, order, conflict, 0, 0)?;
    let clause = learned(search, alloc, &analysis)?;
    let hints = analysis.hints(alloc)?;
    search.steps.push(Step { clause, hints })?;
    Ok(())
}
