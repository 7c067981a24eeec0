//! Whether each step of a log follows from what is known before it.
ghost use Rattle.std.specs.Prelude.{[], ◌≡◌, ◌↔◌, ◌≤◌, IfOk, IsTrue, length, map, Ok, take, true};
ghost use Rattle.cnf_core.specs.Deriving.{Derives, EachDerived, EndsEmpty, Follows, has_no_value, IsProper, Refutes};
ghost use Rattle.cnf_core.specs.Clauses.{literals};
ghost use Rattle.cnf_core.specs.Literals.{opposite, variable};
ghost use Rattle.cnf_core.specs.Satisfying.{WellNamed};
ghost use Rattle.cnf_core.specs.TrailViews.{room, trues};
ghost use Rattle.proof_check.specs.Hinted.{AllNamed, HintHasStatus};
ghost use Rattle.proof_check.specs.KnownClauses.{clauses_of};

use crate::known::Known;
use cnf_core::{Clause, ClauseStatus, Cnf, Lit, Log, Step, Trail};
use cocoon_num::NoMemory;
use std::alloc::Global;

/// Whether every step is derived by its hints and the last clause is empty.
pub fn check_log(alloc: Global, cnf: &Cnf, log: &Log) -> Result<bool, NoMemory>
    requires { WellNamed cnf.now }
    ensures { IfOk result (λ answer. IsTrue answer ↔ Derives cnf.now log.now) }
{
    let steps = log.steps.items();
    if ends_empty(steps) {
        each_derived(alloc, cnf, steps)
    } else {
        Ok(false)
    }
}

fn ends_empty(steps: &[Step]) -> bool
    ensures { IsTrue result ↔ EndsEmpty steps.now }
{
    match steps.last() {
        Some(step) => step.clause.lits.items().is_empty(),
        None => false,
    }
}

/// Whether every step is derived by its hints.
pub(crate) fn each_derived(alloc: Global, cnf: &Cnf, steps: &[Step]) -> Result<bool, NoMemory>
    requires { WellNamed cnf.now }
    ensures { IfOk result (λ answer. IsTrue answer ↔ EachDerived cnf.now steps.now) }
{
    let mut trail = Trail::new(alloc, cnf.vars)?;
    each_follows(&mut trail, cnf, steps)
}

/// The same, on a trail on which nothing is true.
fn each_follows(trail: &mut Trail, cnf: &Cnf, steps: &[Step]) -> Result<bool, NoMemory>
    requires named { WellNamed cnf.now }
    requires empty { trues trail.old ≡ [] }
    requires room { room trail.old ≡ cnf.now.vars }
    ensures { IfOk result (λ answer. IsTrue answer ↔ EachDerived cnf.now steps.now) }
{
    for (index, step) in steps.iter().enumerate() {
        let known = Known {
            cnf,
            so_far: before(steps, index),
        };
        if !follows(trail, &known, step)? {
            return Ok(false);
        }
    }
    Ok(true)
}

/// The steps before the one of this index.
pub(crate) fn before(steps: &[Step], index: usize) -> &[Step]
    requires { index ≤ length steps.now }
    ensures { result.now ≡ take index steps.now }
{
    &steps[..index]
}

/// Whether the step's clause follows from the clauses that are known, by the step's hints.
fn follows(trail: &mut Trail, known: &Known, step: &Step) -> Result<bool, NoMemory>
    requires empty { trues trail.old ≡ [] }
    requires named { AllNamed (room trail.old) (clauses_of known.now) }
    ensures exact { IfOk result (λ answer. IsTrue answer ↔ Follows (room trail.old)
        (clauses_of known.now) (literals step.now.clause) step.now.hints) }
    ensures empty { trues trail.new ≡ [] }
    ensures room { room trail.new ≡ room trail.old }
{
    let answer = is_refuted(trail, known, step);
    trail.truncate(0);
    answer
}

fn is_refuted(trail: &mut Trail, known: &Known, step: &Step) -> Result<bool, NoMemory>
    requires empty { trues trail.old ≡ [] }
    requires named { AllNamed (room trail.old) (clauses_of known.now) }
    ensures exact { IfOk result (λ answer. IsTrue answer ↔ Follows (room trail.old)
        (clauses_of known.now) (literals step.now.clause) step.now.hints) }
    ensures room { room trail.new ≡ room trail.old }
{
    if make_false(trail, &step.clause)? {
        propagates(trail, known, step.hints.items())
    } else {
        Ok(false)
    }
}

/// Makes all literals of a clause false, if it names no variable twice and none that is not there.
fn make_false(trail: &mut Trail, clause: &Clause) -> Result<bool, NoMemory>
    requires { trues trail.old ≡ [] }
    ensures proper { IfOk result (λ answer.
        IsTrue answer ↔ IsProper (room trail.old) (literals clause.now)) }
    ensures trues { result ≡ Ok true → trues trail.new ≡ map opposite (literals clause.now) }
    ensures room { room trail.new ≡ room trail.old }
{
    for lit in clause.lits.items() {
        if !is_free(trail, *lit) {
            return Ok(false);
        }
        trail.push(lit.opposite())?;
    }
    Ok(true)
}

/// Whether the literal names a variable that has no value yet.
fn is_free(trail: &Trail, lit: Lit) -> bool
    ensures { IsTrue result ↔ ((variable lit.number ≤ room trail.now)
        × IsTrue (has_no_value (trues trail.now) lit.number)) }
{
    if lit.variable() > trail.vars() {
        return false;
    }
    !trail.has_value(lit)
}

/// Whether the hinted clauses, taken in order, each force a literal, and the last one is the conflict.
fn propagates(trail: &mut Trail, known: &Known, hints: &[u32]) -> Result<bool, NoMemory>
    requires named { AllNamed (room trail.old) (clauses_of known.now) }
    ensures exact { IfOk result (λ answer. IsTrue answer
        ↔ Refutes (clauses_of known.now) (trues trail.old) hints.now) }
    ensures room { room trail.new ≡ room trail.old }
{
    for (index, hint) in hints.iter().enumerate() {
        match status(trail, known, *hint) {
            ClauseStatus::Conflict => return Ok(index + 1 == hints.len()),
            ClauseStatus::Open => return Ok(false),
            ClauseStatus::Forces(lit) => trail.push(lit)?,
        }
    }
    Ok(false)
}

/// The status of the hinted clause under the literals that are true; none is as good as one that is open.
fn status(trail: &Trail, known: &Known, hint: u32) -> ClauseStatus
    requires { AllNamed (room trail.now) (clauses_of known.now) }
    ensures { HintHasStatus (room trail.now) (clauses_of known.now) (trues trail.now) hint result }
{
    match known.clause(hint as usize) {
        Some(clause) => trail.status(clause),
        None => ClauseStatus::Open,
    }
}
