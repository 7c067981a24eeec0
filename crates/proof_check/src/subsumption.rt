//! Whether each step of a log brings a new clause: one that is not empty, and is not subsumed by a clause that is known
//! before it, whose literals it all has.
ghost use Rattle.std.specs.Prelude.{[], ◌<◌, ◌≡◌, ◌≤◌, ◌++◌, ◌↔◌, ◌∷◌, IfOk, IsTrue, length, map, Ok, OnOk, slice_index_or, true, ℕ};
ghost use Rattle.std.specs.List.{All};
ghost use Rattle.cnf_core.specs.Clauses.{literals};
ghost use Rattle.cnf_core.specs.Deriving.{EachDerived, IsProper};
ghost use Rattle.cnf_core.specs.Licensing.{BringsNew, subsumed_by, IsNew, Licensed};
ghost use Rattle.cnf_core.specs.Literals.{index_of, Names, variable};
ghost use Rattle.cnf_core.specs.Satisfying.{WellNamed};
ghost use Rattle.cnf_core.specs.Trails.{numbers};
ghost use Rattle.cnf_core.specs.TrailViews.{room, trues};
ghost use Rattle.proof_check.specs.Subsuming.{AllFilled, IsSubsumed, IsTop, RegistersAll, SubsumesFrom};
ghost use Rattle.proof_check.specs.Hinted.{AllNamed};
ghost use Rattle.proof_check.specs.KnownClauses.{clauses_of};
ghost use Rattle.proof_check.specs.Registering.{higher, Registers, top_of, tops_of};

use crate::chains::Chains;
use crate::known::Known;
use crate::step::{before, each_derived};
use cnf_core::{Clause, Cnf, Lit, Log, Step, Trail};
use cocoon_num::NoMemory;
use std::alloc::Global;

/// Whether every step is derived by its hints, and brings a new clause.
pub fn check_distinct(alloc: Global, cnf: &Cnf, log: &Log) -> Result<bool, NoMemory>
    requires { WellNamed cnf.now }
    ensures { IfOk result (λ answer.
        IsTrue answer ↔ Licensed cnf.now log.now (length log.now.steps)) }
{
    let steps = log.steps.items();
    if each_derived(alloc, cnf, steps)? {
        each_new(alloc, cnf, steps)
    } else {
        Ok(false)
    }
}

/// Whether each step brings a new clause.
fn each_new(alloc: Global, cnf: &Cnf, steps: &[Step]) -> Result<bool, NoMemory>
    requires named { WellNamed cnf.now }
    requires derived { EachDerived cnf.now steps.now }
    ensures { IfOk result (λ answer. IsTrue answer
        ↔ ((k : ℕ) → k < length steps.now → BringsNew cnf.now steps.now k)) }
{
    let mut chains = Chains::new(alloc, cnf.vars)?;
    let mut trail = Trail::new(alloc, cnf.vars)?;
    each_registered(&mut trail, &mut chains, cnf, steps)
}

/// The same, on a trail on which nothing is true, where no clause is registered.
fn each_registered(
    trail: &mut Trail,
    chains: &mut Chains,
    cnf: &Cnf,
    steps: &[Step],
) -> Result<bool, NoMemory>
    requires named { WellNamed cnf.now }
    requires derived { EachDerived cnf.now steps.now }
    requires empty { trues trail.old ≡ [] }
    requires room { room trail.old ≡ cnf.now.vars }
    requires none { Registers cnf.now.vars [] chains.old }
    ensures { IfOk result (λ answer. IsTrue answer
        ↔ ((k : ℕ) → k < length steps.now → BringsNew cnf.now steps.now k)) }
{
    if register(chains, cnf.vars, cnf.clauses.items())? {
        each_beside(trail, chains, cnf, steps)
    } else {
        Ok(steps.is_empty())
    }
}

/// The same, where the clauses that are given are registered and none of them is empty.
fn each_beside(
    trail: &mut Trail,
    chains: &mut Chains,
    cnf: &Cnf,
    steps: &[Step],
) -> Result<bool, NoMemory>
    requires named { WellNamed cnf.now }
    requires derived { EachDerived cnf.now steps.now }
    requires empty { trues trail.old ≡ [] }
    requires room { room trail.old ≡ cnf.now.vars }
    requires registered { Registers cnf.now.vars
        (tops_of (map literals cnf.now.clauses)) chains.old }
    requires filled { AllFilled (map literals cnf.now.clauses) }
    ensures { IfOk result (λ answer. IsTrue answer
        ↔ ((k : ℕ) → k < length steps.now → BringsNew cnf.now steps.now k)) }
{
    for (index, step) in steps.iter().enumerate() {
        let known = Known {
            cnf,
            so_far: before(steps, index),
        };
        if !brings_new(trail, chains, &known, &step.clause)? {
            return Ok(false);
        }
    }
    Ok(true)
}

/// Registers the clauses that are given, if none is empty.
fn register(chains: &mut Chains, vars: u32, clauses: &[Clause]) -> Result<bool, NoMemory>
    requires named { AllNamed vars (map literals clauses.now) }
    requires none { Registers vars [] chains.old }
    ensures { IfOk result (λ answer.
        RegistersAll vars (map literals clauses.now) chains.new answer) }
{
    for clause in clauses {
        match top_literal(clause) {
            Some(top) => chains.add(top)?,
            None => return Ok(false),
        }
    }
    Ok(true)
}

/// The literal of the clause that has the highest variable.
fn top_literal(clause: &Clause) -> Option<Lit>
    ensures { IsTop (literals clause.now) result }
{
    let lits = clause.lits.items();
    match lits.first() {
        Some(first) => Some(highest(*first, lits)),
        None => None,
    }
}

/// Of a literal and more the one that has the highest variable.
fn highest(first: Lit, lits: &[Lit]) -> Lit
    ensures { result.number ≡ top_of first.number (numbers lits.now) }
{
    let mut top = first;
    for lit in lits {
        top = higher(top, *lit);
    }
    top
}

/// Of two literals the one that has the higher variable.
fn higher(lit: Lit, other: Lit) -> Lit
    ensures { result.number ≡ higher lit.number other.number }
{
    if lit.variable() < other.variable() {
        other
    } else {
        lit
    }
}

/// Whether the clause is new; then it is registered.
fn brings_new(
    trail: &mut Trail,
    chains: &mut Chains,
    known: &Known,
    clause: &Clause,
) -> Result<bool, NoMemory>
    requires empty { trues trail.old ≡ [] }
    requires named { AllNamed (room trail.old) (clauses_of known.now) }
    requires proper { IsProper (room trail.old) (literals clause.now) }
    requires registered { Registers (room trail.old) (tops_of (clauses_of known.now)) chains.old }
    requires filled { AllFilled (clauses_of known.now) }
    ensures exact { IfOk result (λ answer.
        IsTrue answer ↔ IsNew (clauses_of known.now) (literals clause.now)) }
    ensures registered { result ≡ Ok true → Registers (room trail.old)
        (tops_of (clauses_of known.now ++ literals clause.now ∷ [])) chains.new }
    ensures empty { OnOk result (trues trail.new ≡ []) }
    ensures room { room trail.new ≡ room trail.old }
{
    match top_literal(clause) {
        Some(top) => {
            let is_old = is_subsumed(trail, chains, known, clause)?;
            chains.add(top)?;
            Ok(!is_old)
        }
        None => Ok(false),
    }
}

/// Whether a known clause has no literals but those of the clause.
fn is_subsumed(
    trail: &mut Trail,
    chains: &Chains,
    known: &Known,
    clause: &Clause,
) -> Result<bool, NoMemory>
    requires empty { trues trail.old ≡ [] }
    requires named { AllNamed (room trail.old) (clauses_of known.now) }
    requires proper { IsProper (room trail.old) (literals clause.now) }
    requires registered { Registers (room trail.old) (tops_of (clauses_of known.now)) chains.now }
    requires filled { AllFilled (clauses_of known.now) }
    ensures exact { IfOk result (λ answer.
        IsSubsumed (clauses_of known.now) (literals clause.now) answer) }
    ensures empty { OnOk result (trues trail.new ≡ []) }
    ensures room { room trail.new ≡ room trail.old }
{
    make_true(trail, clause)?;
    let answer = any_subsumes(trail, chains, known, clause);
    trail.truncate(0);
    Ok(answer)
}

/// Makes the literals of a clause true.
fn make_true(trail: &mut Trail, clause: &Clause) -> Result<(), NoMemory>
    requires empty { trues trail.old ≡ [] }
    requires proper { IsProper (room trail.old) (literals clause.now) }
    ensures trues { OnOk result (trues trail.new ≡ literals clause.now) }
    ensures room { room trail.new ≡ room trail.old }
{
    for lit in clause.lits.items() {
        trail.push(*lit)?;
    }
    Ok(())
}

/// Whether a known clause has no literals but those of the clause, which are those that are true.
fn any_subsumes(trail: &Trail, chains: &Chains, known: &Known, clause: &Clause) -> bool
    requires trues { trues trail.now ≡ literals clause.now }
    requires named { AllNamed (room trail.now) (clauses_of known.now) }
    requires registered { Registers (room trail.now) (tops_of (clauses_of known.now)) chains.now }
    requires filled { AllFilled (clauses_of known.now) }
    ensures { IsSubsumed (clauses_of known.now) (literals clause.now) result }
{
    for lit in clause.lits.items() {
        if subsumes_from(trail, chains, known, *lit) {
            return true;
        }
    }
    false
}

/// Whether a known clause with this top literal has no literals but those that are true.
fn subsumes_from(trail: &Trail, chains: &Chains, known: &Known, top: Lit) -> bool
    requires within { variable top.number ≤ room trail.now }
    requires named { AllNamed (room trail.now) (clauses_of known.now) }
    requires registered { Registers (room trail.now) (tops_of (clauses_of known.now)) chains.now }
    ensures { SubsumesFrom (clauses_of known.now) (trues trail.now) (index_of top.number) result }
{
    let mut after = chains.last(top);
    while after > 0 {
        let number = after - 1;
        if subsumes(trail, known, number) {
            return true;
        }
        after = chains.before(number);
    }
    false
}

/// Whether the clause of this number has no literals but those that are true.
fn subsumes(trail: &Trail, known: &Known, number: usize) -> bool
    requires named { AllNamed (room trail.now) (clauses_of known.now) }
    requires within { number < length (clauses_of known.now) }
    ensures { result
        ≡ subsumed_by (trues trail.now) (slice_index_or (clauses_of known.now) number []) }
{
    match known.clause(number) {
        Some(clause) => are_true(trail, clause),
        None => false,
    }
}

fn are_true(trail: &Trail, clause: &Clause) -> bool
    requires { All (Names (room trail.now)) (literals clause.now) }
    ensures { result ≡ subsumed_by (trues trail.now) (literals clause.now) }
{
    for lit in clause.lits.items() {
        if !trail.is_true(*lit) {
            return false;
        }
    }
    true
}
