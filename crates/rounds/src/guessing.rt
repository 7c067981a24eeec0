//! The search for an assignment with shorter goals, and the trial of what it finds.
ghost use Rattle.std.specs.Prelude.{◌≤◌, ◌<◌, ◌^◌, IfOk, IfSome, OnOk, length};
ghost use Rattle.cocoon_syntax.specs.TreeOf.{design_of};
ghost use Rattle.cocoon_types.specs.Design.{last_level};
ghost use Rattle.bv_terms.specs.Arenas.{KeepsTerms, term_at};
ghost use Rattle.query_laws.specs.LeafTerms.{Stands};
ghost use Rattle.query_laws.specs.Certified.{AllFit};
ghost use Rattle.rounds.specs.Short.{CanTry, IsMapped, IsPart, IsTrueOf};
ghost use Rattle.rounds.specs.Steps.{IsSolved};

use crate::asking::Satisfied;
use crate::goal_parts::{Which, parts_of};
use crate::holding::put_back_false;
use crate::pinning::pinned;
use crate::shortening::shortened;
use bit_blast::{BlastFault, InputMap, blast};
use bv_terms::{TermId, Terms};
use candidates::environment;
use cdcl::{Answer, solve};
use cnf_core::{Assignment, Instance};
use cocoon_num::{Bits, NoMemory};
use cocoon_resolve::Checked;
use queries::{OwnGoal, query};
use query_laws::laws::queries_are_goals;
use query_laws::search_laws::asked_goals_apply_declared_functions;
use sound_types::laws::code_literals_fit;
use std::alloc::Global;

/// So many searches at most are made with the values of the round before.
const SEARCHES: u32 = 8;

/// A query with an assignment, if its goal is true at the numbers that this gives the inputs.
fn tried(
    alloc: Global,
    own: OwnGoal,
    inputs: InputMap,
    assignment: Assignment,
) -> Result<Option<Satisfied>, NoMemory>
    requires { CanTry own inputs }
    ensures { IfOk result (λ found. IfSome found (IsTrueOf own inputs assignment)) }
{
    let _count = own.terms.count();
    let env = environment(alloc, &own.terms, &inputs, &assignment)?;
    let value = own.terms.eval(alloc, own.goal, &env)?;
    let holds = value.value == 1;
    if holds {
        Ok(Some(Satisfied {
            own,
            inputs,
            assignment,
        }))
    } else {
        Ok(None)
    }
}

/// An assignment that a search with so many conflicts finds for a goal of the arena, if it does.
fn assignment_of(
    alloc: Global,
    terms: &Terms,
    goal: TermId,
    conflicts: u64,
) -> Result<Option<(InputMap, Assignment)>, NoMemory>
    requires goal { IsPart terms.now goal }
    requires few { conflicts < 2 ^ 31 }
    ensures { IfOk result (λ found. IfSome found (λ f. IsMapped terms.now f.0)) }
{
    let (cnf, inputs) = match blast(alloc, terms, goal) {
        Ok(made) => made,
        Err(BlastFault::Clauses(_)) => return Ok(None),
        Err(BlastFault::NoMemory) => return Err(NoMemory),
    };
    match solve(alloc, &cnf, conflicts)? {
        Answer::Satisfied(assignment) => Ok(Some((inputs, assignment))),
        Answer::Unsat(_) | Answer::Spent(_) => Ok(None),
    }
}

/// An assignment with these values of the first inputs at which no part of the goal is false, if
/// `SEARCHES` searches find one. Each is for the parts that an assignment before made false, and for no
/// others.
fn near(
    alloc: Global,
    terms: &mut Terms,
    goal: TermId,
    values: &[Bits],
    conflicts: u64,
) -> Result<Option<(InputMap, Assignment)>, NoMemory>
    requires goal { IsPart terms.old goal }
    requires few { conflicts < 2 ^ 31 }
    ensures mapped { IfOk result (λ found. IfSome found (λ f. IsMapped terms.new f.0)) }
    ensures kept { OnOk result (KeepsTerms terms.old terms.new) }
{
    let mut left_out = parts_of(alloc, terms, goal, Which::All)?;
    let pins = pinned(terms, values)?;
    for _ in 0..SEARCHES {
        let short = shortened(terms, goal, &left_out, pins)?;
        let Some((inputs, assignment)) = assignment_of(alloc, terms, short, conflicts)? else {
            return Ok(None);
        };
        let _count = terms.count();
        let env = environment(alloc, terms, &inputs, &assignment)?;
        if !put_back_false(alloc, terms, goal, &env, &mut left_out)? {
            return Ok(Some((inputs, assignment)));
        }
    }
    Ok(None)
}

/// An assignment that is found without the idle parts of a goal.
fn without_idle(
    alloc: Global,
    terms: &mut Terms,
    goal: TermId,
    conflicts: u64,
) -> Result<Option<(InputMap, Assignment)>, NoMemory>
    requires goal { IsPart terms.old goal }
    requires few { conflicts < 2 ^ 31 }
    ensures mapped { IfOk result (λ found. IfSome found (λ f. IsMapped terms.new f.0)) }
    ensures kept { OnOk result (KeepsTerms terms.old terms.new) }
{
    let left_out = parts_of(alloc, terms, goal, Which::Idle)?;
    let none = terms.constant(Bits::new(1, 1))?;
    let short = shortened(terms, goal, &left_out, none)?;
    assignment_of(alloc, terms, short, conflicts)
}

/// An assignment that is found with shorter goals: with these values of the first inputs, else with any.
fn found_short(
    alloc: Global,
    terms: &mut Terms,
    goal: TermId,
    values: &[Bits],
    conflicts: u64,
) -> Result<Option<(InputMap, Assignment)>, NoMemory>
    requires goal { IsPart terms.old goal }
    requires few { conflicts < 2 ^ 31 }
    ensures mapped { IfOk result (λ found. IfSome found (λ f. IsMapped terms.new f.0)) }
    ensures kept { OnOk result (KeepsTerms terms.old terms.new) }
{
    match near(alloc, terms, goal, values, conflicts)? {
        Some(found) => Ok(Some(found)),
        None => without_idle(alloc, terms, goal, conflicts),
    }
}

/// An assignment at which the query of the formula with these instances is true, if searches with
/// shorter goals find one, each with so many conflicts. The values are those that the first inputs of the
/// query had in the round before: only what is new has to be found then. That none is found says nothing.
pub(crate) fn guess(
    alloc: Global,
    checked: &Checked,
    terms: &Terms,
    level: u32,
    formula: TermId,
    instances: &[Instance],
    values: &[Bits],
    conflicts: u64,
) -> Result<Option<Satisfied>, NoMemory>
    requires level { level ≤ last_level (design_of checked.now) }
    requires there { formula < length terms.now }
    requires stands { Stands (design_of checked.now) 1 (term_at terms.now formula) }
    requires fit { AllFit (design_of checked.now) level instances.now }
    requires few { conflicts < 2 ^ 31 }
    ensures { IfOk result (λ found. IfSome found (IsSolved (design_of checked.now) level
        (term_at terms.now formula) instances.now)) }
{
    asked_goals_apply_declared_functions();
    queries_are_goals();
    code_literals_fit();
    let _design = checked.design();
    let mut own = query(alloc, checked, terms, level, formula, instances)?;
    let goal = own.goal;
    match found_short(alloc, &mut own.terms, goal, values, conflicts)? {
        Some((inputs, assignment)) => tried(alloc, own, inputs, assignment),
        None => Ok(None),
    }
}
