//! One query of the formula, and the search for its answer.
ghost use Rattle.std.specs.Prelude.{◌≡◌, ◌≤◌, ◌<◌, ◌^◌, IfOk, length};
ghost use Rattle.cocoon_syntax.specs.TreeOf.{design_of};
ghost use Rattle.cocoon_types.specs.Design.{last_level};
ghost use Rattle.bv_terms.specs.Arenas.{term_at};
ghost use Rattle.query_laws.specs.LeafTerms.{Stands};
ghost use Rattle.query_laws.specs.Certified.{AllFit};
ghost use Rattle.rounds.specs.Steps.{IsSearched, Refuses, Says};

use bit_blast::laws::{clauses_mean_the_goal, satisfying_is_making_hold};
use bit_blast::{BlastFault, InputMap, blast};
use bv_terms::{TermId, Terms};
use cdcl::{Answer, solve};
use cnf_core::{Assignment, Instance, Log};
use cocoon_num::NoMemory;
use cocoon_resolve::Checked;
use queries::{OwnGoal, query};
use query_laws::laws::{queries_are_goals, refuted_formulas_are_never_true};
use query_laws::search_laws::asked_goals_apply_declared_functions;
use sound_types::laws::code_literals_fit;
use std::alloc::Global;

/// A query with an assignment that satisfies its clauses.
#[derive(Drop)]
pub(crate) struct Satisfied {
    pub(crate) own: OwnGoal,
    pub(crate) inputs: InputMap,
    pub(crate) assignment: Assignment,
}

/// What a search says of a query.
#[derive(Drop)]
pub(crate) enum Searched {
    /// This derives the empty clause from its clauses.
    Refuted(Log),
    Satisfied(Satisfied),
    /// The conflicts are spent: how many variables it has, and the clauses that were learned.
    Spent(u32, Log),
    /// It has so many clauses, more than 4,000,000.
    Big(u64),
}

/// What a search with so many conflicts says of the query of the formula with these instances.
pub(crate) fn ask(
    alloc: Global,
    checked: &Checked,
    terms: &Terms,
    level: u32,
    formula: TermId,
    instances: &[Instance],
    conflicts: u64,
) -> Result<Searched, NoMemory>
    requires level { level ≤ last_level (design_of checked.now) }
    requires there { formula < length terms.now }
    requires stands { Stands (design_of checked.now) 1 (term_at terms.now formula) }
    requires fit { AllFit (design_of checked.now) level instances.now }
    requires few { conflicts < 2 ^ 31 }
    ensures { IfOk result (Says (design_of checked.now) level (term_at terms.now formula)
        instances.now conflicts) }
{
    asked_goals_apply_declared_functions();
    clauses_mean_the_goal();
    queries_are_goals();
    satisfying_is_making_hold();
    refuted_formulas_are_never_true();
    code_literals_fit();
    let _design = checked.design();
    let own = query(alloc, checked, terms, level, formula, instances)?;
    let _count = own.terms.count();
    let (cnf, inputs) = match blast(alloc, &own.terms, own.goal) {
        Ok(made) => made,
        Err(fault) => return refused(fault),
    };
    let answer = solve(alloc, &cnf, conflicts)?;
    Ok(said_by(own, inputs, cnf.vars, answer))
}

/// What is said where the query has no list of clauses.
fn refused(fault: BlastFault) -> Result<Searched, NoMemory>
    ensures { IfOk result (Refuses fault) }
{
    match fault {
        BlastFault::Clauses(count) => Ok(Searched::Big(count)),
        BlastFault::NoMemory => Err(NoMemory),
    }
}

/// What the answer of the search over so many variables says.
fn said_by(own: OwnGoal, inputs: InputMap, vars: u32, answer: Answer) -> Searched
    ensures { IsSearched own inputs vars answer result }
{
    match answer {
        Answer::Satisfied(assignment) => Searched::Satisfied(Satisfied {
            own,
            inputs,
            assignment,
        }),
        Answer::Unsat(log) => Searched::Refuted(log),
        Answer::Spent(log) => Searched::Spent(vars, log),
    }
}
