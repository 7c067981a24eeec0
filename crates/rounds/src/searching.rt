//! The search, round by round.
ghost use Rattle.std.specs.Prelude.{◌≡◌, ◌≤◌, ◌<◌, ◌^◌, IfOk, length, map, take};
ghost use Rattle.cocoon_syntax.specs.TreeOf.{design_of};
ghost use Rattle.cocoon_types.specs.Design.{last_level};
ghost use Rattle.bv_terms.specs.Arenas.{inputs_in, term_at};
ghost use Rattle.cnf_core.specs.Satisfying.{makes_true};
ghost use Rattle.cocoon_num.specs.BitsOf.{value_of};
ghost use Rattle.candidates.specs.Assigned.{row_value};
ghost use Rattle.query_laws.specs.Rounds.{IsWithin, of_goal};
ghost use Rattle.query_laws.specs.LeafTerms.{Stands};
ghost use Rattle.rounds.specs.Outcomes.{Tells};
ghost use Rattle.rounds.specs.Steps.{CanBeTrue, ComesTo, IsFoundBy, IsSolved};

use crate::asking::{Satisfied, Searched, ask};
use crate::breaking::broken;
use crate::guessing::guess;
use crate::judging::{Judged, judge};
use crate::outcome::{Outcome, Query, Witness};
use bv_terms::{TermId, Terms};
use candidates::environment;
use cnf_core::{Cert, Instance};
use cocoon_num::{Bits, List, NoMemory};
use cocoon_resolve::Checked;
use discharge::{Budget, Met};
use query_laws::instance_laws::earlier_levels_come_first;
use query_laws::search_laws::{
    broken_assumptions_are_false_instances, broken_instances_keep_progress,
};
use runtime_defs::Defs;
use sound_types::laws::code_literals_fit;
use std::alloc::Global;

/// In a query with so many instances most parts say of two applications that they agree.
const SHORT_FROM: usize = 16;

/// A search with a shorter goal is given up after so many conflicts.
const SHORT_CONFLICTS: u64 = 1_000;

/// What one round comes to.
#[derive(Drop)]
enum Round {
    /// It ends the search.
    Ended(Outcome),
    /// A candidate with these instances breaks this one, and the inputs of the query had these values.
    Broken(Vec<Instance>, Instance, List<Bits>),
}

/// The values that the assignment gives the inputs of the formula: the first ones of its query.
fn values(alloc: Global, satisfied: &Satisfied) -> Result<Vec<Bits>, NoMemory>
    requires there { length satisfied.now.own.inputs ≤ length satisfied.now.inputs }
    requires few { length satisfied.now.inputs < 2 ^ 32 }
    ensures { IfOk result (λ values. map value_of values.items
        ≡ map (row_value (makes_true satisfied.now.assignment))
        (take (length satisfied.now.own.inputs) satisfied.now.inputs)) }
{
    let mut values = Vec::new(alloc);
    for input in 0..satisfied.own.inputs.items().len() as u32 {
        values.push(satisfied.inputs.read(&satisfied.assignment, input))?;
    }
    Ok(values)
}

/// The values that the assignment gives all inputs of the query.
fn all_values(alloc: Global, satisfied: &Satisfied) -> Result<List<Bits>, NoMemory>
    requires { length satisfied.now.inputs ≡ inputs_in satisfied.now.own.terms }
{
    let env = environment(
        alloc,
        &satisfied.own.terms,
        &satisfied.inputs,
        &satisfied.assignment,
    )?;
    Ok(env.inputs)
}

/// What a candidate with these instances says that meets all assumptions.
fn found(
    alloc: Global,
    satisfied: Satisfied,
    defs: Defs,
    instances: Vec<Instance>,
) -> Result<Outcome, NoMemory>
    requires there { length satisfied.own.inputs ≤ length satisfied.inputs }
    requires few { length satisfied.inputs < 2 ^ 32 }
    ensures { IfOk result (IsFoundBy satisfied defs instances.items) }
{
    let values = values(alloc, &satisfied)?;
    Ok(Outcome::Found(Witness {
        defs,
        instances: List::from(instances),
        inputs: satisfied.own.inputs,
        values: List::from(values),
    }))
}

/// What the round comes to in which the query with these instances is true at the values that an
/// assignment gives.
fn satisfied_round(
    alloc: Global,
    checked: &Checked,
    terms: &Terms,
    level: u32,
    formula: TermId,
    budget: &Budget,
    satisfied: Satisfied,
    instances: Vec<Instance>,
) -> Result<Round, NoMemory>
    requires level { level ≤ last_level (design_of checked.now) }
    requires solved { IsSolved (design_of checked.now) level (term_at terms.now formula)
        instances.items satisfied }
    requires within { IsWithin (design_of checked.now) level (term_at terms.now formula)
        budget.now.rounds (of_goal instances.items) }
    requires some { 1 ≤ budget.now.conflicts }
    requires few { budget.now.conflicts < 2 ^ 31 }
    ensures { IfOk result (ComesTo (design_of checked.now) level (term_at terms.now formula)
        budget.now.conflicts budget.now.rounds instances.items) }
{
    broken_assumptions_are_false_instances();
    broken_instances_keep_progress();
    earlier_levels_come_first();
    code_literals_fit();
    let _design = checked.design();
    let _rounds = budget.rounds;
    let _count = satisfied.own.terms.count();
    let round = instances.len() as u32;
    let Judged { defs, met } = judge(alloc, checked, level, &satisfied, round, budget)?;
    match met {
        Met::Yes => Ok(Round::Ended(found(alloc, satisfied, defs, instances)?)),
        Met::Broken(number, values) => {
            let instance = broken(alloc, checked, number, values)?;
            let values = all_values(alloc, &satisfied)?;
            Ok(Round::Broken(instances, instance, values))
        }
        Met::SpentConflicts(number, vars, log) => {
            let query = Query::Assumption(number, defs, List::from(instances));
            Ok(Round::Ended(Outcome::SpentConflicts(query, vars, log)))
        }
        Met::Big(number, count) => {
            let query = Query::Assumption(number, defs, List::from(instances));
            Ok(Round::Ended(Outcome::Big(query, count)))
        }
    }
}

/// What the round with these instances comes to, in which the query is searched as a whole.
fn one_round(
    alloc: Global,
    checked: &Checked,
    terms: &Terms,
    level: u32,
    formula: TermId,
    budget: &Budget,
    instances: Vec<Instance>,
) -> Result<Round, NoMemory>
    requires level { level ≤ last_level (design_of checked.now) }
    requires there { formula < length terms.now }
    requires stands { Stands (design_of checked.now) 1 (term_at terms.now formula) }
    requires within { IsWithin (design_of checked.now) level (term_at terms.now formula)
        budget.now.rounds (of_goal instances.items) }
    requires some { 1 ≤ budget.now.conflicts }
    requires few { budget.now.conflicts < 2 ^ 31 }
    ensures comes { IfOk result (ComesTo (design_of checked.now) level (term_at terms.now formula)
        budget.now.conflicts budget.now.rounds instances.items) }
    ensures satisfiable { IfOk result (CanBeTrue (design_of checked.now) level
        (term_at terms.now formula) instances.items) }
{
    let conflicts = budget.conflicts;
    match ask(alloc, checked, terms, level, formula, &instances, conflicts)? {
        Searched::Satisfied(satisfied) => satisfied_round(
            alloc, checked, terms, level, formula, budget, satisfied, instances,
        ),
        Searched::Refuted(log) => {
            let instances = List::from(instances);
            Ok(Round::Ended(Outcome::Holds(Cert { instances, log })))
        }
        Searched::Spent(vars, log) => {
            let query = Query::Goal(List::from(instances));
            Ok(Round::Ended(Outcome::SpentConflicts(query, vars, log)))
        }
        Searched::Big(count) => {
            let query = Query::Goal(List::from(instances));
            Ok(Round::Ended(Outcome::Big(query, count)))
        }
    }
}

/// What a round comes to that others may follow. From `SHORT_FROM` instances on an assignment is looked
/// for with shorter goals first, and near these values, which the inputs had in the round before.
fn next_round(
    alloc: Global,
    checked: &Checked,
    terms: &Terms,
    level: u32,
    formula: TermId,
    budget: &Budget,
    instances: Vec<Instance>,
    values: &[Bits],
) -> Result<Round, NoMemory>
    requires level { level ≤ last_level (design_of checked.now) }
    requires there { formula < length terms.now }
    requires stands { Stands (design_of checked.now) 1 (term_at terms.now formula) }
    requires within { IsWithin (design_of checked.now) level (term_at terms.now formula)
        budget.now.rounds (of_goal instances.items) }
    requires some { 1 ≤ budget.now.conflicts }
    requires few { budget.now.conflicts < 2 ^ 31 }
    ensures { IfOk result (ComesTo (design_of checked.now) level (term_at terms.now formula)
        budget.now.conflicts budget.now.rounds instances.items) }
{
    if instances.len() < SHORT_FROM {
        return one_round(alloc, checked, terms, level, formula, budget, instances);
    }
    let conflicts = budget.conflicts.min(SHORT_CONFLICTS);
    let found = guess(
        alloc, checked, terms, level, formula, &instances, values, conflicts,
    )?;
    match found {
        Some(satisfied) => satisfied_round(
            alloc, checked, terms, level, formula, budget, satisfied, instances,
        ),
        None => one_round(alloc, checked, terms, level, formula, budget, instances),
    }
}

/// Whether a formula of this level is never true: a search in rounds, each of which but the last adds
/// an instance of an assumption. After as many as the budget has, the query is searched once more.
/// The arena holds the formula; each query stands in an arena of its own, and is counted before its
/// clauses are made.
pub fn search(
    alloc: Global,
    checked: &Checked,
    terms: &Terms,
    level: u32,
    formula: TermId,
    budget: &Budget,
) -> Result<Outcome, NoMemory>
    requires level { level ≤ last_level (design_of checked.now) }
    requires there { formula < length terms.now }
    requires stands { Stands (design_of checked.now) 1 (term_at terms.now formula) }
    requires some { 1 ≤ budget.now.conflicts }
    requires few { budget.now.conflicts < 2 ^ 31 }
    ensures { IfOk result (Tells (design_of checked.now) level (term_at terms.now formula)
        budget.now.conflicts budget.now.rounds) }
{
    broken_instances_keep_progress();
    let mut instances = Vec::new(alloc);
    let mut values = List::from(Vec::new(alloc));
    for _ in 0..budget.rounds {
        let known = values.items();
        match next_round(
            alloc, checked, terms, level, formula, budget, instances, known,
        )? {
            Round::Ended(outcome) => return Ok(outcome),
            Round::Broken(mut so_far, instance, found) => {
                so_far.push(instance)?;
                instances = so_far;
                values = found;
            }
        }
    }
    match one_round(alloc, checked, terms, level, formula, budget, instances)? {
        Round::Ended(outcome) => Ok(outcome),
        Round::Broken(instances, _, _) => Ok(Outcome::SpentRounds(List::from(instances))),
    }
}
