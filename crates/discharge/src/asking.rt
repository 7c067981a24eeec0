//! The query of one assumption, and the search for its answer.
ghost use Rattle.std.specs.Prelude.{◌≡◌, ◌^◌, ◌<◌, ◌≤◌, All, IfOk, Some, length, map, slice_get};
ghost use Rattle.cnf_core.specs.Satisfying.{makes_true};
ghost use Rattle.cocoon_resolve.specs.Readers.{all_assumptions};
ghost use Rattle.cocoon_syntax.specs.TreeOf.{design_of};
ghost use Rattle.bit_blast.specs.Blasting.{InputRow};
ghost use Rattle.bit_blast.specs.Readings.{number_read};
ghost use Rattle.bv_terms.specs.Arenas.{inputs_in, term_at};
ghost use Rattle.bv_terms.specs.TermTrees.{not_};
ghost use Rattle.expr_terms.specs.Sizes.{AreSizes};
ghost use Rattle.expr_terms.specs.Variables.{Keeps, Makes};
ghost use Rattle.fun_instances.specs.Taking.{OfAssumption};
ghost use Rattle.runtime_defs.specs.Fitting.{FitsDesign};
ghost use Rattle.discharge.specs.Asked.{IsQuery, Refuses, Says};

use crate::laws::queries_decide_assumptions;
use crate::meeting::Met;
use bit_blast::{BlastFault, InputMap, blast};
use bv_terms::table_laws::rows_keep_values;
use bv_terms::{InputId, TermId, Terms, with_defs};
use cdcl::{Answer, solve};
use cnf_core::Assignment;
use cnf_core::laws::derived_clauses_have_no_model;
use cocoon_num::{List, NoMemory};
use cocoon_resolve::Checked;
use expr_terms::CallSizes;
use fun_instances::laws::{assumptions_have_width_1, inputs_stay};
use fun_instances::own_term;
use query_laws::applied_laws::{tables_take_the_place, terms_apply_declared_functions};
use runtime_defs::Defs;
use sound_types::laws::{code_literals_fit, declarations_are_typed};
use std::alloc::Global;

/// A goal in an arena of its own.
#[derive(Drop)]
pub(crate) struct Query {
    pub terms: Terms,
    pub goal: TermId,
}

/// The term that is true where this one is not.
fn negation(terms: &mut Terms, term: TermId) -> Result<TermId, NoMemory>
    requires { term < length terms.old }
    ensures made { IfOk result (λ id. Makes terms.new id (not_ (term_at terms.old term))) }
    ensures kept { Keeps terms.old terms.new }
{
    terms.not(term)
}

/// That the assumption of this number is not true under the definitions, where its parameters are inputs.
pub(crate) fn assumption_query(
    alloc: Global,
    checked: &Checked,
    sizes: &CallSizes,
    defs: &Defs,
    number: u32,
) -> Result<Query, NoMemory>
    requires of { FitsDesign (design_of checked.now) defs.now }
    requires sizes { AreSizes (design_of checked.now) sizes.now }
    requires number { number < length (all_assumptions (design_of checked.now)) }
    ensures { OfAssumption (design_of checked.now) number (λ a.
        IfOk result (λ query. IsQuery (design_of checked.now) a defs.now query)) }
{
    terms_apply_declared_functions();
    tables_take_the_place();
    rows_keep_values();
    assumptions_have_width_1();
    declarations_are_typed();
    code_literals_fit();
    inputs_stay();
    let _design = checked.design();
    let _assumed = checked.assumption(number);
    let mut terms = Terms::new(alloc);
    let term = own_term(alloc, checked, sizes, number, &mut terms)?;
    let negated = negation(&mut terms, term)?;
    let goal = with_defs(alloc, negated, defs.tables(), &mut terms)?;
    prove!(goal < terms.count());
    Ok(Query { terms, goal })
}

/// The value of an input.
fn value(inputs: &InputMap, assignment: &Assignment, input: InputId) -> u64
    requires there { input < length inputs.now }
    requires narrow { All (λ (row : InputRow). row.width ≤ 64) inputs.now }
    ensures { (row : InputRow) → slice_get inputs.now input ≡ Some row
        → result ≡ number_read (makes_true assignment.now) row.bits }
{
    inputs.read(assignment, input).value as u64
}

/// The values of all inputs of the arena.
fn values(
    alloc: Global,
    terms: &Terms,
    inputs: &InputMap,
    assignment: &Assignment,
) -> Result<Vec<u64>, NoMemory>
    requires mapped { length inputs.now ≡ inputs_in terms.now }
    requires narrow { All (λ (row : InputRow). row.width ≤ 64) inputs.now }
    ensures { IfOk result (λ values. values.items
        ≡ map (λ (row : InputRow). number_read (makes_true assignment.now) row.bits) inputs.now) }
{
    let mut values = Vec::new(alloc);
    for input in 0..terms.input_count() {
        values.push(value(inputs, assignment, input))?;
    }
    Ok(values)
}

/// What is said of the assumption of this number, if its query has no list of clauses.
fn refused(number: u32, fault: BlastFault) -> Result<Met, NoMemory>
    ensures { IfOk result (λ met. Refuses number fault met) }
{
    match fault {
        BlastFault::Clauses(count) => Ok(Met::Big(number, count)),
        BlastFault::NoMemory => Err(NoMemory),
    }
}

/// What a search with so many conflicts says of the assumption of this number, by its query.
pub(crate) fn search(
    alloc: Global,
    checked: &Checked,
    defs: &Defs,
    query: &Query,
    number: u32,
    conflicts: u64,
) -> Result<Met, NoMemory>
    requires of { FitsDesign (design_of checked.now) defs.now }
    requires query { OfAssumption (design_of checked.now) number
        (λ a. IsQuery (design_of checked.now) a defs.now query.now) }
    requires number { number < length (all_assumptions (design_of checked.now)) }
    requires few { conflicts < 2 ^ 31 }
    ensures { OfAssumption (design_of checked.now) number (λ a. IfOk result (λ met.
        Says (design_of checked.now) defs.now conflicts number a met)) }
{
    queries_decide_assumptions();
    derived_clauses_have_no_model();
    code_literals_fit();
    let _design = checked.design();
    let (cnf, map) = match blast(alloc, &query.terms, query.goal) {
        Ok(made) => made,
        Err(fault) => return refused(number, fault),
    };
    match solve(alloc, &cnf, conflicts)? {
        Answer::Satisfied(assignment) => {
            let values = values(alloc, &query.terms, &map, &assignment)?;
            Ok(Met::Broken(number, List::from(values)))
        }
        Answer::Unsat(_) => Ok(Met::Yes),
        Answer::Spent(log) => Ok(Met::SpentConflicts(number, cnf.vars, log)),
    }
}
