//! Whether an obligation of a design holds.
ghost use Rattle.std.specs.Prelude.{◌^◌, ◌<◌, ◌≤◌, IfOk};
ghost use Rattle.bv_terms.specs.Arenas.{term_at};
ghost use Rattle.query_laws.specs.Candidates.{MakeTrue};
ghost use Rattle.cocoon_syntax.specs.TreeOf.{design_of};
ghost use Rattle.failure_reading.specs.Witnesses.{OthersAreZero};
ghost use Rattle.failures.specs.Found.{CanFail};
ghost use Rattle.obligation_gen.specs.Owed.{IsOwed};
ghost use Rattle.bv_terms.specs.Values.{values_of};
ghost use Rattle.verdicts.specs.Deciding.{Decides};
ghost use Rattle.verdicts.specs.Telling.{IsVerdictOn, SaysItFails};

use bv_terms::{InputValues, Terms};
use cnf_core::{Cert, Instance, Log};
use cocoon_num::{List, NoMemory};
use cocoon_resolve::Checked;
use discharge::Budget;
use failure_reading::failure;
use failure_reading::laws::true_formulas_are_failures;
use failures::Failure;
use obligation_gen::{Kind, Obligation};
use obligation_laws::laws::untrue_formulas_never_fail;
use query_laws::formula_laws::{formulas_apply_declared_functions, obligations_have_levels};
use refinement::laws::segments_are_hops;
use rounds::{Outcome, Query, Witness, search};
use sound_types::laws::code_literals_fit;
use std::alloc::Global;

/// What a search says of an obligation.
#[derive(Drop)]
pub enum Verdict {
    /// It holds, and this shows it.
    Holds(Cert),
    /// It does not: this run sends what the body of the level above does not.
    Refuted(Failure),
    /// It does not: this run stands at a new role after as many bodies as its block allows.
    Over(Failure),
    /// The conflicts are spent on this query: how many variables it has, and the clauses that were
    /// learned.
    SpentConflicts(Query, u32, Log),
    /// The rounds are spent: with these instances the query is satisfied, and a candidate breaks an
    /// assumption again.
    SpentRounds(List<Instance>),
    /// The query has so many clauses, more than 4,000,000.
    Big(Query, u64),
}

/// The verdict on an obligation that fails by this run.
fn verdict_on(obligation: &Obligation, failure: Failure) -> Verdict
    ensures { IsVerdictOn obligation.now failure result }
{
    match obligation.kind {
        Kind::Contained => Verdict::Refuted(failure),
        Kind::Bounded => Verdict::Over(failure),
    }
}

/// What is said of an obligation whose formula is true under these definitions, which meet the
/// assumptions up to its level: the run by which it fails.
fn failing(
    alloc: Global,
    checked: &Checked,
    terms: &Terms,
    obligation: &Obligation,
    witness: Witness,
) -> Result<Verdict, NoMemory>
    requires owed { IsOwed (design_of checked.now) terms.now obligation.now }
    requires defs { CanFail obligation.now.level (design_of checked.now) witness.defs }
    requires true_ { MakeTrue witness.defs (values_of witness.inputs witness.values)
        (term_at terms.now obligation.now.formula) }
    requires others { OthersAreZero (term_at terms.now obligation.now.formula)
        (values_of witness.inputs witness.values) }
    ensures { IfOk result (SaysItFails (design_of checked.now) terms.now obligation.now) }
{
    true_formulas_are_failures();
    segments_are_hops();
    code_literals_fit();
    let _design = checked.design();
    checked.know_reading();
    let _count = terms.count();
    let Witness {
        defs,
        inputs,
        values,
        ..
    } = witness;
    let values = InputValues {
        inputs: inputs.items(),
        values: values.items(),
    };
    let failed = failure(alloc, checked, obligation, &values, defs)?;
    match failed {
        Some(failure) => Ok(verdict_on(obligation, failure)),
        None => unreachable!(),
    }
}

/// Whether an obligation of the design holds, by a search in rounds. The arena holds its formula; each
/// query stands in an arena of its own, and is counted before its clauses are made.
pub fn decide(
    alloc: Global,
    checked: &Checked,
    terms: &Terms,
    obligation: &Obligation,
    budget: &Budget,
) -> Result<Verdict, NoMemory>
    requires owed { IsOwed (design_of checked.now) terms.now obligation.now }
    requires some { 1 ≤ budget.now.conflicts }
    requires few { budget.now.conflicts < 2 ^ 31 }
    ensures { IfOk result (Decides (design_of checked.now) terms.now obligation.now
        budget.now.conflicts budget.now.rounds) }
{
    formulas_apply_declared_functions();
    obligations_have_levels();
    untrue_formulas_never_fail();
    code_literals_fit();
    let _design = checked.design();
    let (level, formula) = (obligation.level, obligation.formula);
    let outcome = search(alloc, checked, terms, level, formula, budget)?;
    match outcome {
        Outcome::Holds(cert) => Ok(Verdict::Holds(cert)),
        Outcome::Found(witness) => failing(alloc, checked, terms, obligation, witness),
        Outcome::SpentConflicts(query, vars, log) => Ok(Verdict::SpentConflicts(query, vars, log)),
        Outcome::SpentRounds(instances) => Ok(Verdict::SpentRounds(instances)),
        Outcome::Big(query, count) => Ok(Verdict::Big(query, count)),
    }
}
