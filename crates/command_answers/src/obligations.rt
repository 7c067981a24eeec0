//! The obligations of a design, each decided by a search for all definitions. What shows that they hold is
//! kept, as certificates.
ghost use Rattle.std.specs.Prelude.{[], ◌∷◌, ◌≡◌, ◌≤◌, ◌<◌, ◌++◌, ◌^◌, IfErr, IfOk, OnOk, map, string_bytes};
ghost use Rattle.cert_text.specs.BudgetJson.{IsBudgetFile};
ghost use Rattle.cert_text.specs.Spent as spent;
ghost use Rattle.cnf_core.specs.CertsOf.{instance_of};
ghost use Rattle.cocoon_syntax.specs.TreeOf.{design_of};
ghost use Rattle.failures.specs.Found.{FailureFits, failure_of};
ghost use Rattle.obligation_gen.specs.Counted.{AreFew, all_counts};
ghost use Rattle.obligation_gen.specs.Shown.{kind_in, ShowsObligations};
ghost use Rattle.obligation_laws.specs.Obligations as laws;
ghost use Rattle.obligation_gen.specs.Owed.{IsOwed};
ghost use Rattle.command_answers.specs.Answering.{TellsSpent};
ghost use Rattle.command_answers.specs.Owing.{spent_line, spent_on};
ghost use Rattle.command_answers.specs.Refining.{HasManyLeaves, HasTables, IsRefined, NotAll, NotOne, NotRefined, SaysAll, SaysOne, TellsRun};
ghost use Rattle.command_answers.specs.ReportLines.{rounds_line};

use crate::answer::{Answer, budget_line};
use bv_terms::Terms;
use cert_text::verdict_laws::shown_obligations_are_certified;
use cert_text::{candidate_file, obligation_file, rounds_file};
use cnf_core::{Cert, Certs, Instance, Log};
use cocoon_num::{LimitName, List, NoMemory};
use cocoon_resolve::Checked;
use command_reports::Refusal;
use discharge::Budget;
use failures::{Failure, over_text, refuted_text};
use obligation_gen::{InlineFault, Kind, Obligation, all_obligations};
use obligation_laws::laws::blocks_that_never_fail_are_refined;
use sound_types::laws::code_literals_fit;
use std::alloc::Global;
use verdicts::{Query, Verdict, decide};

/// What a design owes, and the arena that holds its formulas.
#[derive(Drop)]
struct Owed {
    terms: Terms,
    obligations: Vec<Obligation>,
}

/// What a design owes, if each of its trees has few leaves.
fn all_owed(alloc: Global, checked: &Checked) -> Result<Owed, Refusal>
    ensures shows { IfOk result (λ o. ShowsObligations (design_of checked.now) o.terms
        o.obligations.items (laws.all_obligations (design_of checked.now))) }
    ensures few { OnOk result (AreFew (all_counts (design_of checked.now))) }
    ensures refused { IfErr result (HasManyLeaves (design_of checked.now)) }
{
    let mut terms = Terms::new(alloc);
    match all_obligations(alloc, checked, &mut terms) {
        Ok(obligations) => Ok(Owed { terms, obligations }),
        Err(InlineFault::Paths(count)) => Err(Refusal::OverLimit(LimitName::Leaves, count)),
        Err(InlineFault::NoMemory) => Err(Refusal::NoMemory),
    }
}

/// The line of an obligation on which so many rounds were spent.
fn rounds_line(alloc: Global, rounds: u32, number: u32) -> Result<String, NoMemory>
    ensures { IfOk result (λ line. string_bytes line ≡ rounds_line rounds number) }
{
    Ok(format!(in alloc; "budget rounds {rounds} obligation {number}\n")?)
}

/// The line where conflicts were spent on a query of the obligation of this number.
fn spent_line(alloc: Global, conflicts: u32, number: u32, query: &Query) -> Result<String, NoMemory>
    ensures { IfOk result (λ line. string_bytes line ≡ spent_line conflicts number query.now) }
{
    match query {
        Query::Goal(_) => budget_line(alloc, conflicts, "obligation", number),
        Query::Assumption(assumption, _, _) => {
            budget_line(alloc, conflicts, "assumption", *assumption)
        }
    }
}

/// The file of that.
fn spent_file(
    alloc: Global,
    checked: &Checked,
    number: u32,
    query: &Query,
    log: &Log,
) -> Result<Vec<u8>, NoMemory>
    requires { HasTables (design_of checked.now) query.now }
    ensures { IfOk result (λ bytes. IsBudgetFile
        (spent_on (design_of checked.now) number query.now log.now) bytes.items) }
{
    match query {
        Query::Goal(instances) => obligation_file(alloc, number, instances.items(), log),
        Query::Assumption(assumption, defs, instances) => {
            let instances = instances.items();
            candidate_file(alloc, checked, *assumption, defs, number, instances, log)
        }
    }
}

/// The answer where conflicts were spent on a query of the obligation of this number.
fn spent_answer<'w>(
    alloc: Global,
    checked: &Checked,
    conflicts: u32,
    number: u32,
    query: &Query,
    log: &Log,
) -> Result<Answer<'w>, NoMemory>
    requires { HasTables (design_of checked.now) query.now }
    ensures { IfOk result (TellsSpent (spent_line conflicts number query.now)
        (spent_on (design_of checked.now) number query.now log.now)) }
{
    let line = spent_line(alloc, conflicts, number, query)?;
    let file = spent_file(alloc, checked, number, query, log)?;
    Ok(Answer::given_up(line, file))
}

/// The answer where the rounds were spent on the obligation of this number.
fn open_answer<'w>(
    alloc: Global,
    rounds: u32,
    number: u32,
    instances: &[Instance],
) -> Result<Answer<'w>, NoMemory>
    ensures { IfOk result (TellsSpent (rounds_line rounds number)
        (spent.rounds number (map instance_of instances.now))) }
{
    let line = rounds_line(alloc, rounds, number)?;
    let file = rounds_file(alloc, number, instances)?;
    Ok(Answer::given_up(line, file))
}

/// The answer where an obligation fails by this run.
fn failed_answer<'w>(
    alloc: Global,
    checked: &Checked,
    obligation: &Obligation,
    failure: &Failure,
) -> Result<Answer<'w>, NoMemory>
    requires { FailureFits obligation.now.level (design_of checked.now) failure.now }
    ensures { IfOk result (TellsRun (design_of checked.now) (kind_in obligation.now.kind)
        obligation.now.level obligation.now.leaf
        (failure_of (design_of checked.now) failure.now)) }
{
    let (level, leaf) = (obligation.level, obligation.leaf);
    match obligation.kind {
        Kind::Contained => {
            let text = refuted_text(alloc, checked, level, leaf, failure)?;
            Ok(Answer::refuted(text))
        }
        Kind::Bounded => {
            let text = over_text(alloc, checked, level, leaf, failure)?;
            Ok(Answer::hop_bound(text))
        }
    }
}

/// What is said of one obligation.
#[derive(Drop)]
enum Shown<'w> {
    /// This shows it.
    Cert(Cert),
    /// It fails, or the search for it was given up.
    Ended(Answer<'w>),
}

/// What is said of the obligation of this number.
fn show_one<'w>(
    alloc: Global,
    checked: &Checked,
    terms: &Terms,
    obligation: &Obligation,
    number: u32,
    conflicts: u32,
    rounds: u32,
) -> Result<Shown<'w>, Refusal>
    requires owed { IsOwed (design_of checked.now) terms.now obligation.now }
    requires some { 1 ≤ conflicts }
    requires few { conflicts < 2 ^ 31 }
    ensures decided { IfOk result (SaysOne (design_of checked.now) terms.now obligation.now
        conflicts rounds number) }
    ensures refused { IfErr result
        (NotOne (design_of checked.now) terms.now obligation.now rounds) }
{
    let budget = Budget {
        conflicts: u64::from(conflicts),
        rounds,
    };
    let verdict = decide(alloc, checked, terms, obligation, &budget)?;
    match verdict {
        Verdict::Holds(cert) => Ok(Shown::Cert(cert)),
        Verdict::Refuted(failure) => {
            let answer = failed_answer(alloc, checked, obligation, &failure)?;
            Ok(Shown::Ended(answer))
        }
        Verdict::Over(failure) => {
            let answer = failed_answer(alloc, checked, obligation, &failure)?;
            Ok(Shown::Ended(answer))
        }
        Verdict::SpentConflicts(query, _, log) => {
            let answer = spent_answer(alloc, checked, conflicts, number, &query, &log)?;
            Ok(Shown::Ended(answer))
        }
        Verdict::SpentRounds(instances) => {
            let answer = open_answer(alloc, rounds, number, instances.items())?;
            Ok(Shown::Ended(answer))
        }
        Verdict::Big(_, count) => Err(Refusal::OverLimit(LimitName::Clauses, count)),
    }
}

/// The number of an obligation; there is no memory for more.
fn number_of(index: usize) -> Result<u32, NoMemory>
    ensures { IfOk result (λ number. number ≡ index) }
{
    match u32::try_from(index) {
        Ok(number) => Ok(number),
        Err(_) => Err(NoMemory),
    }
}

/// Keeps a certificate behind others.
fn keep(certs: &mut Vec<Cert>, cert: Cert) -> Result<(), NoMemory>
    ensures { OnOk result (certs.new.items ≡ certs.old.items ++ cert ∷ []) }
{
    certs.push(cert)?;
    Ok(())
}

/// What is said of all obligations of a design.
#[derive(Drop)]
pub enum Refined<'w> {
    /// Each holds, and these show it.
    Holds(Certs),
    /// One fails, or the search for one was given up.
    Ended(Answer<'w>),
}

/// What is said of all obligations. They are decided in order, and the first that is not shown to hold
/// decides.
fn show_all<'w>(
    alloc: Global,
    checked: &Checked,
    terms: &Terms,
    obligations: &[Obligation],
    conflicts: u32,
    rounds: u32,
) -> Result<Refined<'w>, Refusal>
    requires shown { ShowsObligations (design_of checked.now) terms.now obligations.now
        (laws.all_obligations (design_of checked.now)) }
    requires some { 1 ≤ conflicts }
    requires few { conflicts < 2 ^ 31 }
    ensures decided { IfOk result (SaysAll (design_of checked.now) terms.now obligations.now
        conflicts rounds) }
    ensures refused { IfErr result (NotAll (design_of checked.now) rounds) }
{
    let mut certs = Vec::<Cert>::new(alloc);
    for (index, obligation) in obligations.iter().enumerate() {
        let number = number_of(index)?;
        let shown = show_one(alloc, checked, terms, obligation, number, conflicts, rounds)?;
        match shown {
            Shown::Cert(cert) => keep(&mut certs, cert)?,
            Shown::Ended(answer) => return Ok(Refined::Ended(answer)),
        }
    }
    Ok(Refined::Holds(Certs {
        certs: List::from(certs),
    }))
}

/// Whether the blocks of a design keep what they owe, for all definitions that meet its assumptions.
/// All trees are made first; then each obligation is decided in at most so many rounds, by searches of at
/// most so many conflicts. What shows that each holds is kept, one certificate for each, in order.
pub fn decide_all<'w>(
    alloc: Global,
    checked: &Checked,
    conflicts: u32,
    rounds: u32,
) -> Result<Refined<'w>, Refusal>
    requires some { 1 ≤ conflicts }
    requires few { conflicts < 2 ^ 31 }
    ensures decided { IfOk result (IsRefined (design_of checked.now) conflicts rounds) }
    ensures refused { IfErr result (NotRefined (design_of checked.now) rounds) }
{
    shown_obligations_are_certified();
    blocks_that_never_fail_are_refined();
    code_literals_fit();
    let _design = checked.design();
    let owed = all_owed(alloc, checked)?;
    let obligations = &owed.obligations;
    show_all(alloc, checked, &owed.terms, obligations, conflicts, rounds)
}
