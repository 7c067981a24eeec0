//! Verdicts on obligations, and whether what comes with them is accepted.
ghost use Rattle.cocoon_syntax.specs.TreeOf.{design_of};
ghost use Rattle.obligation_gen.specs.Owed.{IsOwed};
ghost use Rattle.obligation_gen.specs.Shown.{ShowsObligations};
ghost use Rattle.obligation_laws.specs.Obligations as laws;

use crate::asking::{clauses, put_fault};
use crate::owed::obligation;
use bv_terms::Terms;
use case_files::Printer;
use cnf_core::{Cert, Instance, Log};
use cocoon_resolve::Checked;
use discharge::Budget;
use obligation_gen::Obligation;
use proof_check::{check_distinct, check_log};
use queries::{RecheckFault, recheck_one};
use std::alloc::Global;
use verdicts::{Query, Verdict, decide};

/// A budget has fewer conflicts than this.
const MANY: u64 = 1 << 31;

/// How many conflicts one search may meet, and how many rounds an obligation may be given.
#[derive(Clone, Copy)]
pub struct Allowed {
    pub conflicts: u64,
    pub rounds: u32,
}

/// Whether the log derives the empty clause from the query of the obligation, and the certificate is accepted.
fn is_shown(
    alloc: Global,
    checked: &Checked,
    terms: &Terms,
    obligation: &Obligation,
    cert: &Cert,
) -> bool
    requires { IsOwed (design_of checked.now) terms.now obligation.now }
{
    let instances = cert.instances.items();
    let Ok(Some(cnf)) = clauses(alloc, checked, terms, obligation, instances) else {
        return false;
    };
    let derives = matches!(check_log(alloc, &cnf, &cert.log), Ok(true));
    let answer = recheck_one(alloc, checked, terms, obligation, cert);
    derives && matches!(answer, Ok(true))
}

/// Whether each step of the log brings a new clause to the query of the obligation with these instances, which has so many variables.
fn is_spent(
    alloc: Global,
    checked: &Checked,
    terms: &Terms,
    obligation: &Obligation,
    instances: &[Instance],
    spent: (u32, &Log),
) -> bool
    requires { IsOwed (design_of checked.now) terms.now obligation.now }
{
    let (vars, log) = spent;
    let Ok(Some(cnf)) = clauses(alloc, checked, terms, obligation, instances) else {
        return false;
    };
    matches!(check_distinct(alloc, &cnf, log), Ok(true)) && cnf.vars == vars
}

/// The verdict of searches that may meet so many conflicts, in so many rounds.
fn verdict(
    alloc: Global,
    checked: &Checked,
    terms: &Terms,
    obligation: &Obligation,
    allowed: Allowed,
) -> Option<Verdict>
    requires { IsOwed (design_of checked.now) terms.now obligation.now }
{
    let Allowed { conflicts, rounds } = allowed;
    if conflicts < 1 || conflicts >= MANY {
        return None;
    }
    let budget = Budget { conflicts, rounds };
    decide(alloc, checked, terms, obligation, &budget).ok()
}

/// Puts a word, and `but not shown` if what shows it is not accepted.
fn put_shown(word: &str, is_shown: bool, given: &mut Printer) {
    given.put(word);
    if !is_shown {
        given.put(" but not shown");
    }
}

/// Whether there are no more instances than rounds.
fn is_within(instances: &[Instance], allowed: Allowed) -> bool {
    instances.len() as u64 <= u64::from(allowed.rounds)
}

/// Puts on which query the conflicts were spent, and whether the log of one of the obligation is accepted.
fn put_spent(
    alloc: Global,
    checked: &Checked,
    terms: &Terms,
    obligation: &Obligation,
    query: &Query,
    spent: (u32, &Log),
    allowed: Allowed,
    given: &mut Printer,
)
    requires { IsOwed (design_of checked.now) terms.now obligation.now }
{
    let is_whole = spent.1.steps.items().len() as u64 == allowed.conflicts;
    match query {
        Query::Goal(instances) => {
            let instances = instances.items();
            let is_new = is_spent(alloc, checked, terms, obligation, instances, spent);
            put_shown(
                "spent",
                is_new && is_whole && is_within(instances, allowed),
                given,
            );
        }
        Query::Assumption(number, _, instances) => {
            let word = "spent on a candidate of ";
            put_shown(
                word,
                is_whole && is_within(instances.items(), allowed),
                given,
            );
            given.put_number(u64::from(*number));
        }
    }
}

/// Puts how large a query is.
fn put_large(query: &Query, count: u64, allowed: Allowed, given: &mut Printer) {
    put_fault(RecheckFault::Big(count), given);
    match query {
        Query::Goal(instances) => put_shown("", is_within(instances.items(), allowed), given),
        Query::Assumption(_, _, instances) => {
            put_shown(
                " of a candidate",
                is_within(instances.items(), allowed),
                given,
            );
        }
    }
}

/// Puts the verdict on an obligation, and whether what comes with it is accepted.
pub fn put_verdict(
    alloc: Global,
    checked: &Checked,
    terms: &Terms,
    obligation: &Obligation,
    allowed: Allowed,
    given: &mut Printer,
)
    requires { IsOwed (design_of checked.now) terms.now obligation.now }
{
    let Some(verdict) = verdict(alloc, checked, terms, obligation, allowed) else {
        return given.put("no verdict");
    };
    match verdict {
        Verdict::Holds(cert) => {
            let is_shown = is_shown(alloc, checked, terms, obligation, &cert);
            put_shown(
                "holds",
                is_shown && is_within(cert.instances.items(), allowed),
                given,
            );
        }
        Verdict::Refuted(failure) => {
            put_shown("refuted", failure.at.role == obligation.role, given);
        }
        Verdict::Over(failure) => put_shown("over", failure.at.role == obligation.role, given),
        Verdict::SpentConflicts(query, vars, log) => {
            let spent = (vars, &log);
            put_spent(
                alloc, checked, terms, obligation, &query, spent, allowed, given,
            );
        }
        Verdict::SpentRounds(instances) => {
            let count = instances.items().len() as u64;
            put_shown("satisfied", count == u64::from(allowed.rounds), given);
        }
        Verdict::Big(query, count) => put_large(&query, count, allowed, given),
    }
}

/// How many verdicts there are of each kind.
#[derive(Drop)]
struct Tally {
    hold: u64,
    fail: u64,
    others: u64,
}

impl Tally {
    /// One more of the kind of a verdict.
    fn add(&mut self, verdict: Option<Verdict>) {
        let count = match verdict {
            Some(Verdict::Holds(_)) => &mut self.hold,
            Some(Verdict::Refuted(_) | Verdict::Over(_)) => &mut self.fail,
            _ => &mut self.others,
        };
        *count = count.saturating_add(1);
    }
}

/// Puts how many of the verdicts on the first so many obligations are of each kind. Nothing is checked of what comes with them.
pub fn put_verdicts(
    alloc: Global,
    checked: &Checked,
    terms: &Terms,
    all: &[Obligation],
    count: usize,
    allowed: Allowed,
    given: &mut Printer,
)
    requires { ShowsObligations (design_of checked.now) terms.now all.now
        (laws.all_obligations (design_of checked.now)) }
{
    let mut tally = Tally {
        hold: 0,
        fail: 0,
        others: 0,
    };
    for number in 0..count {
        if let Some(obligation) = obligation(checked, terms, all, number) {
            tally.add(verdict(alloc, checked, terms, obligation, allowed));
        }
    }
    given.put_number(tally.hold);
    given.put(" hold, ");
    given.put_number(tally.fail);
    given.put(" fail, ");
    given.put_number(tally.others);
    given.put(" others");
}
