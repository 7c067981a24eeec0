//! The clauses of queries, and whether certificates are accepted.
ghost use Rattle.std.specs.Prelude.{IfOk, IfSome};
ghost use Rattle.cnf_core.specs.Satisfying.{WellNamed};
ghost use Rattle.cocoon_syntax.specs.TreeOf.{design_of};
ghost use Rattle.obligation_gen.specs.Owed.{IsOwed};
ghost use Rattle.obligation_gen.specs.Shown.{ShowsObligations};
ghost use Rattle.obligation_laws.specs.Obligations as laws;

use crate::certs::cert;
use crate::owed::obligation;
use bit_blast::{BlastFault, blast};
use bv_terms::Terms;
use case_files::Printer;
use cnf_core::{Clause, Cnf, Instance};
use cocoon_resolve::Checked;
use obligation_gen::Obligation;
use queries::{RecheckFault, all_fit, query, recheck_one};
use query_laws::formula_laws::{formulas_apply_declared_functions, obligations_have_levels};
use sound_types::laws::code_literals_fit;
use std::alloc::Global;

/// The clauses of the query of an obligation with these instances, if they fit.
pub fn clauses(
    alloc: Global,
    checked: &Checked,
    terms: &Terms,
    obligation: &Obligation,
    instances: &[Instance],
) -> Result<Option<Cnf>, RecheckFault>
    requires { IsOwed (design_of checked.now) terms.now obligation.now }
    ensures { IfOk result (λ found. IfSome found WellNamed) }
{
    formulas_apply_declared_functions();
    obligations_have_levels();
    code_literals_fit();
    let _design = checked.design();
    if !all_fit(checked, obligation.level, instances) {
        return Ok(None);
    }
    let (level, formula) = (obligation.level, obligation.formula);
    let own = query(alloc, checked, terms, level, formula, instances)?;
    match blast(alloc, &own.terms, own.goal) {
        Ok((cnf, _)) => Ok(Some(cnf)),
        Err(BlastFault::Clauses(count)) => Err(RecheckFault::Big(count)),
        Err(BlastFault::NoMemory) => Err(RecheckFault::NoMemory),
    }
}

fn put_clause(clause: &Clause, given: &mut Printer) {
    for lit in clause.lits.items() {
        given.put(" ");
        given.put_debug(&lit.number);
    }
    given.put(" 0");
}

/// Puts clauses as DIMACS writes them, with blanks between them.
fn put_list(cnf: &Cnf, given: &mut Printer) {
    given.put("p cnf ");
    given.put_number(u64::from(cnf.vars));
    given.put(" ");
    given.put_number(cnf.clauses.items().len() as u64);
    for clause in cnf.clauses.items() {
        put_clause(clause, given);
    }
}

/// The 64 bits of a text by the function FNV-1a.
pub fn digest(text: &str) -> u64 {
    let mut digest: u64 = 0xcbf2_9ce4_8422_2325;
    for byte in text.bytes() {
        digest = (digest ^ u64::from(byte)).wrapping_mul(0x100_0000_01b3);
    }
    digest
}

/// Puts how many variables and clauses there are, and a digest of the list.
fn put_size(alloc: Global, cnf: &Cnf, given: &mut Printer) {
    let mut list = Printer::new(alloc);
    put_list(cnf, &mut list);
    given.put_number(u64::from(cnf.vars));
    given.put(" ");
    given.put_number(cnf.clauses.items().len() as u64);
    given.put(" ");
    given.put_number(digest(list.text()));
    given.lose_with(&list);
}

/// Puts that a query has so many clauses, or that there was no memory.
pub fn put_fault(fault: RecheckFault, given: &mut Printer) {
    match fault {
        RecheckFault::Big(count) => {
            given.put("large with ");
            given.put_number(count);
            given.put(" clauses");
        }
        RecheckFault::NoMemory => given.lose(),
    }
}

/// Puts the answer to `clauses INSTANCES`, `list INSTANCES` or `recheck INSTANCES / STEPS`.
pub fn put_asked_with(
    alloc: Global,
    checked: &Checked,
    terms: &Terms,
    obligation: &Obligation,
    question: (&str, &str),
    given: &mut Printer,
)
    requires { IsOwed (design_of checked.now) terms.now obligation.now }
{
    let (word, rest) = question;
    let Some(cert) = cert(alloc, rest) else {
        return given.put("no certificate");
    };
    if word == "recheck" {
        return match recheck_one(alloc, checked, terms, obligation, &cert) {
            Ok(answer) => given.put(if answer { "true" } else { "false" }),
            Err(fault) => put_fault(fault, given),
        };
    }
    match clauses(alloc, checked, terms, obligation, cert.instances.items()) {
        Ok(Some(cnf)) if word == "list" => put_list(&cnf, given),
        Ok(Some(cnf)) => put_size(alloc, &cnf, given),
        Ok(None) => given.put("no fit"),
        Err(fault) => put_fault(fault, given),
    }
}

/// Puts how many obligations there are, and a digest of the lists of all of them.
pub fn put_every(
    alloc: Global,
    checked: &Checked,
    terms: &Terms,
    all: &[Obligation],
    given: &mut Printer,
)
    requires { ShowsObligations (design_of checked.now) terms.now all.now
        (laws.all_obligations (design_of checked.now)) }
{
    let mut lists = Printer::new(alloc);
    for number in 0..all.len() {
        if number > 0 {
            lists.put(" ");
        }
        if let Some(obligation) = obligation(checked, terms, all, number) {
            put_asked_with(alloc, checked, terms, obligation, ("list", ""), &mut lists);
        }
    }
    given.put_number(all.len() as u64);
    given.put(" ");
    given.put_number(digest(lists.text()));
    given.lose_with(&lists);
}
