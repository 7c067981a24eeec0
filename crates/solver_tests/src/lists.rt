//! Lists of clauses that were written by hand.
use crate::building::blasted;
use crate::drafts::Draft;
use case_files::{Printer, first_word};
use cnf_core::Cnf;
use std::alloc::Global;

fn put_literal(number: i32, given: &mut Printer) {
    if number < 0 {
        given.put("-");
    }
    given.put_number(u64::from(number.unsigned_abs()));
    given.put(" ");
}

/// Puts clauses as DIMACS writes them.
fn put_list(cnf: &Cnf, given: &mut Printer) {
    given.put("p cnf ");
    given.put_number(u64::from(cnf.vars));
    given.put(" ");
    given.put_number(cnf.clauses.items().len() as u64);
    for clause in cnf.clauses.items() {
        given.put("\n");
        for lit in clause.lits.items() {
            put_literal(lit.number, given);
        }
        given.put("0");
    }
}

/// Whether the goal of a line `c WORDS` has the list below it.
pub fn is_list(alloc: Global, case: &str) -> Option<bool> {
    let (head, list) = case.split_once('\n')?;
    let (draft, goal) = Draft::read(alloc, first_word(head).1, None)?;
    let (cnf, _) = blasted(alloc, &draft.terms, goal)?;
    let mut given = Printer::new(alloc);
    put_list(&cnf, &mut given);
    Some(given.is_whole() && given.text() == list)
}
