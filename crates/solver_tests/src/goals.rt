//! The clauses of goals: how many there are, which inputs they have, and which numbers satisfy them.
use crate::building::{bits, blasted, is_goal, read};
use crate::drafts::Draft;
use crate::extending::holds;
use bit_blast::{BlastFault, InputMap, blast};
use bv_terms::{TermId, Terms};
use case_files::{Printer, first_word, number};
use cnf_core::{Assignment, Cnf};
use cocoon_num::{Bits, List};
use std::alloc::Global;

fn put_number(number: Bits, given: &mut Printer) {
    given.put_number(u64::from(number.width));
    given.put("w");
    given.put_debug(&number.value);
}

/// Puts how many clauses were made and over how many variables, or how many are refused.
pub(crate) fn put_clauses_made(made: Result<(Cnf, InputMap), BlastFault>, given: &mut Printer) {
    match made {
        Ok((cnf, _)) => {
            given.put_number(cnf.clauses.items().len() as u64);
            given.put(" over ");
            given.put_number(u64::from(cnf.vars));
        }
        Err(BlastFault::Clauses(count)) => {
            given.put_number(count);
            given.put(" refused");
        }
        Err(BlastFault::NoMemory) => given.lose(),
    }
}

fn put_counts(alloc: Global, terms: &Terms, goal: TermId, given: &mut Printer) {
    if !is_goal(terms, goal) {
        return given.put("no goal");
    }
    put_clauses_made(blast(alloc, terms, goal), given);
}

/// Puts how many clauses a goal has and over how many variables, or how many are refused.
pub fn put_size(alloc: Global, words: &str, given: &mut Printer) {
    match Draft::read(alloc, words, None) {
        Some((draft, goal)) => put_counts(alloc, &draft.terms, goal, given),
        None => given.put("no goal"),
    }
}

/// An assignment that makes so many variables true.
fn all_true(alloc: Global, vars: u32) -> Option<Assignment> {
    let mut values = Vec::new(alloc);
    values.resize(vars as usize, true).ok()?;
    Some(Assignment {
        values: List::from(values),
    })
}

fn put_all_inputs(alloc: Global, words: &str, given: &mut Printer) -> Option<()> {
    let (draft, goal) = Draft::read(alloc, words, None)?;
    let (cnf, map) = blasted(alloc, &draft.terms, goal)?;
    let assignment = all_true(alloc, cnf.vars)?;
    for input in 0..draft.terms.input_count() {
        if input > 0 {
            given.put(" ");
        }
        put_number(read(&map, &assignment, &draft.terms, input)?, given);
    }
    Some(())
}

/// Puts what the inputs are read as where all variables are true.
pub fn put_inputs(alloc: Global, words: &str, given: &mut Printer) {
    if put_all_inputs(alloc, words, given).is_none() {
        given.put("no goal");
    }
}

/// Whether the clauses of a goal hold where the blank is this number.
fn is_solution(alloc: Global, words: &str, blank: Bits) -> Option<bool> {
    let (draft, goal) = Draft::read(alloc, words, Some(blank))?;
    holds(alloc, &draft, goal)
}

fn put_all_solutions(alloc: Global, asked: &str, given: &mut Printer) -> Option<()> {
    let (width, words) = first_word(asked);
    let width = u8::try_from(number(width)?).ok()?;
    if width > 16 {
        return None;
    }
    let mut is_first = true;
    for value in 0..1u64 << width {
        let blank = bits(width, u128::from(value))?;
        if is_solution(alloc, words, blank)? {
            if !is_first {
                given.put(" ");
            }
            put_number(blank, given);
            is_first = false;
        }
    }
    Some(())
}

/// Puts the numbers of a width, of at most 16 bits, that the blank can be so that the clauses of a goal hold, `WIDTH WORDS`.
pub fn put_solutions(alloc: Global, asked: &str, given: &mut Printer) {
    if put_all_solutions(alloc, asked, given).is_none() {
        given.put("no goal");
    }
}
