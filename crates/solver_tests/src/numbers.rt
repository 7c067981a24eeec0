//! The numbers of terms.
ghost use Rattle.std.specs.Prelude.{◌<◌, length};

use crate::building::all_replaced;
use crate::drafts::Draft;
use bv_terms::{TermId, Terms, applications, distinct};
use case_files::{Printer, first_word, number};
use cocoon_num::NoMemory;
use std::alloc::Global;

/// Which terms of a walk are asked for.
#[derive(Clone, Copy, Drop)]
pub enum Kind {
    All,
    Applications,
}

fn put_terms(terms: &[TermId], given: &mut Printer) {
    let mut is_first = true;
    for term in terms {
        if !is_first {
            given.put(" ");
        }
        given.put_number(u64::from(*term));
        is_first = false;
    }
}

/// Puts the number of each term that the words leave, in their order.
pub fn put_numbers(alloc: Global, words: &str, given: &mut Printer) {
    match Draft::read_all(alloc, words, None) {
        Some(draft) => put_terms(&draft.waiting, given),
        None => given.put("no term"),
    }
}

fn walked(alloc: Global, terms: &Terms, term: TermId, kind: Kind) -> Result<Vec<TermId>, NoMemory>
    requires { term < length terms.now }
{
    match kind {
        Kind::All => distinct(alloc, terms, term),
        Kind::Applications => applications(alloc, terms, term),
    }
}

/// Puts the numbers of the terms that the last term of the words is made of, in the order of the walk.
pub fn put_walk(alloc: Global, words: &str, kind: Kind, given: &mut Printer) {
    let Some((draft, term)) = Draft::read(alloc, words, None) else {
        return given.put("no term");
    };
    if term >= draft.terms.count() {
        return given.put("no term");
    }
    match walked(alloc, &draft.terms, term, kind) {
        Ok(order) => put_terms(&order, given),
        Err(_) => given.lose(),
    }
}

/// Puts the numbers of the terms that the last term of the words is made of, from the largest on.
pub fn put_needed(alloc: Global, words: &str, given: &mut Printer) {
    let Some((draft, term)) = Draft::read(alloc, words, None) else {
        return given.put("no term");
    };
    if term >= draft.terms.count() {
        return given.put("no term");
    }
    match draft.terms.needed(alloc, term) {
        Ok(ids) => put_terms(&ids, given),
        Err(_) => given.lose(),
    }
}

/// The number of a word, and the words after it.
fn small(words: &str) -> Option<(u32, &str)> {
    let (word, rest) = first_word(words);
    Some((u32::try_from(number(word)?).ok()?, rest))
}

/// What the terms from a number on become if the last term of the words stands in the place of an input: `FIRST INPUT WORDS`.
fn replaced(alloc: Global, words: &str) -> Option<Vec<TermId>> {
    let (first, rest) = small(words)?;
    let (input, words) = small(rest)?;
    let (mut draft, term) = Draft::read(alloc, words, None)?;
    all_replaced(alloc, &mut draft.terms, first, input, term)
}

/// Puts the numbers of what the terms from a number on become.
pub fn put_replaced(alloc: Global, words: &str, given: &mut Printer) {
    match replaced(alloc, words) {
        Some(ids) => put_terms(&ids, given),
        None => given.put("no terms"),
    }
}
