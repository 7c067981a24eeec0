//! The values of terms by their clauses.
use crate::drafts::constant;
use crate::extending::is_number;
use case_files::{Printer, last_line};
use std::alloc::Global;

/// Whether the term of these words has this value where the blank is this number.
fn is_value(alloc: Global, words: &str, blank: &str, value: &str) -> bool {
    match (constant(blank), constant(value)) {
        (Some(blank), Some(value)) => is_number(alloc, words, blank, value),
        _ => false,
    }
}

/// Puts the values of the term of these words, one for each of the numbers of the last line `numbers`, which is in the place of
/// `_`. Values other than those that are wanted have a `!` before what is wanted.
pub fn put_values(alloc: Global, above: &str, words: &str, wanted: &str, given: &mut Printer) {
    let mut values = wanted.split(' ');
    let mut is_first = true;
    for number in last_line(above, "numbers").unwrap_or_default().split(' ') {
        if !is_first {
            given.put(" ");
        }
        let value = values.next().unwrap_or_default();
        if !is_value(alloc, words, number, value) {
            given.put("!");
        }
        given.put(value);
        is_first = false;
    }
}
