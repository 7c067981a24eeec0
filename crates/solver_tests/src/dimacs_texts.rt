//! Files of DIMACS texts, with an empty line between two cases.
use crate::lists::is_list;
use crate::searching::{is_answer, is_judgement};
use case_files::{Printer, file, first_word, number};
use std::alloc::Global;
use std::str;

/// What the cases of a file are.
#[derive(Clone, Copy)]
pub enum Kind {
    /// Goals with their lists.
    List,
    /// Clauses with the answer of a search through at most so many conflicts.
    Search(u64),
    /// Logs with what the checks say of them.
    Log,
}

fn is_as_wanted(alloc: Global, kind: Kind, case: &str) -> bool {
    let answer = match kind {
        Kind::List => is_list(alloc, case),
        Kind::Search(conflicts) => is_answer(alloc, conflicts, case),
        Kind::Log => is_judgement(alloc, case),
    };
    answer == Some(true)
}

/// Puts the first line of each case that is not as wanted, and how many are.
fn put_cases(alloc: Global, kind: Kind, text: &str, given: &mut Printer) {
    let mut count: u64 = 0;
    for case in text.trim_end().split("\n\n") {
        if is_as_wanted(alloc, kind, case) {
            count = count.saturating_add(1);
        } else {
            given.put("not ");
            given.put(case.lines().next().unwrap_or_default());
            given.put(", ");
        }
    }
    given.put_number(count);
    given.put(" as wanted");
}

/// Tries the cases of the file of this name.
pub fn put_texts(rt: &HostRuntime, kind: Kind, name: &str, given: &mut Printer) {
    match file(rt, name) {
        Some(bytes) => put_cases(
            rt.alloc(),
            kind,
            str::from_utf8(&bytes).unwrap_or_default(),
            given,
        ),
        None => given.put("no file"),
    }
}

/// The same for searches, `CONFLICTS FILE`.
pub fn put_searches(rt: &HostRuntime, asked: &str, given: &mut Printer) {
    let (conflicts, name) = first_word(asked);
    match number(conflicts) {
        Some(conflicts) => put_texts(rt, Kind::Search(conflicts), name, given),
        None => given.put("no number"),
    }
}
