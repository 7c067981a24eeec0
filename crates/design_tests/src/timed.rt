//! What is timed: definitions that are bound, and look-ups in them.
ghost use Rattle.runtime_defs.specs.Places.{TakesArgs};

use crate::bindings::{bound, takes};
use crate::reading::checked_design;
use case_files::{Printer, file, number};
use cocoon_resolve::Checked;
use declarations::FunId;
use runtime_defs::Defs;
use std::env;

/// What is timed: a function of definitions at so many numbers.
#[derive(Drop)]
pub struct Timed {
    design: String,
    definitions: String,
    function: String,
    count: u64,
}

/// What the words ask for, where they begin with `time`.
pub fn timed_by_words(rt: &HostRuntime) -> Option<Timed> {
    let mut words = env::args(rt).ok()?;
    words.next();
    if words.next()?.as_str() != "time" {
        return None;
    }
    let design = words.next()?;
    let definitions = words.next()?;
    let function = words.next()?;
    let count = number(words.next()?.as_str())?;
    Some(Timed {
        design,
        definitions,
        function,
        count,
    })
}

/// At how many numbers from 0 on, each taken for all eight arguments, a function is true.
fn count_true(defs: &Defs, function: FunId, count: u64) -> u64
    requires { TakesArgs defs.now function 8 }
{
    let mut found: u64 = 0;
    for number in 0..count {
        if defs.look(function, &[number; 8]).value == 1 {
            found = found.saturating_add(1);
        }
    }
    found
}

fn put_count(checked: &Checked, defs: &Defs, asked: &Timed, given: &mut Printer) {
    match checked.function_of(asked.function.as_bytes()) {
        Some(function) if takes(defs, function, 8) => {
            given.put_number(count_true(defs, function, asked.count));
            given.put(" true");
        }
        _ => given.put("no such function"),
    }
}

/// Puts how often the function is true, or why there are no definitions.
fn put_timed(
    rt: &HostRuntime,
    asked: &Timed,
    design: &[u8],
    definitions: &[u8],
    given: &mut Printer,
) {
    match checked_design(rt.alloc(), design) {
        Some(checked) => {
            if let Some(defs) = bound(rt.alloc(), &checked, definitions, given) {
                put_count(&checked, &defs, asked, given);
            }
        }
        None => given.put("no design"),
    }
}

/// Puts the same of the files that are named.
pub fn put_time(rt: &HostRuntime, asked: &Timed, given: &mut Printer) {
    match (file(rt, &asked.design), file(rt, &asked.definitions)) {
        (Some(design), Some(definitions)) => put_timed(rt, asked, &design, &definitions, given),
        _ => given.put("no such file"),
    }
}
