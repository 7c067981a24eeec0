//! Files of spent budgets. Numbers, instances and logs stand in the question as JSON.
ghost use Rattle.cocoon_syntax.specs.TreeOf.{design_of};
ghost use Rattle.runtime_defs.specs.Fitting.{FitsDesign};

use case_files::{Printer, first_word};
use cert_text::{LogJson, candidate_file, given_file, obligation_file, rounds_file};
use cnf_core::{Instance, Log};
use cocoon_num::NoMemory;
use cocoon_resolve::Checked;
use json_forms::{FromJson, value_of};
use runtime_defs::Defs;
use std::alloc::Global;

/// What comes of writing a file.
type Made = Result<Vec<u8>, NoMemory>;

/// What the first word stands for, and the words behind it.
fn read<'w, T: FromJson<LogJson>>(alloc: Global, words: &'w str) -> Option<(T, &'w str)> {
    let (word, rest) = first_word(words);
    let value = value_of(alloc, word.as_bytes()).ok()?;
    let found = T::from_json(alloc, &value).ok()?;
    Some((found?, rest))
}

/// `given NUMBER LOG`
fn of_given(alloc: Global, checked: &Checked, defs: &Defs, words: &str) -> Option<Made>
    requires { FitsDesign (design_of checked.now) defs.now }
{
    let (number, words) = read::<u32>(alloc, words)?;
    let (log, _) = read::<Log>(alloc, words)?;
    Some(given_file(alloc, checked, number, defs, &log))
}

/// `obligation NUMBER INSTANCES LOG`
fn of_obligation(alloc: Global, words: &str) -> Option<Made> {
    let (number, words) = read::<u32>(alloc, words)?;
    let (instances, words) = read::<Vec<Instance>>(alloc, words)?;
    let (log, _) = read::<Log>(alloc, words)?;
    Some(obligation_file(alloc, number, &instances, &log))
}

/// `candidate NUMBER OBLIGATION INSTANCES LOG`
fn of_candidate(alloc: Global, checked: &Checked, defs: &Defs, words: &str) -> Option<Made>
    requires { FitsDesign (design_of checked.now) defs.now }
{
    let (number, words) = read::<u32>(alloc, words)?;
    let (obligation, words) = read::<u32>(alloc, words)?;
    let (instances, words) = read::<Vec<Instance>>(alloc, words)?;
    let (log, _) = read::<Log>(alloc, words)?;
    Some(candidate_file(alloc, checked, number, defs, obligation, &instances, &log))
}

/// `rounds OBLIGATION INSTANCES`
fn of_rounds(alloc: Global, words: &str) -> Option<Made> {
    let (obligation, words) = read::<u32>(alloc, words)?;
    let (instances, _) = read::<Vec<Instance>>(alloc, words)?;
    Some(rounds_file(alloc, obligation, &instances))
}

/// Puts the file that is asked for.
pub fn put_file(alloc: Global, checked: &Checked, defs: &Defs, asked: &str, given: &mut Printer)
    requires { FitsDesign (design_of checked.now) defs.now }
{
    let (kind, words) = first_word(asked);
    let file = match kind {
        "given" => of_given(alloc, checked, defs, words),
        "obligation" => of_obligation(alloc, words),
        "candidate" => of_candidate(alloc, checked, defs, words),
        "rounds" => of_rounds(alloc, words),
        _ => None,
    };
    match file {
        Some(Ok(bytes)) => given.put_bytes(&bytes),
        Some(Err(NoMemory)) => given.lose(),
        None => given.put("no such file"),
    }
}
