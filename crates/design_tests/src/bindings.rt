//! What is asked of definitions.
ghost use Rattle.std.specs.Prelude.{◌≡◌, IfSome, IsTrue, length, option_map};
ghost use Rattle.cocoon_syntax.specs.TreeOf.{design_of};
ghost use Rattle.runtime_defs.specs.Fitting.{FitsDesign};
ghost use Rattle.runtime_defs.specs.Places.{table_at, TakesArgs};

use crate::budgets::put_file;
use crate::faults::put_fault;
use crate::reading::{TOO_LONG, checked_design};
use crate::same::are_same_tables;
use case_files::{Printer, first_word, last_line, numbers, put_framed};
use cocoon_num::{FunTable, NoMemory, Text};
use cocoon_resolve::Checked;
use cocoon_text::read_defs;
use declarations::FunId;
use runtime_defs::{Defs, bind};
use std::alloc::Global;

/// The definitions of a text. Puts why there are none.
pub fn bound(alloc: Global, checked: &Checked, text: &[u8], given: &mut Printer) -> Option<Defs>
    ensures { IfSome result (λ defs. FitsDesign (design_of checked.now) defs) }
{
    if text.len() >= TOO_LONG {
        given.put("too long");
        return None;
    }
    match read_defs(alloc, text) {
        Ok(entries) => match bind(alloc, checked, entries) {
            Ok(defs) => Some(defs),
            Err(fault) => {
                put_fault(fault, given);
                None
            }
        },
        Err(_) => {
            given.put("no tree");
            None
        }
    }
}

/// Puts a text, with a blank for each line feed.
fn put_lines(text: &Text, given: &mut Printer) {
    let mut is_first = true;
    for line in text.bytes().split(|byte| *byte == b'\n') {
        if !is_first && !line.is_empty() {
            given.put(" ");
        }
        given.put_bytes(line);
        is_first = false;
    }
}

/// Puts the text of definitions, and whether it reads back as others.
fn put_printed(alloc: Global, checked: &Checked, defs: &Defs, given: &mut Printer)
    requires { FitsDesign (design_of checked.now) defs.now }
{
    match defs.text(alloc, checked) {
        Ok(text) => {
            put_lines(&text, given);
            put_other(alloc, checked, defs, &text, given);
        }
        Err(NoMemory) => given.lose(),
    }
}

/// Puts that a text reads as other definitions, where it does.
fn put_other(alloc: Global, checked: &Checked, defs: &Defs, text: &Text, given: &mut Printer) {
    if let Some(read) = bound(alloc, checked, text.bytes(), given)
        && !are_same_tables(defs.tables(), read.tables())
    {
        given.put(", which reads as others");
    }
}

/// Puts numbers with blanks between them, or `none`.
fn put_numbers(numbers: &[u64], given: &mut Printer) {
    if numbers.is_empty() {
        given.put("none");
    }
    for at in 0..numbers.len() {
        put_separated(at, numbers[at], given);
    }
}

fn put_short_numbers(numbers: &[u16], given: &mut Printer) {
    if numbers.is_empty() {
        given.put("none");
    }
    for at in 0..numbers.len() {
        put_separated(at, u64::from(numbers[at]), given);
    }
}

fn put_separated(at: usize, number: u64, given: &mut Printer) {
    if at > 0 {
        given.put(" ");
    }
    given.put_number(number);
}

/// The table of the function of a number.
fn table_of(tables: &[Option<FunTable>], function: FunId) -> Option<&FunTable>
    ensures { option_map (λ t. t.now) result ≡ table_at tables.now function }
{
    tables.get(function as usize)?.as_ref()
}

/// Whether the function of this number has a table, and so many parameters.
pub fn takes(defs: &Defs, function: FunId, count: usize) -> bool
    ensures { IsTrue result → TakesArgs defs.now function count }
{
    match table_of(defs.tables(), function) {
        Some(table) => table.widths.items().len() == count,
        None => false,
    }
}

/// Puts the value of a function at some numbers, as `8w3`.
fn put_value(checked: &Checked, defs: &Defs, name: &str, args: &[u64], given: &mut Printer) {
    match checked.function_of(name.as_bytes()) {
        Some(function) if takes(defs, function, args.len()) => {
            let value = defs.look(function, args);
            given.put_bits(value.width, value.value);
        }
        _ => given.put("no such function"),
    }
}

/// Puts the value of a function at some numbers, which stand behind its name.
fn put_look(alloc: Global, checked: &Checked, defs: &Defs, asked: &str, given: &mut Printer) {
    let (name, words) = first_word(asked);
    match numbers(alloc, words, ' ') {
        Some(args) => put_value(checked, defs, name, &args, given),
        None => given.put("no numbers"),
    }
}

/// Puts what is asked of definitions.
fn put_asked(alloc: Global, checked: &Checked, defs: &Defs, question: &str, given: &mut Printer)
    requires { FitsDesign (design_of checked.now) defs.now }
{
    let (word, rest) = first_word(question);
    match word {
        "text" => put_printed(alloc, checked, defs, given),
        "hosts" => put_numbers(defs.hosts(checked), given),
        "switches" => put_short_numbers(defs.switches(checked), given),
        "look" => put_look(alloc, checked, defs, rest, given),
        "file" => put_file(alloc, checked, defs, rest, given),
        _ => given.put("no such question"),
    }
}

/// Puts the answer to a question about the definitions of a text, or why there are none.
fn put_answer(alloc: Global, design: &[u8], question: &str, text: &[u8], given: &mut Printer) {
    match checked_design(alloc, design) {
        Some(checked) => {
            if let Some(defs) = bound(alloc, &checked, text, given) {
                put_asked(alloc, &checked, &defs, question, given);
            }
        }
        None => given.put("no design"),
    }
}

/// The same of the definitions that a case asks, in the frame in the last line `text`.
pub fn put_of_definitions(
    rt: &HostRuntime,
    design: &[u8],
    above: &str,
    question: &str,
    asked: &str,
    given: &mut Printer,
) {
    let mut text = Printer::new(rt.alloc());
    let frame = last_line(above, "text").unwrap_or("...");
    put_framed(rt, frame, asked, &mut text);
    put_answer(rt.alloc(), design, question, text.text().as_bytes(), given);
    given.lose_with(&text);
}
