//! Numbers in lines.
ghost use Rattle.std.specs.Prelude.{decimal};
ghost use Rattle.text_lines.specs.Printing.{Prints};
ghost use Rattle.failures.specs.FailureTexts.{list_text, number_text, spaced};

use std::alloc::Global;
use text_lines::Printer;

#[tactic(auto, using(text_lines::proofs::Printing::lost))]
fn push_number(alloc: Global, number: u64, out: &mut Printer)
    ensures { Prints out.old (decimal number) out.new }
{
    match number.to_string(alloc) {
        Ok(digits) => out.push(&digits),
        Err(_) => out.lose(),
    }
}

/// A number behind a blank.
fn push_spaced(alloc: Global, number: u64, out: &mut Printer)
    ensures { Prints out.old (number_text number) out.new }
{
    out.push(" ");
    push_number(alloc, number, out);
}

/// Some numbers, each behind a blank.
fn push_numbers(alloc: Global, numbers: &[u64], out: &mut Printer)
    ensures { Prints out.old (spaced numbers.now) out.new }
{
    for number in numbers {
        push_spaced(alloc, *number, out);
    }
}

/// A list of numbers behind a blank, or `-` if it is empty.
pub(crate) fn push_list(alloc: Global, numbers: &[u64], out: &mut Printer)
    ensures { Prints out.old (list_text numbers.now) out.new }
{
    if numbers.is_empty() {
        out.push(" -");
    } else {
        push_numbers(alloc, numbers, out);
    }
}
