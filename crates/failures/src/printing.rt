//! Whole reports of failures.
ghost use Rattle.std.specs.Prelude.{◌≡◌, codes, IfOk};
ghost use Rattle.cocoon_syntax.specs.TreeOf.{design_of};
ghost use Rattle.runtime_defs.specs.EntryPlaces.{defs_text};
ghost use Rattle.text_lines.specs.Printing.{Prints};
ghost use Rattle.failures.specs.Found.{FailureFits, failure_of};
ghost use Rattle.failures.specs.FailureTexts as spec;
ghost use Rattle.failures.specs.Told.{Tells};

use crate::Failure;
use crate::leading_lines::{push_first, push_run};
use cocoon_num::{NoMemory, Text};
use cocoon_resolve::Checked;
use std::alloc::Global;
use text_lines::Printer;

/// The lines of a failure, and this text of its definitions.
fn push_all(
    alloc: Global,
    checked: &Checked,
    word: &str,
    level: u32,
    leaf: u32,
    failure: &Failure,
    defs: &Text,
    out: &mut Printer,
)
    requires { FailureFits level (design_of checked.now) failure.now }
    ensures { Prints out.old (spec.failure_text word.now level leaf
        (failure_of (design_of checked.now) failure.now) defs.now) out.new }
{
    push_first(checked, word, level, failure.at.role, leaf, out);
    push_run(alloc, checked, level, failure, out);
    out.push_name(defs);
}

/// The lines of a failure, and the text of its definitions.
fn text(
    alloc: Global,
    checked: &Checked,
    word: &str,
    level: u32,
    leaf: u32,
    failure: &Failure,
) -> Result<Vec<u8>, NoMemory>
    requires { FailureFits level (design_of checked.now) failure.now }
    ensures text { IfOk result (λ text. text.items ≡ spec.failure_text word.now level leaf
        (failure_of (design_of checked.now) failure.now)
        (defs_text (design_of checked.now) failure.now.defs)) }
    ensures tells { IfOk result (λ text. Tells (design_of checked.now) word.now level leaf
        (failure_of (design_of checked.now) failure.now) text.items) }
{
    let defs = failure.defs.text(alloc, checked)?;
    let mut out = Printer::new(alloc);
    push_all(alloc, checked, word, level, leaf, failure, &defs, &mut out);
    out.finish()
}

/// The report of a block of this level that is not contained: the leaf of this number, counted from 0
/// among those of the role's tree, and the run, line by line; and then the definitions, as a text that
/// reads as definitions of the design.
pub fn refuted_text(
    alloc: Global,
    checked: &Checked,
    level: u32,
    leaf: u32,
    failure: &Failure,
) -> Result<Vec<u8>, NoMemory>
    requires { FailureFits level (design_of checked.now) failure.now }
    ensures text { IfOk result (λ text. text.items ≡ spec.failure_text (codes "refuted") level leaf
        (failure_of (design_of checked.now) failure.now)
        (defs_text (design_of checked.now) failure.now.defs)) }
    ensures tells { IfOk result (λ text. Tells (design_of checked.now) (codes "refuted") level leaf
        (failure_of (design_of checked.now) failure.now) text.items) }
{
    text(alloc, checked, "refuted", level, leaf, failure)
}

/// The report of a block of this level that is not bounded, likewise.
pub fn over_text(
    alloc: Global,
    checked: &Checked,
    level: u32,
    leaf: u32,
    failure: &Failure,
) -> Result<Vec<u8>, NoMemory>
    requires { FailureFits level (design_of checked.now) failure.now }
    ensures text { IfOk result (λ text. text.items ≡ spec.failure_text (codes "hopbound") level leaf
        (failure_of (design_of checked.now) failure.now)
        (defs_text (design_of checked.now) failure.now.defs)) }
    ensures tells { IfOk result (λ text. Tells (design_of checked.now) (codes "hopbound") level leaf
        (failure_of (design_of checked.now) failure.now) text.items) }
{
    text(alloc, checked, "hopbound", level, leaf, failure)
}
