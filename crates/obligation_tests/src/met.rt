//! Whether definitions meet the assumptions of a design, in the words of the cases.
ghost use Rattle.cocoon_syntax.specs.TreeOf.{design_of};
ghost use Rattle.runtime_defs.specs.Fitting.{FitsDesign};

use crate::texts::{checked_design, definitions};
use case_files::{Printer, first_word, last_line, number, put_expanded, put_framed};
use cocoon_num::NoMemory;
use cocoon_resolve::Checked;
use discharge::{Budget, Met, meets};
use runtime_defs::Defs;
use std::alloc::Global;

/// A budget has fewer conflicts than this.
const MANY: u64 = 1 << 31;

/// Puts the values of a tuple with blanks before them, or `-` for none.
fn put_values(values: &[u64], given: &mut Printer) {
    if values.is_empty() {
        given.put(" -");
    }
    for value in values {
        given.put(" ");
        given.put_number(*value);
    }
}

/// Puts a word, and the number of an assumption.
fn put_numbered(word: &str, number: u32, given: &mut Printer) {
    given.put(word);
    given.put_number(u64::from(number));
}

/// Puts an answer, as `yes` or `broken 0 at 7 9`.
fn put_answer(met: Met, given: &mut Printer) {
    match met {
        Met::Yes => given.put("yes"),
        Met::Broken(number, values) => {
            put_numbered("broken ", number, given);
            given.put(" at");
            put_values(values.items(), given);
        }
        Met::SpentConflicts(number, vars, log) => {
            put_numbered("spent ", number, given);
            put_numbered(" with ", vars, given);
            given.put(" variables in ");
            given.put_number(log.steps.items().len() as u64);
            given.put(" steps");
        }
        Met::Big(number, count) => {
            put_numbered("large ", number, given);
            given.put(" with ");
            given.put_number(count);
            given.put(" clauses");
        }
    }
}

/// Puts what comes of asking with so many conflicts.
fn put_asked(alloc: Global, checked: &Checked, defs: &Defs, conflicts: u64, given: &mut Printer)
    requires { FitsDesign (design_of checked.now) defs.now }
{
    if conflicts < 1 || conflicts >= MANY {
        given.put("no budget");
        return;
    }
    let budget = Budget {
        conflicts,
        rounds: 1,
    };
    match meets(alloc, checked, defs, &budget) {
        Ok(met) => put_answer(met, given),
        Err(NoMemory) => given.put("no memory"),
    }
}

/// Puts whether the definitions of a text meet the assumptions of the design of a text, with so many conflicts.
fn put_of_texts(alloc: Global, design: &[u8], text: &[u8], conflicts: &str, given: &mut Printer) {
    let conflicts = number(conflicts).unwrap_or_default();
    match checked_design(alloc, design) {
        Some(checked) => match definitions(alloc, &checked, text) {
            Some(defs) => put_asked(alloc, &checked, &defs, conflicts, given),
            None => given.put("no definitions"),
        },
        None => given.put("no design"),
    }
}

/// The same of the design of the frame in the last line `design`, with these declarations in it, and of the definitions in the last
/// line `definitions`: `CONFLICTS DECLARATIONS`.
pub fn put_met(rt: &HostRuntime, above: &str, asked: &str, given: &mut Printer) {
    let alloc = rt.alloc();
    let (conflicts, declared) = first_word(asked);
    let mut design = Printer::new(alloc);
    let frame = last_line(above, "design").unwrap_or("...");
    put_framed(rt, frame, declared, &mut design);
    let mut definitions = Printer::new(alloc);
    let text = last_line(above, "definitions").unwrap_or_default();
    put_expanded(rt, text, &mut definitions);
    let (design_text, text) = (design.text().as_bytes(), definitions.text().as_bytes());
    put_of_texts(alloc, design_text, text, conflicts, given);
    given.lose_with(&design);
    given.lose_with(&definitions);
}
