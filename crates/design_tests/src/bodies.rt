//! What is asked of a design and its definitions.
ghost use Rattle.cocoon_syntax.specs.TreeOf.{design_of};
ghost use Rattle.runtime_defs.specs.Fitting.{FitsDesign};

use crate::reading::{bound, checked_design};
use crate::segments::put_segment;
use crate::sends::put_send;
use case_files::{Printer, first_word, last_line, number, put_expanded};
use cocoon_resolve::Checked;
use runtime_defs::Defs;
use std::alloc::Global;

/// Puts what is asked at a level.
fn put_asked(
    alloc: Global,
    checked: &Checked,
    defs: &Defs,
    question: &str,
    asked: &str,
    given: &mut Printer,
)
    requires { FitsDesign (design_of checked.now) defs.now }
{
    let (word, rest) = first_word(question);
    let level = number(rest).and_then(|level| u32::try_from(level).ok());
    match (word, level) {
        ("send", Some(level)) => put_send(alloc, checked, defs, level, asked, given),
        ("follow", Some(above)) => put_segment(alloc, checked, defs, above, asked, given),
        _ => given.put("no such question"),
    }
}

/// Puts the answer to a question under the definitions of a text, or why there is none.
fn put_answer(
    alloc: Global,
    design: &[u8],
    definitions: &[u8],
    question: &str,
    asked: &str,
    given: &mut Printer,
) {
    let Some(checked) = checked_design(alloc, design) else {
        return given.put("no design");
    };
    match bound(alloc, &checked, definitions) {
        Some(defs) => put_asked(alloc, &checked, &defs, question, asked, given),
        None => given.put("no definitions"),
    }
}

/// The same under the definitions in the last line `text`.
pub fn put_of_bodies(
    rt: &HostRuntime,
    design: &[u8],
    above: &str,
    question: &str,
    asked: &str,
    given: &mut Printer,
) {
    let mut text = Printer::new(rt.alloc());
    put_expanded(rt, last_line(above, "text").unwrap_or_default(), &mut text);
    put_answer(
        rt.alloc(),
        design,
        text.text().as_bytes(),
        question,
        asked,
        given,
    );
    given.lose_with(&text);
}
