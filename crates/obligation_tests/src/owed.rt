//! The obligations of a design, and what cases ask of them.
ghost use Rattle.std.specs.Prelude.{IfSome};
ghost use Rattle.cocoon_syntax.specs.TreeOf.{design_of};
ghost use Rattle.obligation_gen.specs.Owed.{IsOwed};
ghost use Rattle.obligation_gen.specs.Shown.{ShowsObligations};
ghost use Rattle.obligation_laws.specs.Obligations as laws;

use crate::asking::{put_asked_with, put_every};
use crate::deciding::{Allowed, put_verdict, put_verdicts};
use crate::instances::put_instances;
use crate::texts::checked_design;
use crate::told::Owed;
use bv_terms::Terms;
use case_files::{Printer, first_word, last_line, number, put_expanded};
use cocoon_resolve::Checked;
use obligation_gen::{Obligation, all_obligations};
use std::alloc::Global;

fn made(alloc: Global, checked: &Checked) -> Option<Owed>
    ensures { IfSome result (λ owed. ShowsObligations (design_of checked.now) owed.terms
        owed.all.items (laws.all_obligations (design_of checked.now))) }
{
    let mut terms = Terms::new(alloc);
    let all = all_obligations(alloc, checked, &mut terms).ok()?;
    Some(Owed { terms, all })
}

/// The obligation of a number.
pub fn obligation<'o>(
    checked: &Checked,
    terms: &Terms,
    all: &'o [Obligation],
    number: usize,
) -> Option<&'o Obligation>
    requires { ShowsObligations (design_of checked.now) terms.now all.now
        (laws.all_obligations (design_of checked.now)) }
    ensures { IfSome result (λ o. IsOwed (design_of checked.now) terms.now o.now) }
{
    all.get(number)
}

/// The numbers `CONFLICTS ROUNDS`; a number that is not there is 0.
fn allowed(words: &str) -> Allowed {
    let (conflicts, rounds) = first_word(words);
    Allowed {
        conflicts: number(conflicts).unwrap_or_default(),
        rounds: u32::try_from(number(rounds).unwrap_or_default()).unwrap_or_default(),
    }
}

/// Puts the answer to a question of an obligation, `WORD REST`.
fn put_about(
    alloc: Global,
    checked: &Checked,
    terms: &mut Terms,
    obligation: &Obligation,
    question: (&str, &str),
    given: &mut Printer,
)
    requires { IsOwed (design_of checked.now) terms.old obligation.now }
{
    let (word, rest) = question;
    match word {
        "decide" => put_verdict(alloc, checked, terms, obligation, allowed(rest), given),
        "instances" => put_instances(alloc, checked, terms, obligation, given),
        _ => put_asked_with(alloc, checked, terms, obligation, question, given),
    }
}

/// Puts the answer to a question, `owed`, `every`, `verdicts COUNT CONFLICTS`, or `WORD NUMBER REST` of the obligation of a number.
fn put_asked(alloc: Global, checked: &Checked, words: &str, given: &mut Printer) {
    let Some(Owed { mut terms, all }) = made(alloc, checked) else {
        return given.put("no obligations");
    };
    let (word, rest) = first_word(words);
    let (digits, rest) = first_word(rest);
    let at = number(digits).unwrap_or_default() as usize;
    match word {
        "owed" => given.put_number(all.len() as u64),
        "every" => put_every(alloc, checked, &terms, &all, given),
        "verdicts" => put_verdicts(alloc, checked, &terms, &all, at, allowed(rest), given),
        _ => match obligation(checked, &terms, &all, at) {
            Some(one) => put_about(alloc, checked, &mut terms, one, (word, rest), given),
            None => given.put("no obligation"),
        },
    }
}

/// Puts the answer to a question of the design of a text.
fn put_answer(alloc: Global, design: &[u8], words: &str, given: &mut Printer) {
    match checked_design(alloc, design) {
        Some(checked) => put_asked(alloc, &checked, words, given),
        None => given.put("no design"),
    }
}

/// The same of the design in the last line `design`.
pub fn put_owed(rt: &HostRuntime, above: &str, asked: &str, given: &mut Printer) {
    let alloc = rt.alloc();
    let mut design = Printer::new(alloc);
    let text = last_line(above, "design").unwrap_or_default();
    put_expanded(rt, text, &mut design);
    let mut words = Printer::new(alloc);
    put_expanded(rt, asked, &mut words);
    put_answer(alloc, design.text().as_bytes(), words.text(), given);
    given.lose_with(&design);
    given.lose_with(&words);
}
