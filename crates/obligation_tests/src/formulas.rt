//! What refinements owe, and where formulas are true, in the words of the cases.
use crate::asking::digest;
use crate::numbers::small;
use crate::texts::Question;
use crate::told::{Given, Owed};
use bv_terms::Terms;
use case_files::{Printer, first_word, last_line, number};
use cocoon_resolve::Checked;
use obligation_gen::{InlineFault, Obligation, all_obligations, obligations};
use std::alloc::Global;

/// What one level owes, if it has a block.
fn of_level(
    alloc: Global,
    checked: &Checked,
    level: u32,
    terms: &mut Terms,
) -> Option<Result<Vec<Obligation>, InlineFault>> {
    if level < 1 || level >= checked.levels() {
        return None;
    }
    Some(obligations(alloc, checked, level, terms))
}

/// What a level owes, or the whole design, if no level is said.
fn owed(alloc: Global, checked: &Checked, level: &str) -> Option<Result<Owed, InlineFault>> {
    let mut terms = Terms::new(alloc);
    let all = if level.is_empty() {
        all_obligations(alloc, checked, &mut terms)
    } else {
        let level = u32::from(small(level)?);
        of_level(alloc, checked, level, &mut terms)?
    };
    Some(match all {
        Ok(all) => Ok(Owed { terms, all }),
        Err(fault) => Err(fault),
    })
}

/// What is asked of obligations that are there.
#[derive(Drop)]
struct Asked<'q> {
    question: &'q Question,
    owed: Owed,
}

impl Asked<'_> {
    /// Puts all obligations, with this text behind each but the last, or behind each.
    fn put_all(&self, alloc: Global, line: &str, given: &mut Printer) -> Option<()> {
        let mut at = Given::read(alloc, self.question, line)?;
        let mut between = "";
        for one in &self.owed.all {
            given.put(between);
            let checked = &self.question.checked;
            self.owed.put_one(alloc, checked, one, &mut at, given)?;
            between = " ; ";
        }
        if self.owed.all.is_empty() {
            given.put("none");
        }
        Some(())
    }

    /// Puts one obligation, by its place among all.
    fn put_place(&self, alloc: Global, line: &str, place: u64, given: &mut Printer) -> Option<()> {
        let mut at = Given::read(alloc, self.question, line)?;
        let one = self.owed.all.get(place as usize)?;
        let checked = &self.question.checked;
        self.owed.put_one(alloc, checked, one, &mut at, given)
    }

    fn put_digest(&self, alloc: Global, line: &str, given: &mut Printer) -> Option<()> {
        let mut text = Printer::new(alloc);
        self.put_all(alloc, line, &mut text)?;
        given.put_number(digest(text.text()));
        given.lose_with(&text);
        Some(())
    }

    /// Puts how many obligations there are, and in how many terms.
    fn put_terms(&self, given: &mut Printer) {
        given.put_number(self.owed.all.len() as u64);
        given.put(" in ");
        given.put_number(u64::from(self.owed.terms.count()));
    }

    fn put(&self, alloc: Global, line: &str, kind: &str, given: &mut Printer) -> Option<()> {
        match kind {
            "count" => given.put_number(self.owed.all.len() as u64),
            "terms" => self.put_terms(given),
            "owed" => return self.put_all(alloc, line, given),
            "digest" => return self.put_digest(alloc, line, given),
            _ => return self.put_place(alloc, line, number(kind)?, given),
        }
        Some(())
    }
}

/// Puts what is asked of the obligations of a question.
fn put_of(
    alloc: Global,
    question: &Question,
    line: &str,
    words: &str,
    given: &mut Printer,
) -> Option<()> {
    let (kind, level) = first_word(words);
    match owed(alloc, &question.checked, level)? {
        Ok(owed) => Asked { question, owed }.put(alloc, line, kind, given)?,
        Err(InlineFault::Paths(count)) => {
            given.put("over ");
            given.put_number(count);
        }
        Err(InlineFault::NoMemory) => given.put("no memory"),
    }
    Some(())
}

/// Puts what is asked of the obligations of the design in the last line `design`, with these declarations in it: `WORD :: DECLARATIONS`
/// of the whole design, or `WORD LEVEL :: DECLARATIONS` of a level.
pub fn put_formulas(rt: &HostRuntime, above: &str, asked: &str, given: &mut Printer) {
    let (words, declared) = asked.split_once(" :: ").unwrap_or((asked, ""));
    let Some(question) = Question::read(rt, above, declared) else {
        return given.put("no design");
    };
    let line = last_line(above, "numbers").unwrap_or_default();
    if put_of(rt.alloc(), &question, line, words, given).is_none() {
        given.put("nothing asked");
    }
}
