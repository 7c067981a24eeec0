//! Terms with choices over the rows of tables, beside what else gives their values.
use crate::drafts::Draft;
use crate::fitting::{tables_fit, value};
use crate::questions::{term, value_at};
use crate::random::Generator;
use crate::tables::tables;
use crate::texts::Question;
use bv_terms::{Env, TermId, Terms, with_defs};
use case_files::{Printer, first_word, last_line, number};
use cocoon_num::{Bits, FunTable, List};
use std::alloc::Global;

/// Where a term comes from, and its values: words, with tables; or the question of a design, with definitions.
#[derive(Drop)]
enum Origin {
    Words(TermId, Env),
    Question(Question),
}

/// A term with choices over the rows of tables.
#[derive(Drop)]
struct Compared {
    draft: Draft,
    chosen: TermId,
    /// How many terms were put in for the choices.
    more: u32,
    origin: Origin,
}

fn env(inputs: Vec<Bits>, tables: Vec<Option<FunTable>>) -> Env {
    Env {
        inputs: List::from(inputs),
        tables: List::from(tables),
    }
}

fn with_choices(
    alloc: Global,
    term: TermId,
    tables: &[Option<FunTable>],
    terms: &mut Terms,
) -> Option<TermId> {
    if tables_fit(alloc, terms, tables, term) {
        with_defs(alloc, term, tables, terms).ok()
    } else {
        None
    }
}

impl Origin {
    fn tables(&self) -> &[Option<FunTable>] {
        match self {
            Origin::Words(_, env) => env.tables.items(),
            Origin::Question(question) => question.defs.tables(),
        }
    }

    /// The value at these numbers, where these are the terms of the words.
    fn value(&mut self, alloc: Global, terms: &Terms, numbers: &[Bits]) -> Option<Bits> {
        match self {
            Origin::Words(term, env) => {
                env.inputs = List::from(Vec::from_slice(alloc, numbers).ok()?);
                value(alloc, terms, *term, env)
            }
            Origin::Question(question) => value_at(alloc, question, numbers),
        }
    }
}

impl Compared {
    fn new(alloc: Global, draft: Draft, term: TermId, origin: Origin) -> Option<Compared> {
        let mut draft = draft;
        let before = draft.terms.count();
        let chosen = with_choices(alloc, term, origin.tables(), &mut draft.terms)?;
        let more = draft.terms.count().saturating_sub(before);
        Some(Compared {
            draft,
            chosen,
            more,
            origin,
        })
    }

    /// The term of words for the tables of a line.
    fn of_words(alloc: Global, line: &str, words: &str) -> Option<Compared> {
        let tables = tables(alloc, line)?;
        let mut draft = Draft::new(alloc);
        let term = draft.read(words)?;
        let origin = Origin::Words(term, env(Vec::new(alloc), tables));
        Compared::new(alloc, draft, term, origin)
    }

    /// The term of the question that these declarations end with.
    fn of_question(rt: &HostRuntime, above: &str, declared: &str) -> Option<Compared> {
        let alloc = rt.alloc();
        let question = Question::read(rt, above, declared)?;
        let mut draft = Draft::new(alloc);
        let term = term(alloc, &question, &mut draft).ok()??;
        Compared::new(alloc, draft, term, Origin::Question(question))
    }

    fn read(rt: &HostRuntime, above: &str, words: &str) -> Option<Compared> {
        match last_line(above, "tables") {
            Some(line) => Compared::of_words(rt.alloc(), line, words),
            None => Compared::of_question(rt, above, words),
        }
    }

    /// The value of the term with choices at these numbers, and the one that it is to have.
    fn values(&mut self, alloc: Global, numbers: Vec<Bits>) -> Option<(Bits, Bits)> {
        let wanted = self.origin.value(alloc, &self.draft.terms, &numbers)?;
        let env = env(numbers, Vec::new(alloc));
        let found = value(alloc, &self.draft.terms, self.chosen, &env)?;
        Some((found, wanted))
    }

    /// Puts the value of the term with choices at these numbers, with a `!` if it is another one than it is to be.
    fn put_value(&mut self, alloc: Global, word: &str, given: &mut Printer) -> Option<()> {
        let numbers = self.draft.numbers(alloc, word)?;
        let (found, wanted) = self.values(alloc, numbers)?;
        if found != wanted {
            given.put("!");
        }
        given.put_bits(found.width, found.value);
        Some(())
    }

    /// At how many of so many numbers the term with choices has the value that it is to have.
    fn agreeing(&mut self, alloc: Global, generator: &mut Generator, count: u64) -> Option<u64> {
        let mut agreeing: u64 = 0;
        for _ in 0..count {
            let numbers = self.draft.drawn(alloc, generator)?;
            let (found, wanted) = self.values(alloc, numbers)?;
            if found == wanted {
                agreeing = agreeing.saturating_add(1);
            }
        }
        Some(agreeing)
    }
}

/// Puts whether the second term is the first with choices, and how many terms were put in: `WORDS ; WORDS`.
pub(crate) fn put_same(alloc: Global, above: &str, words: &str, given: &mut Printer) {
    let (first, second) = words.split_once(';').unwrap_or((words, ""));
    let line = last_line(above, "tables").unwrap_or_default();
    let Some(mut compared) = Compared::of_words(alloc, line, first) else {
        return given.put("no term");
    };
    given.put(if compared.draft.read(second) == Some(compared.chosen) {
        "same with "
    } else {
        "another with "
    });
    given.put_number(u64::from(compared.more));
}

/// Puts the values of a term with choices, one for each tuple of the last line `numbers`.
pub(crate) fn put_values(rt: &HostRuntime, above: &str, words: &str, given: &mut Printer) {
    let Some(mut compared) = Compared::read(rt, above, words) else {
        return given.put("no term");
    };
    let mut is_first = true;
    for word in last_line(above, "numbers").unwrap_or_default().split(' ') {
        if !is_first {
            given.put(" ");
        }
        if compared.put_value(rt.alloc(), word, given).is_none() {
            given.put("no value");
        }
        is_first = false;
    }
}

fn agreeing(rt: &HostRuntime, above: &str, asked: &str) -> Option<u64> {
    let (seed, rest) = first_word(asked);
    let (count, words) = first_word(rest);
    let mut compared = Compared::read(rt, above, words)?;
    let mut generator = Generator::new(number(seed)?);
    compared.agreeing(rt.alloc(), &mut generator, number(count)?)
}

/// Puts at how many numbers a term with choices has the value that it is to have: `SEED COUNT WORDS`.
pub(crate) fn put_agreeing(rt: &HostRuntime, above: &str, asked: &str, given: &mut Printer) {
    match agreeing(rt, above, asked) {
        Some(count) => given.put_number(count),
        None => given.put("no term"),
    }
}
