//! Instances and logs, as cases write them.
use case_files::{number, numbers};
use cnf_core::{Cert, Clause, Instance, Lit, Literals, Log, Step};
use cocoon_num::List;
use std::alloc::Global;

/// The instance `ASSUMPTION:VALUE,VALUE`.
fn instance(alloc: Global, word: &str) -> Option<Instance> {
    let (assumption, values) = word.split_once(':')?;
    Some(Instance {
        number: u32::try_from(number(assumption)?).ok()?,
        values: List::from(numbers(alloc, values, ',')?),
    })
}

fn instances(alloc: Global, words: &str) -> Option<List<Instance>> {
    let mut instances = Vec::new(alloc);
    for word in words.split_ascii_whitespace() {
        instances.push(instance(alloc, word)?).ok()?;
    }
    Some(List::from(instances))
}

/// A number of an `i32` that is not zero.
fn literal(word: &str) -> Option<Lit> {
    let (digits, is_negative) = match word.strip_prefix("-") {
        Some(digits) => (digits, true),
        None => (word, false),
    };
    let number = i32::try_from(number(digits)?).ok()?;
    if number <= 0 {
        return None;
    }
    Some(Lit {
        number: if is_negative { -number } else { number },
    })
}

fn clause(alloc: Global, words: &str) -> Option<Clause> {
    let mut lits = Vec::new(alloc);
    for word in words.split_ascii_whitespace() {
        lits.push(literal(word)?).ok()?;
    }
    Some(Clause {
        lits: Literals::from(lits),
    })
}

fn hints(alloc: Global, words: &str) -> Option<List<u32>> {
    let mut hints = Vec::new(alloc);
    for word in words.split_ascii_whitespace() {
        let hint = u32::try_from(number(word)?).ok()?;
        hints.push(hint).ok()?;
    }
    Some(List::from(hints))
}

/// The steps `LITERALS : HINTS;`, one after another.
fn log(alloc: Global, text: &str) -> Option<Log> {
    let mut steps = Vec::new(alloc);
    for step in text.split_terminator(';') {
        let (lits, numbers) = step.split_once(':')?;
        let clause = clause(alloc, lits)?;
        let hints = hints(alloc, numbers)?;
        steps.push(Step { clause, hints }).ok()?;
    }
    Some(Log {
        steps: List::from(steps),
    })
}

/// The certificate `INSTANCES / STEPS`. Without a `/` it has no steps.
pub fn cert(alloc: Global, text: &str) -> Option<Cert> {
    let (words, steps) = text.split_once('/').unwrap_or((text, ""));
    Some(Cert {
        instances: instances(alloc, words)?,
        log: log(alloc, steps.trim())?,
    })
}
