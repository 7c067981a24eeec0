//! Clauses and logs, read from texts.
ghost use Rattle.std.specs.Prelude.{IsTrue};
ghost use Rattle.std.specs.List.{All};
ghost use Rattle.cnf_core.specs.Clauses.{literals};
ghost use Rattle.cnf_core.specs.Literals.{Names};
ghost use Rattle.cnf_core.specs.Satisfying.{WellNamed};

use case_files::{first_word, number};
use cnf_core::{Clause, Cnf, Lit, Literals, Log, Step};
use cocoon_num::List;
use std::alloc::Global;

/// A number of an `i32` that is not zero.
fn literal(word: &str) -> Option<Lit> {
    let (digits, is_negative) = match word.strip_prefix("-") {
        Some(digits) => (digits, true),
        None => (word, false),
    };
    let number = i32::try_from(number(digits)?).ok()?;
    if number <= 0 {
        return None;
    }
    Some(Lit {
        number: if is_negative { -number } else { number },
    })
}

/// Literals up to the word `0`, or to the end.
fn clause(alloc: Global, words: &str) -> Option<Clause> {
    let mut lits = Vec::new(alloc);
    for word in words.split_ascii_whitespace() {
        if word == "0" {
            break;
        }
        lits.push(literal(word)?).ok()?;
    }
    Some(Clause {
        lits: Literals::from(lits),
    })
}

fn hints(alloc: Global, words: &str) -> Option<List<u32>> {
    let mut hints = Vec::new(alloc);
    for word in words.split_ascii_whitespace() {
        let hint = u32::try_from(number(word)?).ok()?;
        hints.push(hint).ok()?;
    }
    Some(List::from(hints))
}

/// What is read so far.
#[derive(Drop)]
struct Reader {
    vars: u32,
    clauses: Vec<Clause>,
    steps: Vec<Step>,
}

impl Reader {
    /// Reads a line: a comment, the head `p cnf VARIABLES CLAUSES`, a clause, or a step `s LITERALS : HINTS`.
    fn read(&mut self, alloc: Global, line: &str) -> Option<()> {
        let (first, rest) = first_word(line);
        match first {
            "" | "c" => (),
            "p" => {
                let vars = rest.split_ascii_whitespace().nth(1)?;
                self.vars = u32::try_from(number(vars)?).ok()?;
            }
            "s" => {
                let (lits, numbers) = rest.split_once(':')?;
                let clause = clause(alloc, lits)?;
                let hints = hints(alloc, numbers)?;
                self.steps.push(Step { clause, hints }).ok()?;
            }
            _ => self.clauses.push(clause(alloc, line)?).ok()?,
        }
        Some(())
    }
}

/// Reads clauses as DIMACS writes them, each in a line of its own, and the steps of a log among them.
pub(crate) fn read(alloc: Global, text: &str) -> Option<(Cnf, Log)> {
    let mut reader = Reader {
        vars: 0,
        clauses: Vec::new(alloc),
        steps: Vec::new(alloc),
    };
    for line in text.lines() {
        reader.read(alloc, line)?;
    }
    let cnf = Cnf {
        vars: reader.vars,
        clauses: List::from(reader.clauses),
    };
    let log = Log {
        steps: List::from(reader.steps),
    };
    Some((cnf, log))
}

fn names(vars: u32, lit: Lit) -> bool
    ensures { IsTrue result → Names vars lit.number }
{
    lit.variable() >= 1 && lit.variable() <= vars
}

fn is_named(vars: u32, clause: &Clause) -> bool
    ensures { IsTrue result → All (Names vars) (literals clause.now) }
{
    for lit in clause.lits.items() {
        if !names(vars, *lit) {
            return false;
        }
    }
    true
}

/// Whether all literals name variables that are there.
pub(crate) fn is_well_named(cnf: &Cnf) -> bool
    ensures { IsTrue result → WellNamed cnf.now }
{
    for clause in cnf.clauses.items() {
        if !is_named(cnf.vars, clause) {
            return false;
        }
    }
    cnf.vars < 1 << 31
}
