//! Tries cases of terms that stand for parts of designs, and of what designs owe. Each word names a file of cases, whose form
//! docs/CASES.md describes. The program prints what each case asks, below it what differs, and at the end how many cases there are. With
//! the one word `recheck` it reads a design from the standard input, behind a line `certificates` the certificates, and prints whether
//! they are accepted. With the one word `certify` it reads a design alone, and prints its certificates.
//!
//! A line `ask` says what the cases of a file are about: terms of expressions, of tables and of bodies (`terms`), what refinements owe
//! (`formulas`), whether definitions meet assumptions (`assumptions`), queries and verdicts (`verdicts`), or files of certificates
//! (`certificates`).
//!
//! The clauses say what is made, owed, asked, found and accepted by definitions. Whether these mean what was meant they do not say, nor
//! that there is memory. Here the answers of an independent reading of the language, logs that another search made, and what was worked
//! out by hand show that.
#![tactic(auto)]

mod asking;
mod building;
mod certified;
mod certs;
mod compared;
mod copies;
mod deciding;
mod drafts;
mod fitting;
mod formulas;
mod inputs;
mod instances;
mod met;
mod names;
mod numbers;
mod owed;
mod questions;
mod random;
mod rechecked;
mod tables;
mod texts;
mod told;
mod trees;

use case_files::{Printer, Subject, first_word, last_line, print_of_input, sole_word, try_words};
use certified::put_certified;
use compared::{put_agreeing, put_same, put_values};
use formulas::put_formulas;
use met::put_met;
use owed::put_owed;
use questions::put_term;
use rechecked::{put_edited, put_of_input};
use std::process::ExitCode;
use trees::put_tree;

/// The cases, with the machine that has their files of data.
#[derive(Drop)]
struct Cases<'r> {
    rt: &'r HostRuntime,
}

impl<'r> Subject for Cases<'r> {
    fn is_line(&self, line: &str) -> bool {
        let (word, rest) = first_word(line);
        !rest.is_empty()
            && matches!(
                word,
                "ask" | "certs" | "definitions" | "design" | "numbers" | "tables"
            )
    }

    fn answer(&self, above: &str, asked: &str, _wanted: &str, given: &mut Printer) {
        match last_line(above, "ask") {
            Some("terms") => put_of_terms(self.rt, above, asked, given),
            Some("formulas") => put_formulas(self.rt, above, asked, given),
            Some("assumptions") => put_met(self.rt, above, asked, given),
            Some("verdicts") => put_owed(self.rt, above, asked, given),
            Some("certificates") => put_edited(self.rt, above, asked, given),
            _ => given.put("no such question"),
        }
    }
}

/// Puts the answer to a question of terms.
fn put_of_terms(rt: &HostRuntime, above: &str, asked: &str, given: &mut Printer) {
    let (word, rest) = first_word(asked);
    match word {
        "same" => put_same(rt.alloc(), above, rest, given),
        "term" => put_term(rt, above, rest, given),
        "values" => put_values(rt, above, rest, given),
        "leaves" | "leaf" | "digest" => put_tree(rt, above, word, rest, given),
        "agreeing" => put_agreeing(rt, above, rest, given),
        _ => given.put("no case"),
    }
}

fn main(rt: HostRuntime) -> ExitCode {
    let word = sole_word(&rt);
    match word.as_deref() {
        Some("recheck") => print_of_input(&rt, |input, answer| {
            put_of_input(rt.alloc(), input, answer);
        }),
        Some("certify") => print_of_input(&rt, |input, answer| {
            put_certified(rt.alloc(), input, answer);
        }),
        _ => try_words(&rt, &Cases { rt: &rt }),
    }
}
