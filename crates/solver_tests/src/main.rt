//! Tries cases of terms, clauses, searches and logs. Each word names a file of cases, whose form docs/CASES.md describes. The
//! program prints what each case asks, below it what differs, and at the end how many cases there are.
//!
//! The clauses say what is made, found and accepted by definitions. Here lists that were written by hand, answers of other
//! solvers, and plain trials of values show that the definitions mean what was meant.
#![tactic(auto)]

mod building;
mod copies;
mod dimacs_texts;
mod drafts;
mod evaluating;
mod extending;
mod flattening;
mod goals;
mod known;
mod lists;
mod numbers;
mod reading;
mod searching;
mod values;

use case_files::{Printer, Subject, first_word, try_words};
use copies::put_copied;
use dimacs_texts::{Kind, put_searches, put_texts};
use flattening::{put_flat_applied, put_flat_clauses, put_flat_size};
use goals::{put_inputs, put_size, put_solutions};
use numbers::{put_needed, put_numbers, put_replaced, put_walk};
use std::process::ExitCode;
use values::put_values;

/// The cases, with the machine that has their files of data.
#[derive(Drop)]
struct Cases<'r> {
    rt: &'r HostRuntime,
}

impl<'r> Subject for Cases<'r> {
    fn is_line(&self, line: &str) -> bool {
        first_word(line).0 == "numbers"
    }

    fn answer(&self, above: &str, asked: &str, wanted: &str, given: &mut Printer) {
        let (word, rest) = first_word(asked);
        match word {
            "values" => put_values(self.rt.alloc(), above, rest, wanted, given),
            "solutions" => put_solutions(self.rt.alloc(), rest, given),
            "size" => put_size(self.rt.alloc(), rest, given),
            "flat" => put_flat_clauses(self.rt.alloc(), rest, given),
            "flat-size" => put_flat_size(self.rt.alloc(), rest, given),
            "applied" => put_flat_applied(self.rt.alloc(), rest, given),
            "inputs" => put_inputs(self.rt.alloc(), rest, given),
            "terms" => put_numbers(self.rt.alloc(), rest, given),
            "copied" => put_copied(self.rt.alloc(), rest, given),
            "needed" => put_needed(self.rt.alloc(), rest, given),
            "replaced" => put_replaced(self.rt.alloc(), rest, given),
            "walk" => put_walk(self.rt.alloc(), rest, numbers::Kind::All, given),
            "applications" => put_walk(self.rt.alloc(), rest, numbers::Kind::Applications, given),
            "lists" => put_texts(self.rt, Kind::List, rest, given),
            "logs" => put_texts(self.rt, Kind::Log, rest, given),
            "searches" => put_searches(self.rt, rest, given),
            _ => given.put("no case"),
        }
    }
}

fn main(rt: HostRuntime) -> ExitCode {
    try_words(&rt, &Cases { rt: &rt })
}
