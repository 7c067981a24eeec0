//! Tries cases of designs under definitions. Each word names a file of cases, whose form docs/CASES.md describes. The program prints
//! what each case asks, below it what differs, and at the end how many cases there are. With the words `time DESIGN DEFINITIONS
//! FUNCTION COUNT` it binds the definitions, and looks so many numbers up.
//!
//! A line `ask` says what the cases below it ask: of definitions, what they are and give; of bodies, what they can send and where
//! segments lead.
//!
//! The clauses say what is bound, looked up, listed, printed, sent and followed by definitions. Whether these mean what was meant, no
//! clause says, nor that there is memory. So the cases are worked by hand, by the sections "Definitions", "A body's run" and
//! "Refinement" of docs/LANGUAGE.md.
#![tactic(auto)]

mod bindings;
mod bodies;
mod budgets;
mod faults;
mod places;
mod reading;
mod same;
mod segments;
mod sends;
mod timed;

use bindings::put_of_definitions;
use bodies::put_of_bodies;
use case_files::{Printer, Subject, file, first_word, last_line, print, try_words};
use std::process::ExitCode;
use timed::{Timed, put_time, timed_by_words};

/// The cases, with the machine that has their files of data.
#[derive(Drop)]
struct Cases<'r> {
    rt: &'r HostRuntime,
}

impl<'r> Subject for Cases<'r> {
    fn is_line(&self, line: &str) -> bool {
        let (word, rest) = first_word(line);
        !rest.is_empty() && matches!(word, "ask" | "design" | "text")
    }

    fn answer(&self, above: &str, asked: &str, _wanted: &str, given: &mut Printer) {
        let design = last_line(above, "design").unwrap_or_default();
        let Some(design) = file(self.rt, design) else {
            return given.put("no such design");
        };
        let question = last_line(above, "ask").unwrap_or_default();
        match first_word(question).0 {
            "send" | "follow" => {
                put_of_bodies(self.rt, &design, above, question, asked, given);
            }
            _ => put_of_definitions(self.rt, &design, above, question, asked, given),
        }
    }
}

/// Prints what the definitions are, and how often the function is true.
fn print_time(rt: &HostRuntime, asked: &Timed) -> ExitCode {
    let mut answer = Printer::new(rt.alloc());
    put_time(rt, asked, &mut answer);
    answer.put("\n");
    print(rt, &answer, 0)
}

fn main(rt: HostRuntime) -> ExitCode {
    match timed_by_words(&rt) {
        Some(asked) => print_time(&rt, &asked),
        None => try_words(&rt, &Cases { rt: &rt }),
    }
}
