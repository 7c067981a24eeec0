//! Tries cases of texts that are read and printed, and of P4 programs that are run: texts of designs and definitions, files of a bundle,
//! P4 texts, and P4 programs and networks in words. Each word names a file of cases, whose form docs/CASES.md describes. The program
//! prints what each case asks, below it what differs, and at the end how many cases there are. With the one word `design`,
//! `definitions`, `certificates` or `p4` it reads the standard input as such a text, and prints the first fault, or `read`; of a file of
//! certificates, how many it has. With the one word `print` it prints the P4 text of the program that the standard input says.
//!
//! A line `ask` says that the cases of a file are about files of a bundle that are read (`bundles`) or written (`writing`), P4 texts
//! that are read (`programs`), kinds and texts of programs in words (`printing`), or packets, rows and visits (`visits`). In other files
//! they are about texts of designs and definitions.
//!
//! The clauses say what is read, accepted, written, compared and done by definitions. Whether these mean what was meant, no clause says,
//! nor that there is memory. So the cases are worked by hand, by the rules of the language and by docs/FORMATS.md.
#![tactic(auto)]

mod answers;
mod builders;
mod bundles;
mod certs;
mod declaration_words;
mod definitions;
mod designs;
mod draft;
mod edits;
mod expression_words;
mod expressions;
mod first_switch;
mod frames;
mod hexadecimal;
mod limits;
mod literals;
mod network_words;
mod networks;
mod packets;
mod pieces;
mod prefixes;
mod printed;
mod program_answers;
mod program_texts;
mod program_words;
mod programs;
mod readings;
mod row_words;
mod second_switch;
mod statement_words;
mod statements;
mod sweeps;
mod timed;
mod tokens;
mod visits;
mod writing;

use answers::{Kind, kind_named, put_reading};
use bundles::put_of_bundles;
use case_files::{Printer, Subject, first_word, last_line, print_of_input, sole_word, try_words};
use certs::put_count;
use frames::put_of_texts;
use limits::write_long;
use packets::ask_packet;
use printed::{put_kinds, put_same, put_whole};
use program_texts::put_of_programs;
use std::process::ExitCode;
use std::str;
use timed::put_many;
use visits::{ask_visits, put_loaded};
use writing::write_case;

/// The cases, with the machine that has their files of data.
#[derive(Drop)]
struct Cases<'r> {
    rt: &'r HostRuntime,
}

impl<'r> Subject for Cases<'r> {
    fn is_line(&self, line: &str) -> bool {
        let (word, rest) = first_word(line);
        match word {
            "header" | "older" | "others" | "program" | "rows" => true,
            "ask" | "base" | "wanted" => !rest.is_empty(),
            _ => !rest.is_empty() && kind_named(word).is_some(),
        }
    }

    fn answer(&self, above: &str, asked: &str, wanted: &str, given: &mut Printer) {
        match last_line(above, "ask") {
            Some("bundles") => put_of_bundles(self.rt, above, asked, given),
            Some("programs") => put_of_programs(self.rt, above, asked, given),
            Some("printing") => put_of_words(self.rt, above, asked, given),
            Some("visits") => put_of_packets(self.rt, above, asked, given),
            Some("writing") => put_of_writing(self.rt, above, asked, given),
            Some(_) => given.put("no such question"),
            None => put_of_texts(self.rt, above, asked, wanted, given),
        }
    }
}

/// Puts the answer to a question of a program in words.
fn put_of_words(rt: &HostRuntime, above: &str, asked: &str, given: &mut Printer) {
    let (word, rest) = first_word(asked);
    match word {
        "kinds" => put_kinds(rt, above, rest, given),
        "text" => put_same(rt, above, rest, given),
        _ => given.put("no case"),
    }
}

/// Puts the answer to a question of packets, of rows that are loaded, or of visits.
fn put_of_packets(rt: &HostRuntime, above: &str, asked: &str, given: &mut Printer) {
    let (word, rest) = first_word(asked);
    match word {
        "enter" => ask_packet(rt.alloc(), above, rest, given),
        "load" => put_loaded(rt, above, rest, given),
        "visit" => ask_visits(rt, above, rest, given),
        _ => given.put("no case"),
    }
}

/// Puts what comes of a bundle that is written.
fn put_of_writing(rt: &HostRuntime, above: &str, asked: &str, given: &mut Printer) {
    let (word, rest) = first_word(asked);
    match word {
        "limit" => write_long(rt, rest, given),
        _ => write_case(rt, above, (word, rest), given),
    }
}

/// As what the standard input is read.
#[derive(Clone, Copy, Drop)]
enum Input {
    Text(Kind),
    Certificates,
    Program,
    /// As a program in words, whose text is asked.
    Words,
    /// As packets for a program in words, of which each is told, or all together.
    Visits(bool),
}

/// The same, if the one word says it.
fn input_named(name: &str) -> Option<Input> {
    match name {
        "certificates" => Some(Input::Certificates),
        "p4" => Some(Input::Program),
        "print" => Some(Input::Words),
        "visits" => Some(Input::Visits(false)),
        "each" => Some(Input::Visits(true)),
        _ => Some(Input::Text(kind_named(name)?)),
    }
}

/// The words of the standard input, or none where it is no text.
fn words_of(text: &[u8]) -> &str {
    str::from_utf8(text).unwrap_or_default()
}

/// Puts what the standard input reads as.
fn put_input(rt: &HostRuntime, input: Input, text: &[u8], answer: &mut Printer) {
    let alloc = rt.alloc();
    match input {
        Input::Text(kind) => put_reading(alloc, kind, text, answer),
        Input::Certificates => put_count(alloc, text, answer),
        Input::Program => program_answers::put_reading(alloc, text, answer),
        Input::Words => return put_whole(rt, words_of(text), answer),
        Input::Visits(each) => return put_many(rt, words_of(text), each, answer),
    }
    answer.put("\n");
}

fn asked_input(rt: &HostRuntime) -> Option<Input> {
    input_named(sole_word(rt)?.as_str())
}

fn main(rt: HostRuntime) -> ExitCode {
    match asked_input(&rt) {
        Some(input) => print_of_input(&rt, |text, answer| put_input(&rt, input, text, answer)),
        None => try_words(&rt, &Cases { rt: &rt }),
    }
}
