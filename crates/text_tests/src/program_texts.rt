//! P4 texts, in the words of the cases: what they read as, with edits and changed at each byte, and printed again.
use crate::edits::edited;
use crate::program_answers::{put_printed, put_reading};
use crate::sweeps::put_sweep;
use case_files::{Printer, file, first_word, last_line, put_expanded};
use std::str;

/// The text of a file of data, which may be written down in short. It is empty where there is no such file.
fn whole(rt: &HostRuntime, name: &str) -> Printer {
    let mut text = Printer::new(rt.alloc());
    if let Some(bytes) = file(rt, name) {
        put_expanded(rt, str::from_utf8(&bytes).unwrap_or_default(), &mut text);
    }
    text
}

/// Puts what a text reads as that stands in the case.
fn put_text(rt: &HostRuntime, short: &str, given: &mut Printer) {
    let mut text = Printer::new(rt.alloc());
    put_expanded(rt, short, &mut text);
    put_reading(rt.alloc(), text.text().as_bytes(), given);
    given.lose_with(&text);
}

/// Puts what the base reads as with these edits.
fn put_edited(rt: &HostRuntime, base: &Printer, edits: &str, given: &mut Printer) {
    match edited(rt, base.text(), edits) {
        Some(text) => {
            put_printed(
                rt.alloc(),
                text.text().as_bytes(),
                base.text().as_bytes(),
                given,
            );
            given.lose_with(&text);
        }
        None => given.put("nothing to edit"),
    }
}

/// Puts whether the text of a file reads as a program that has this text.
fn put_file(rt: &HostRuntime, name: &str, given: &mut Printer) {
    let text = whole(rt, name);
    put_printed(
        rt.alloc(),
        text.text().as_bytes(),
        text.text().as_bytes(),
        given,
    );
    given.lose_with(&text);
}

/// Puts whether the base, changed at each byte in turn, reads as a file of data says.
fn put_swept(rt: &HostRuntime, base: &str, byte: Option<u8>, name: &str, given: &mut Printer) {
    match file(rt, name) {
        Some(bytes) => {
            let wanted = str::from_utf8(&bytes).unwrap_or_default();
            put_sweep(rt.alloc(), base, byte, wanted, given);
        }
        None => given.put("no file"),
    }
}

/// The same where the first byte of a text comes for the byte.
fn put_replaced(rt: &HostRuntime, base: &str, asked: &str, given: &mut Printer) {
    let (piece, name) = first_word(asked);
    put_swept(rt, base, piece.as_bytes().first().copied(), name, given);
}

/// Puts what a case asks of P4 texts.
pub fn put_of_programs(rt: &HostRuntime, above: &str, asked: &str, given: &mut Printer) {
    let base = whole(rt, last_line(above, "base").unwrap_or_default());
    let (word, rest) = first_word(asked);
    match word {
        "text" => put_text(rt, rest, given),
        "edit" => put_edited(rt, &base, rest, given),
        "printed" => put_file(rt, rest, given),
        "prefixes" => put_swept(rt, base.text(), None, rest, given),
        "replaced" => put_replaced(rt, base.text(), rest, given),
        _ => given.put("no question"),
    }
    given.lose_with(&base);
}
