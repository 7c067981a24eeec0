//! Texts that are written down in short.
use crate::{Printer, file, number};
use std::rt::Files;

/// Puts a text, written out. A line feed, a tab and a carriage return come for `\n`, `\t` and `\r`. A part in quotes is a piece
/// that repeats, as `"3 a#;"`, with the number of the time, from 0, for each `#`; or the name of a file whose text comes, as
/// `"c.ccn"`.
pub fn put_expanded<R: Files + AllocGlobal>(rt: &R, text: &str, given: &mut Printer) {
    let mut plain = Printer::new(rt.alloc());
    put_plain(text, &mut plain);
    let mut is_quoted = false;
    for part in plain.text().split('"') {
        if is_quoted {
            put_quoted(rt, part, given);
        } else {
            given.put(part);
        }
        is_quoted = !is_quoted;
    }
    given.lose_with(&plain);
}

/// The same of a frame with a text in the place of `...`.
pub fn put_framed<R: Files + AllocGlobal>(rt: &R, frame: &str, text: &str, given: &mut Printer) {
    let (before, behind) = frame.split_once("...").unwrap_or((frame, ""));
    put_expanded(rt, before, given);
    put_expanded(rt, text, given);
    put_expanded(rt, behind, given);
}

/// Puts what a part in quotes stands for. One that stands for nothing counts as lost.
fn put_quoted<R: Files + AllocGlobal>(rt: &R, part: &str, given: &mut Printer) {
    match part.split_once(' ') {
        Some((count, piece)) => match number(count) {
            Some(count) => put_repeated(piece, count, 0, given),
            None => given.lose(),
        },
        None => match file(rt, part) {
            Some(bytes) => given.put_bytes(&bytes),
            None => given.lose(),
        },
    }
}

/// Puts a piece so many times, with a number for each `#` in it, which goes up from the first.
pub fn put_repeated(piece: &str, count: u64, first: u64, given: &mut Printer) {
    for time in 0..count {
        put_numbered(piece, first.saturating_add(time), given);
    }
}

/// Puts a piece with a number for each `#` in it.
fn put_numbered(piece: &str, number: u64, given: &mut Printer) {
    let mut parts = piece.split('#');
    given.put(parts.next().unwrap_or_default());
    for part in parts {
        given.put_number(number);
        given.put(part);
    }
}

/// Puts a text with a letter for each `\` and what stands behind it.
fn put_plain(text: &str, given: &mut Printer) {
    let mut parts = text.split('\\');
    given.put(parts.next().unwrap_or_default());
    for part in parts {
        put_escaped(part, given);
    }
}

/// Puts a part that stands behind a `\`.
fn put_escaped(part: &str, given: &mut Printer) {
    let letter = part.get(..1).unwrap_or_default();
    let rest = part.get(1..).unwrap_or_default();
    match letter {
        "n" => given.put("\n"),
        "t" => given.put("\t"),
        "r" => given.put("\r"),
        _ => {
            given.put("\\");
            given.put(letter);
        }
    }
    given.put(rest);
}
