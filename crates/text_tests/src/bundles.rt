//! Files of certificates, networks that are compared, and files of a bundle that are read alone, in the words of the cases.
use crate::certs::put_reading;
use crate::network_words::put_compared;
use crate::programs::put_edited;
use crate::readings::{put_read_certificates, put_read_wiring};
use case_files::{Printer, file, first_word, last_line, put_expanded};

/// Puts a text with a quotation mark for each `'`.
fn put_quoted(text: &str, given: &mut Printer) {
    for letter in text.chars() {
        given.put_letter(if letter == '\'' { '"' } else { letter });
    }
}

/// Puts what a text reads as that stands in the case.
fn put_text(rt: &HostRuntime, short: &str, given: &mut Printer) {
    let mut expanded = Printer::new(rt.alloc());
    put_expanded(rt, short, &mut expanded);
    let mut text = Printer::new(rt.alloc());
    put_quoted(expanded.text(), &mut text);
    put_reading(rt.alloc(), text.text().as_bytes(), given);
    given.lose_with(&expanded);
    given.lose_with(&text);
}

/// Puts what the bytes of a file of data read as.
fn put_file(rt: &HostRuntime, name: &str, given: &mut Printer) {
    match file(rt, name) {
        Some(bytes) => put_reading(rt.alloc(), &bytes, given),
        None => given.put("no file"),
    }
}

/// Puts how networks differ of which one switch has the base with an edit.
fn put_program(rt: &HostRuntime, above: &str, asked: &str, given: &mut Printer) {
    let mut base = Printer::new(rt.alloc());
    let name = last_line(above, "base").unwrap_or_default();
    if let Some(bytes) = file(rt, name) {
        base.put_bytes(&bytes);
    }
    let mut words = Printer::new(rt.alloc());
    put_expanded(rt, asked, &mut words);
    put_edited(rt.alloc(), base.text(), words.text(), given);
    given.lose_with(&base);
    given.lose_with(&words);
}

/// Puts what a case asks of files of a bundle.
pub fn put_of_bundles(rt: &HostRuntime, above: &str, asked: &str, given: &mut Printer) {
    let (word, rest) = first_word(asked);
    match word {
        "text" => put_text(rt, rest, given),
        "file" => put_file(rt, rest, given),
        "wires" => put_compared(rt.alloc(), rest, given),
        "program" => put_program(rt, above, rest, given),
        "wiring" => put_read_wiring(rt, rest, given),
        "certificates" => put_read_certificates(rt.alloc(), rest, given),
        _ => given.put("no question"),
    }
}
