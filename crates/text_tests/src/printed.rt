//! Whether programs are well kinded, and what is printed of them.
use crate::program_words::program_of;
use case_files::{Printer, file, first_word, last_line, put_expanded, put_framed};
use cocoon_num::NoMemory;
use p4_emit::emit;
use p4_ir::Program;
use p4_kinds::is_well_kinded;
use std::alloc::Global;
use std::str;

/// The program of a case: its words in the place of `...` in the last line `program`.
pub fn program(rt: &HostRuntime, above: &str, asked: &str) -> Option<Program> {
    let frame = last_line(above, "program").unwrap_or("...");
    let mut words = Printer::new(rt.alloc());
    put_framed(rt, frame, asked, &mut words);
    if words.is_whole() {
        program_of(rt.alloc(), words.text())
    } else {
        None
    }
}

/// Puts `kinded` or `broken`.
pub fn put_kinds(rt: &HostRuntime, above: &str, asked: &str, given: &mut Printer) {
    match program(rt, above, asked) {
        Some(program) => match is_well_kinded(rt.alloc(), &program) {
            Ok(true) => given.put("kinded"),
            Ok(false) => given.put("broken"),
            Err(NoMemory) => given.lose(),
        },
        None => given.put("no program"),
    }
}

/// Puts the text of a program.
fn put_text(alloc: Global, program: &Program, given: &mut Printer) {
    match is_well_kinded(alloc, program) {
        Ok(true) => match emit(alloc, program) {
            Ok(text) => given.put_bytes(&text),
            Err(NoMemory) => given.lose(),
        },
        Ok(false) => given.put("broken"),
        Err(NoMemory) => given.lose(),
    }
}

/// How many bytes two texts begin with both.
fn common(text: &str, other: &str) -> u64 {
    let mut count: u64 = 0;
    let mut bytes = other.bytes();
    for byte in text.bytes() {
        if bytes.next() != Some(byte) {
            return count;
        }
        count = count.saturating_add(1);
    }
    count
}

/// Puts `same`, or at which offset a text is another than is wanted.
fn put_difference(text: &Printer, wanted: &Printer, given: &mut Printer) {
    if text.text() == wanted.text() {
        given.put("same");
    } else {
        given.put("other from offset ");
        given.put_number(common(text.text(), wanted.text()));
    }
    given.lose_with(text);
    given.lose_with(wanted);
}

/// Puts whether the text of a program is that of a file of the data, which may be written down in short.
fn compare(rt: &HostRuntime, program: &Program, name: &str, given: &mut Printer) {
    let mut text = Printer::new(rt.alloc());
    put_text(rt.alloc(), program, &mut text);
    let mut wanted = Printer::new(rt.alloc());
    match file(rt, name) {
        Some(bytes) => put_expanded(rt, str::from_utf8(&bytes).unwrap_or_default(), &mut wanted),
        None => given.put("no file, "),
    }
    put_difference(&text, &wanted, given);
}

/// Puts whether the program of a case has the text of the file that its first word names.
pub fn put_same(rt: &HostRuntime, above: &str, asked: &str, given: &mut Printer) {
    let (name, words) = first_word(asked);
    match program(rt, above, words) {
        Some(program) => compare(rt, &program, name, given),
        None => given.put("no program"),
    }
}

/// Puts the text of the program that words say.
pub fn put_whole(rt: &HostRuntime, words: &str, given: &mut Printer) {
    match program(rt, "", words) {
        Some(program) => put_text(rt.alloc(), &program, given),
        None => given.put("no program"),
    }
}
