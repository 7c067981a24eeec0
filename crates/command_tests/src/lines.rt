//! What the lines of a case say of files, one after another. What is wrong about a line is reported.
use crate::fields::{LINE, Line, count_fields, line_of};
use case_files::{Printer, file, number, put_repeated};
use cocoon_io::HonestFolder;
use std::alloc::Global;
use std::str;

/// The files of data.
#[derive(Clone, Copy, Drop)]
pub struct Data<'r> {
    pub rt: &'r HostRuntime,
    pub folder: &'r str,
}

/// The files of a case: those that the folder has, and those that are wanted to be other than they were.
#[derive(Drop)]
pub struct CaseFiles {
    pub before: HonestFolder,
    pub after: HonestFolder,
}

/// Reports that something is wrong.
pub fn report(out: &mut Printer, what: &str, of: &str) {
    out.put("  ");
    out.put(what);
    out.put(of);
    out.put("\n");
}

/// The bytes of a file of data.
pub fn read(data: Data<'_>, name: &str, out: &mut Printer) -> Option<Vec<u8>> {
    let mut path = Printer::new(data.rt.alloc());
    path.put(data.folder);
    path.put("/");
    path.put(name);
    let bytes = file(data.rt, path.text());
    if bytes.is_none() {
        report(out, "no data ", name);
    }
    bytes
}

/// Puts bytes under a name.
pub fn store_file(folder: &mut HonestFolder, name: &str, bytes: &[u8], out: &mut Printer) {
    if folder.place_file(name, bytes).is_err() {
        out.lose();
    }
}

/// Puts the bytes of a file of data under a name.
fn place_data(
    data: Data<'_>,
    folder: &mut HonestFolder,
    (name, from): (&str, &str),
    out: &mut Printer,
) {
    if let Some(bytes) = read(data, from, out) {
        store_file(folder, name, &bytes, out);
    }
}

/// Puts a new text instead of an old one, where that stands first in a file.
fn edit(
    alloc: Global,
    folder: &mut HonestFolder,
    (name, old, new): (&str, &str, &str),
    out: &mut Printer,
) {
    let text = str::from_utf8(folder.file(name).unwrap_or_default()).unwrap_or_default();
    let Some((before, behind)) = text.split_once(old) else {
        return report(out, "no such text in ", name);
    };
    let mut edited = Printer::new(alloc);
    edited.put(before);
    edited.put(new);
    edited.put(behind);
    out.lose_with(&edited);
    store_file(folder, name, edited.text().as_bytes(), out);
}

/// The number that a field is; 0 where it is empty.
pub fn number_in(field: &str, out: &mut Printer) -> u64 {
    if field.is_empty() {
        return 0;
    }
    match number(field) {
        Some(number) => number,
        None => {
            report(out, "no number: ", field);
            0
        }
    }
}

/// Does what a line `repeat` says, or a line `after-repeat`.
fn repeat(alloc: Global, folder: &mut HonestFolder, line: Line<'_>, out: &mut Printer) {
    let mut all = Printer::new(alloc);
    let count = number_in(line.count, out);
    let first = number_in(line.first, out);
    put_repeated(line.new, count, first, &mut all);
    out.lose_with(&all);
    edit(alloc, folder, (line.name, line.old, all.text()), out);
}

/// Does what a line says of files.
fn follow(data: Data<'_>, files: &mut CaseFiles, cut: &str, out: &mut Printer) {
    let line = line_of(cut);
    let Line { name, old, new, .. } = line;
    let alloc = data.rt.alloc();
    let count = count_fields(cut);
    match (line.word, count) {
        ("file", 3) => place_data(data, &mut files.before, (name, old), out),
        ("text", 3) => store_file(&mut files.before, name, old.as_bytes(), out),
        ("edit", 4) => edit(alloc, &mut files.before, (name, old, new), out),
        ("repeat", 5 | 6) => repeat(alloc, &mut files.before, line, out),
        ("after", 3) => place_data(data, &mut files.after, (name, old), out),
        ("after-edit", 4) => edit(alloc, &mut files.after, (name, old, new), out),
        ("after-repeat", 5 | 6) => repeat(alloc, &mut files.after, line, out),
        _ if is_line(line.word, count) => {}
        _ => report(out, "no line of a case: ", line.word),
    }
}

/// Whether a line that begins with this word and has so many fields is one of a case, if it says nothing of files.
fn is_line(word: &str, count: usize) -> bool {
    match word {
        "words" | "then" => true,
        "full-sink" | "goes-on" | "or-no-memory" => count == 1,
        "report" | "then-report" => count == 1 || count == 2,
        "status" | "then-status" | "absent" | "changed" | "has" => count == 2,
        "failing-call" | "failing-put" => count == 2,
        "cut" | "table" | "same-behind" | "others" => count == 2,
        "replace" => count == 3,
        "lowers" => count == 4,
        "calls" | "output" => count == 2,
        "call" => count == 5,
        _ => false,
    }
}

/// Does what lines say of files.
pub fn follow_all(data: Data<'_>, files: &mut CaseFiles, lines: &str, out: &mut Printer) {
    for cut in lines.split(LINE) {
        if !cut.is_empty() {
            follow(data, files, cut, out);
        }
    }
}
