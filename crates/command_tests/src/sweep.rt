//! A case that runs once for each byte of a file.
use crate::attempt::{Case, Wanted, try_once};
use crate::fields::{LINE, last_line, line_of};
use crate::lines::{CaseFiles, Data, read, report, store_file};
use case_files::{Printer, swept};
use std::alloc::Global;
use std::str;

/// What is swept, and what is wanted.
#[derive(Clone, Copy, Drop)]
pub struct Sweep<'a> {
    pub lines: &'a str,
    pub words: &'a [String],
    /// The name of the file that is swept.
    pub file: &'a str,
    /// What comes for the byte. Without it, the file ends before the byte.
    pub byte: Option<u8>,
    /// What is wanted where the other byte changes nothing.
    pub same: Wanted<'a>,
}

/// Whether it changes nothing that another byte comes for this one behind a prefix.
fn is_same(sweep: Sweep<'_>, prefix: &[u8], old: u8) -> bool {
    for cut in sweep.lines.split(LINE) {
        let line = line_of(cut);
        if line.word == "same-behind" && prefix.ends_with(line.name.as_bytes()) {
            return true;
        }
    }
    sweep.byte == Some(old)
}

/// What is wanted without a table.
fn wanted_at<'a>(sweep: Sweep<'a>, bytes: &[u8], offset: usize) -> Wanted<'a> {
    let (prefix, rest) = bytes.split_at_checked(offset).unwrap_or_default();
    let old = rest.first().copied().unwrap_or_default();
    if is_same(sweep, prefix, old) {
        return sweep.same;
    }
    let others = last_line(sweep.lines, "others").name;
    if others.is_empty() {
        Wanted::Whole("")
    } else {
        Wanted::Beginning(others)
    }
}

/// Runs a case for one byte of the file, and reports what differs.
fn try_at(
    alloc: Global,
    sweep: Sweep<'_>,
    files: &mut CaseFiles,
    (bytes, offset): (&[u8], usize),
    wanted: Wanted<'_>,
    out: &mut Printer,
) {
    match swept(alloc, bytes, offset, sweep.byte) {
        Some(text) => store_file(&mut files.before, sweep.file, &text, out),
        None => out.lose(),
    }
    let before = out.text().len();
    let case = Case {
        lines: sweep.lines,
        files: &*files,
        words: sweep.words,
    };
    try_once(alloc, case, wanted, out);
    if out.text().len() > before {
        out.put("  at offset ");
        out.put_number(offset as u64);
        out.put("\n");
    }
}

/// Runs a case once for each byte of the file, by the table, if it has a line, and reports what differs.
fn try_bytes(
    alloc: Global,
    sweep: Sweep<'_>,
    files: &mut CaseFiles,
    (bytes, table): (&[u8], &str),
    out: &mut Printer,
) {
    let mut lines = table.lines();
    for offset in 0..bytes.len() {
        let line = lines.next();
        let wanted = if table.is_empty() {
            wanted_at(sweep, bytes, offset)
        } else {
            Wanted::Line(line.unwrap_or_default())
        };
        try_at(alloc, sweep, files, (bytes, offset), wanted, out);
    }
    if lines.next().is_some() {
        report(out, "too many lines: the table", "");
    }
}

/// The same with the table that the lines name, if they do.
fn try_by_table(
    data: Data<'_>,
    sweep: Sweep<'_>,
    files: &mut CaseFiles,
    bytes: &[u8],
    out: &mut Printer,
) {
    let name = last_line(sweep.lines, "table").name;
    if name.is_empty() {
        return try_bytes(data.rt.alloc(), sweep, files, (bytes, ""), out);
    }
    if let Some(table) = read(data, name, out) {
        let table = str::from_utf8(&table).unwrap_or_default();
        try_bytes(data.rt.alloc(), sweep, files, (bytes, table), out);
    }
}

/// Runs a case once for each byte of a file, and reports what differs. Answers how many there are.
pub fn try_each(
    data: Data<'_>,
    sweep: Sweep<'_>,
    files: &mut CaseFiles,
    out: &mut Printer,
) -> usize {
    let bytes = files.before.file(sweep.file).unwrap_or_default();
    match bytes.to_vec(data.rt.alloc()) {
        Ok(bytes) => {
            try_by_table(data, sweep, files, &bytes, out);
            bytes.len()
        }
        Err(_) => {
            out.lose();
            0
        }
    }
}
