//! One run of a case, and what differs after it.
use crate::fields::{LINE, Line, has_line, line_of, put_wanted, words_of};
use crate::lines::{CaseFiles, number_in, report};
use case_files::Printer;
use cocoon_cli::run;
use cocoon_io::{MemFolder, MemSink, Sink, SinkFault};
use cocoon_num::NoMemory;
use std::alloc::Global;

/// A sink in memory, or one that has memory for no byte. Nothing is promised of it, so its ghost members tell nothing.
#[derive(Drop)]
struct TrialSink {
    held: MemSink,
    is_full: bool,
}

impl Sink for TrialSink {
    ghost use Rattle.std.specs.Prelude.{None, Some};

    ghost output = { λ _. None };

    ghost faults = { λ _. 0 };

    ghost last_fault = { Some 0 };

    fn put(&mut self, alloc: Global, bytes: &[u8]) -> Result<(), SinkFault> {
        if self.is_full {
            return Err(SinkFault::NoMemory);
        }
        self.held.put(alloc, bytes)
    }
}

/// A case: its lines, its files and its words.
#[derive(Clone, Copy, Drop)]
pub struct Case<'a> {
    pub lines: &'a str,
    pub files: &'a CaseFiles,
    pub words: &'a [String],
}

/// The status and the report that are wanted, with a blank between them.
#[derive(Clone, Copy, Drop)]
pub enum Wanted<'a> {
    Whole(&'a str),
    /// Without the line feed of the report.
    Line(&'a str),
    /// They begin so.
    Beginning(&'a str),
}

impl<'a> Wanted<'a> {
    fn is_met(self, found: &str) -> bool {
        match self {
            Wanted::Whole(text) => found == text,
            Wanted::Line(text) => found.strip_suffix('\n') == Some(text),
            Wanted::Beginning(text) => found.starts_with(text),
        }
    }

    fn text(self) -> &'a str {
        match self {
            Wanted::Whole(text) | Wanted::Line(text) | Wanted::Beginning(text) => text,
        }
    }
}

/// Runs the words. Puts the status and the report.
fn run_words(
    alloc: Global,
    words: &[String],
    folder: &mut MemFolder,
    sink: &mut TrialSink,
    found: &mut Printer,
) {
    let status = run(alloc, words, folder, sink);
    found.put_number(u64::from(status.number()));
    found.put(" ");
    found.put_bytes(sink.held.bytes());
}

/// The numbers that lines with this word have.
pub fn failing(
    alloc: Global,
    lines: &str,
    word: &str,
    out: &mut Printer,
) -> Result<Vec<u64>, NoMemory> {
    let mut numbers = Vec::new(alloc);
    for cut in lines.split(LINE) {
        let line = line_of(cut);
        if line.word == word {
            numbers.push(number_in(line.name, out))?;
        }
    }
    Ok(numbers)
}

/// Puts the files that the folder has into it.
pub fn place_all(lines: &str, files: &CaseFiles, folder: &mut MemFolder, out: &mut Printer) {
    for cut in lines.split(LINE) {
        let Line { word, name, .. } = line_of(cut);
        if word == "file" || word == "text" {
            let bytes = files.before.file(name).unwrap_or_default();
            if folder.place_file(name, bytes).is_err() {
                out.lose();
            }
        }
    }
}

/// What is wanted of a file after the run.
#[derive(Clone, Copy, Drop)]
enum Left<'a> {
    /// It has these bytes, or is not there.
    As(Option<&'a [u8]>),
    /// It is there, with other bytes than before.
    Changed,
}

fn wanted_of<'a>(case: Case<'a>, name: &str) -> Left<'a> {
    let mut wanted = Left::As(case.files.before.file(name));
    for cut in case.lines.split(LINE) {
        let line = line_of(cut);
        if line.name == name {
            match line.word {
                "after" | "after-edit" | "after-repeat" => {
                    wanted = Left::As(case.files.after.file(name));
                }
                "absent" => wanted = Left::As(None),
                "changed" => wanted = Left::Changed,
                _ => {}
            }
        }
    }
    wanted
}

/// Whether a file is in the folder as it is wanted.
fn is_left(case: Case<'_>, folder: &MemFolder, name: &str) -> bool {
    let found = folder.file(name);
    match wanted_of(case, name) {
        Left::As(bytes) => found == bytes,
        Left::Changed => found.is_some() && found != case.files.before.file(name),
    }
}

/// Reports which files are not in the folder as they are wanted.
pub fn compare(case: Case<'_>, folder: &MemFolder, out: &mut Printer) {
    for cut in case.lines.split(LINE) {
        let Line { word, name, .. } = line_of(cut);
        if matches!(word, "file" | "text" | "after" | "absent" | "changed")
            && !is_left(case, folder, name)
        {
            report(out, "not as wanted: the file ", name);
        }
    }
}

/// Whether of the wanted files the first are in the folder as they are wanted, and the others as
/// they were.
fn is_cut_short(case: Case<'_>, folder: &MemFolder) -> bool {
    let mut is_new = true;
    for cut in case.lines.split(LINE) {
        let Line { word, name, .. } = line_of(cut);
        if matches!(word, "after" | "absent" | "changed") {
            is_new = is_new && is_left(case, folder, name);
            if !is_new && folder.file(name) != case.files.before.file(name) {
                return false;
            }
        }
    }
    true
}

/// Reports a status and a report that are not as they are wanted.
fn judge_answer(found: &str, wanted: Wanted<'_>, out: &mut Printer) {
    if !wanted.is_met(found) {
        out.put("  found ");
        out.put_debug(&found);
        out.put(", wanted ");
        out.put_debug(&wanted.text());
        out.put("\n");
    }
}

/// Reports each text that the report is to have, and does not.
fn judge_texts(lines: &str, found: &str, out: &mut Printer) {
    for cut in lines.split(LINE) {
        let line = line_of(cut);
        if line.word == "has" && !found.contains(line.name) {
            out.put("  not in the report: ");
            out.put_debug(&line.name);
            out.put("\n");
        }
    }
}

/// Reports what differs from what is wanted after a run.
fn judge(case: Case<'_>, folder: &MemFolder, found: &str, wanted: Wanted<'_>, out: &mut Printer) {
    let is_out_of_memory = found == "12 " || found == "12 no memory\n";
    if is_out_of_memory && has_line(case.lines, "or-no-memory") && is_cut_short(case, folder) {
        return;
    }
    judge_answer(found, wanted, out);
    judge_texts(case.lines, found, out);
    compare(case, folder, out);
}

/// Runs the words that come then, if there are any, over the folder as the case left it, and reports
/// what differs.
fn try_then(alloc: Global, case: Case<'_>, folder: &mut MemFolder, out: &mut Printer) {
    let Ok(words) = words_of(alloc, case.lines, "then") else {
        return out.lose();
    };
    if words.is_empty() {
        return;
    }
    let mut sink = TrialSink {
        held: MemSink::new(alloc, Vec::new(alloc)),
        is_full: false,
    };
    let mut found = Printer::new(alloc);
    run_words(alloc, &words, folder, &mut sink, &mut found);
    let mut wanted = Printer::new(alloc);
    put_wanted(case.lines, ("then-status", "then-report"), &mut wanted);
    judge_answer(found.text(), Wanted::Whole(wanted.text()), out);
    out.lose_with(&found);
    out.lose_with(&wanted);
}

/// Runs a case over these, and reports what differs.
fn try_over(
    alloc: Global,
    case: Case<'_>,
    (folder, sink): (&mut MemFolder, &mut TrialSink),
    wanted: Wanted<'_>,
    out: &mut Printer,
) {
    place_all(case.lines, case.files, folder, out);
    let mut found = Printer::new(alloc);
    // Memory for the answer is taken first, so that a run without any can be judged.
    found.reserve(4096);
    run_words(alloc, case.words, folder, sink, &mut found);
    judge(case, folder, found.text(), wanted, out);
    out.lose_with(&found);
    try_then(alloc, case, folder, out);
}

/// Runs a case once, and reports what differs.
pub fn try_once(alloc: Global, case: Case<'_>, wanted: Wanted<'_>, out: &mut Printer) {
    let calls = failing(alloc, case.lines, "failing-call", out);
    let puts = failing(alloc, case.lines, "failing-put", out);
    match (calls, puts) {
        (Ok(calls), Ok(puts)) => {
            let mut folder = MemFolder::new(alloc, calls);
            let mut sink = TrialSink {
                held: MemSink::new(alloc, puts),
                is_full: has_line(case.lines, "full-sink"),
            };
            try_over(alloc, case, (&mut folder, &mut sink), wanted, out);
        }
        _ => out.lose(),
    }
}
