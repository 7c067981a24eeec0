//! Tests of the command: it reads cases from files of data, runs each over a folder and a sink in
//! memory, and prints the name of each case with what differs. The page docs/CASES.md says how a
//! case is written.
#![tactic(auto)]

mod attempt;
mod bundles;
mod calls;
mod fields;
mod lines;
mod sweep;

use attempt::{Case, Wanted, try_once};
use bundles::try_lowering;
use calls::try_calls;
use case_files::{Printer, print};
use cocoon_io::HonestFolder;
use cocoon_num::NoMemory;
use fields::{has_line, last_line, put_lines, put_wanted, words_of};
use lines::{CaseFiles, Data, follow_all, read};
use std::process::ExitCode;
use std::{env, str};
use sweep::{Sweep, try_each};

/// What came of the cases so far.
#[derive(Drop)]
struct Totals {
    out: Printer,
    cases: u64,
    runs: usize,
    differing: u64,
}

/// Runs a case of these words, and answers how often the command was run.
fn try_words(
    data: Data<'_>,
    (lines, words): (&str, &[String]),
    files: &mut CaseFiles,
    wanted: &str,
    out: &mut Printer,
) -> usize {
    let cut = last_line(lines, "cut").name;
    let replaced = last_line(lines, "replace");
    let same = if has_line(lines, "goes-on") {
        Wanted::Beginning(wanted)
    } else {
        Wanted::Whole(wanted)
    };
    if cut.is_empty() && replaced.name.is_empty() {
        let case = Case {
            lines,
            files: &*files,
            words,
        };
        try_once(data.rt.alloc(), case, same, out);
        return 1;
    }
    let sweep = Sweep {
        lines,
        words,
        file: if cut.is_empty() { replaced.name } else { cut },
        byte: replaced.old.as_bytes().first().copied(),
        same,
    };
    try_each(data, sweep, files, out)
}

/// Runs a case of these files, and answers how often the command was run.
fn try_files(data: Data<'_>, lines: &str, files: &mut CaseFiles, out: &mut Printer) -> usize {
    let mut wanted = Printer::new(data.rt.alloc());
    put_wanted(lines, ("status", "report"), &mut wanted);
    match words_of(data.rt.alloc(), lines, "words") {
        Ok(words) if wanted.is_whole() => {
            try_words(data, (lines, &words), files, wanted.text(), out)
        }
        _ => {
            out.lose();
            0
        }
    }
}

/// Follows the lines of a case, and runs it. Answers how often the command was run.
fn try_lines(data: Data<'_>, lines: &str, out: &mut Printer) -> usize {
    let mut files = CaseFiles {
        before: HonestFolder::new(data.rt.alloc()),
        after: HonestFolder::new(data.rt.alloc()),
    };
    follow_all(data, &mut files, lines, out);
    let kind = last_line(lines, "calls").name;
    let lowered = last_line(lines, "lowers");
    if !kind.is_empty() {
        try_calls(data, lines, kind, &mut files, out);
        return 0;
    }
    if lowered.word.is_empty() {
        return try_files(data, lines, &mut files, out);
    }
    let case = Case {
        lines,
        files: &files,
        words: &[],
    };
    try_lowering(data.rt.alloc(), case, lowered, out);
    0
}

/// Runs a case. Its lines come behind those that all cases of the file have.
fn run_case(data: Data<'_>, common: &str, case: &str, totals: &mut Totals) {
    let (name, own) = case.split_once('\n').unwrap_or((case, ""));
    totals.out.put(name);
    totals.out.put("\n");
    let before = totals.out.text().len();
    let mut lines = Printer::new(data.rt.alloc());
    put_lines(common, &mut lines);
    put_lines(own, &mut lines);
    let runs = try_lines(data, lines.text(), &mut totals.out);
    totals.out.lose_with(&lines);
    if totals.out.text().len() > before {
        totals.differing = totals.differing.saturating_add(1);
    }
    totals.cases = totals.cases.saturating_add(1);
    totals.runs = totals.runs.saturating_add(runs);
}

/// Runs the cases of a text.
fn run_text(data: Data<'_>, text: &str, totals: &mut Totals) {
    let mut parts = text.split("\ncase ");
    let common = parts.next().unwrap_or_default();
    let before = totals.cases;
    for case in parts {
        run_case(data, common, case, totals);
    }
    if totals.cases == before {
        totals.out.put("  no case\n");
        totals.differing = totals.differing.saturating_add(1);
    }
}

/// Runs the cases of a file. The files of data that they name stand beside it.
fn run_sheet(rt: &HostRuntime, path: &str, totals: &mut Totals) {
    let (folder, sheet) = path.rsplit_once('/').unwrap_or((".", path));
    let data = Data { rt, folder };
    totals.out.put("== ");
    totals.out.put(sheet);
    totals.out.put("\n");
    match read(data, sheet, &mut totals.out) {
        Some(bytes) => run_text(data, str::from_utf8(&bytes).unwrap_or_default(), totals),
        None => run_text(data, "", totals),
    }
}

/// Runs the cases of the files that the words name.
fn run_all(rt: &HostRuntime, totals: &mut Totals) {
    match env::args(rt) {
        Ok(words) => {
            for path in words.skip(1) {
                run_sheet(rt, path.as_str(), totals);
            }
        }
        Err(_) => totals.out.lose(),
    }
    totals.out.put_number(totals.cases);
    totals.out.put(" cases, ");
    totals.out.put_number(totals.runs as u64);
    totals.out.put(" runs, ");
    totals.out.put_number(totals.differing);
    totals.out.put(" differ\n");
}

fn main(rt: HostRuntime) -> ExitCode {
    let mut totals = Totals {
        out: Printer::new(rt.alloc()),
        cases: 0,
        runs: 0,
        differing: 0,
    };
    // Memory for what is printed is taken first, so that a run without any can be judged.
    totals.out.reserve(65_536);
    run_all(&rt, &mut totals);
    print(
        &rt,
        &totals.out,
        u8::from(totals.cases == 0 || totals.differing > 0),
    )
}
