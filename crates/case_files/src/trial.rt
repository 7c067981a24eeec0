//! The trial of cases. A line that begins with two blanks is a case: what is wanted, a `|`, a blank, and what is asked.
use crate::{Printer, file, print};
use std::alloc::Global;
use std::process::ExitCode;
use std::rt::{Env, Files};
use std::{env, str};

/// What cases are about.
pub trait Subject {
    /// Whether a line that is no case says something of the cases below it.
    fn is_line(&self, line: &str) -> bool;

    /// Puts the answer to what is asked, which is to be what is wanted. The lines above the case are those of its file.
    fn answer(&self, above: &str, asked: &str, wanted: &str, given: &mut Printer);
}

/// What came of the cases so far.
#[derive(Drop)]
struct Trial {
    printed: Printer,
    cases: u64,
    differ: u64,
}

impl Trial {
    fn add(&mut self, differs: bool) {
        self.cases = self.cases.saturating_add(1);
        if differs {
            self.differ = self.differ.saturating_add(1);
        }
    }

    /// Adds a line that is no case and says nothing of cases, or a file without lines.
    fn refuse(&mut self, what: &str, name: &str) {
        self.printed.put("  ");
        self.printed.put(what);
        self.printed.put(name);
        self.printed.put("\n");
        self.add(true);
    }

    /// Adds a case whose answer is this.
    fn judge(&mut self, wanted: &str, given: &Printer) {
        let found = given.text();
        if found != wanted {
            self.printed.put("    wanted ");
            self.printed.put(wanted);
            self.printed.put("\n    found  ");
            self.printed.put(found);
            self.printed.put("\n");
        }
        self.printed.lose_with(given);
        self.add(found != wanted);
    }

    fn try_case<S: Subject>(&mut self, alloc: Global, subject: &S, above: &str, case: &str) {
        let Some((wanted, asked)) = case.split_once('|') else {
            return self.refuse("no case: ", case);
        };
        let wanted = wanted.trim();
        let asked = asked.strip_prefix(' ').unwrap_or(asked);
        self.printed.put("  ");
        self.printed.put(asked);
        self.printed.put("\n");
        let mut given = Printer::new(alloc);
        subject.answer(above, asked, wanted, &mut given);
        self.judge(wanted, &given);
    }

    fn try_line<S: Subject>(&mut self, alloc: Global, subject: &S, above: &str, line: &str) {
        if line.is_empty() || line.starts_with('#') {
            return;
        }
        match line.strip_prefix("  ") {
            Some(case) => self.try_case(alloc, subject, above, case),
            None if subject.is_line(line) => {}
            None => self.refuse("no case: ", line),
        }
    }

    fn try_lines<S: Subject>(&mut self, alloc: Global, subject: &S, text: &str) {
        let mut offset: usize = 0;
        for line in text.split('\n') {
            let above = text.get(..offset).unwrap_or_default();
            self.try_line(alloc, subject, above, line);
            offset = offset.saturating_add(line.len()).saturating_add(1);
        }
    }

    fn try_file<R: Files + AllocGlobal, S: Subject>(&mut self, rt: &R, subject: &S, name: &str) {
        self.printed.put(name);
        self.printed.put("\n");
        match file(rt, name) {
            Some(bytes) => self.try_lines(
                rt.alloc(),
                subject,
                str::from_utf8(&bytes).unwrap_or_default(),
            ),
            None => self.refuse("no file: ", name),
        }
    }

    fn count(&mut self) {
        self.printed.put_number(self.cases);
        self.printed.put(" cases, ");
        self.printed.put_number(self.differ);
        self.printed.put(" differ\n");
    }
}

/// Tries the cases of the files that the words name, and prints each with what differs. The process ends with 0 where none
/// differs, with 1 where one does, and with 2 where there was no memory or the text cannot be printed.
pub fn try_words<R: Files + Env + Print + AllocGlobal, S: Subject>(
    rt: &R,
    subject: &S,
) -> ExitCode {
    let mut trial = Trial {
        printed: Printer::new(rt.alloc()),
        cases: 0,
        differ: 0,
    };
    match env::args(rt) {
        Ok(words) => {
            for name in words.skip(1) {
                trial.try_file(rt, subject, name.as_str());
            }
        }
        Err(_) => trial.printed.lose(),
    }
    trial.count();
    print(rt, &trial.printed, u8::from(trial.differ > 0))
}
