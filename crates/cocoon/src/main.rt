//! The program: the words of the command line, the machine's files and the standard output, given
//! to `run`.
#![tactic(auto)]

ghost use Rattle.std.specs.Prelude.{◌≡◌};
ghost use Rattle.std.specs.Process.{exit_status};
ghost use Rattle.command_answers.specs.FolderCalls.{count};
ghost use Rattle.command_reports.specs.Report.{status_number};
ghost use Rattle.cocoon.specs.Exits.{Exits};

use cocoon_cli::run;
use cocoon_io::{Folder, RealFolder, RealOut, Sink};
use command_reports::{Status, tell_no_memory};
use std::alloc::Global;
use std::env;
use std::io::{self, ErrorKind};
use std::process::ExitCode;

// All words, the program's name first.
fn collect_words(rt: &HostRuntime) -> io::Result<Vec<String>> {
    Ok(env::args(rt)?.collect(rt.alloc())?)
}

// The process ends with the number of the status.
fn code_of(status: Status) -> ExitCode
    ensures { exit_status result ≡ status_number status }
{
    ExitCode::from(status.number())
}

// Performs the command of the words, and gives the code that the process ends with. Words that
// cannot be read, as one that is not UTF-8, are no command.
fn exit_code<F: Folder, S: Sink>(
    alloc: Global,
    words: io::Result<Vec<String>>,
    folder: &mut F,
    out: &mut S,
) -> ExitCode
    ensures { Exits (F.last_failure folder.new) words
        (λ ws status. record {
          words = ws;
          content_before = F.content folder.old;
          content_after = F.content folder.new;
          output_before = S.output out.old;
          output_after = S.output out.new;
          reads = count F.last_read_fault (F.read_faults folder.old) (F.read_faults folder.new);
          writes = count F.last_write_fault (F.write_faults folder.old) (F.write_faults folder.new);
          puts = count S.last_fault (S.faults out.old) (S.faults out.new);
          status = status;
        })
        result }
{
    match words {
        Ok(words) => code_of(run(alloc, &words, folder, out)),
        Err(error) => match error.kind() {
            ErrorKind::OutOfMemory => code_of(tell_no_memory(alloc, out)),
            _ => code_of(run(alloc, &[], folder, out)),
        },
    }
}

fn main(rt: HostRuntime) -> ExitCode {
    let mut folder = RealFolder::new(&rt);
    let mut out = RealOut::new(&rt);
    exit_code(rt.alloc(), collect_words(&rt), &mut folder, &mut out)
}
