//! How an outcome is printed: the sink is given one whole report.
ghost use Rattle.std.specs.Prelude.{◌≡◌};
ghost use Rattle.cocoon_io.specs.Calls.{Rose};
ghost use Rattle.command_reports.specs.FileNames.{names_in};
ghost use Rattle.command_reports.specs.Report.{Ending, IsEnding, Prints, Puts, no_memory, usage};

use crate::ending::{refusal_line, status_of};
use crate::files::FileNames;
use crate::refusal::Refusal;
use crate::report::Report;
use crate::status::Status;
use cocoon_io::{Sink, SinkFault};
use std::alloc::Global;

/// The line of words that are no command.
const USAGE: &[u8] = b"usage cocoon check compile update forward step live gen\n";

/// Gives the bytes to the sink; where that fails, the status says so.
fn put<S: Sink>(alloc: Global, out: &mut S, bytes: &[u8], status: Status) -> Status
    ensures { Puts (Rose S.last_fault (S.faults out.old) (S.faults out.new))
        (record { status = status; report = bytes.now })
        (S.output out.old) (S.output out.new) result }
{
    match out.put(alloc, bytes) {
        Ok(()) => status,
        Err(SinkFault::Failed) => Status::WriteFault,
        Err(SinkFault::NoMemory) => Status::NoMemory,
    }
}

/// Says that there was no memory.
pub fn tell_no_memory<S: Sink>(alloc: Global, out: &mut S) -> Status
    ensures { Puts (Rose S.last_fault (S.faults out.old) (S.faults out.new))
        no_memory (S.output out.old) (S.output out.new) result }
{
    put(alloc, out, b"no memory\n", Status::NoMemory)
}

/// Says that the words are no command.
pub fn tell_usage<S: Sink>(alloc: Global, out: &mut S) -> Status
    ensures { Puts (Rose S.last_fault (S.faults out.old) (S.faults out.new))
        usage (S.output out.old) (S.output out.new) result }
{
    put(alloc, out, USAGE, Status::Usage)
}

/// Prints the outcome of a command that has these files. A refusal about a kind of file that the
/// command has not has no line; no command gives one.
pub fn print<S: Sink>(
    alloc: Global,
    out: &mut S,
    names: &FileNames<'_>,
    outcome: &Result<Report, Refusal>,
) -> Status
    ensures { (e : Ending) → IsEnding (names_in names.now) outcome.now e
        → Prints (Rose S.last_fault (S.faults out.old) (S.faults out.new))
        e (S.output out.old) (S.output out.new) result }
{
    match outcome {
        Ok(report) => put(alloc, out, report.lines.items(), status_of(outcome)),
        Err(refusal) => match refusal_line(alloc, names, refusal) {
            Ok(Some(line)) => put(alloc, out, &line, status_of(outcome)),
            Ok(None) => tell_no_memory(alloc, out),
            Err(_) => tell_no_memory(alloc, out),
        },
    }
}
