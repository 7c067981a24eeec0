//! The top call: the words are read, the command is performed, and one report is printed.
ghost use Rattle.std.specs.Prelude.{◌≡◌, map, string_bytes};
ghost use Rattle.command_line.specs.Words.{command};
ghost use Rattle.obligation_laws.specs.Obligations.{bounded, contained};
ghost use Rattle.command_answers.specs.FolderCalls.{count};
ghost use Rattle.cocoon_cli.specs.Certified.{CertifiedOf};
ghost use Rattle.cocoon_cli.specs.Checked.{RefinedOf};
ghost use Rattle.cocoon_cli.specs.Failed.{FailedOf};
ghost use Rattle.cocoon_cli.specs.Generated.{GeneratedOf};
ghost use Rattle.cocoon_cli.specs.Headline.{Headline};
ghost use Rattle.cocoon_cli.specs.Run.{Keeps};

use crate::laws::{
    checked_designs_are_refined, generated_packets_are_counted, one_outcome,
    reported_failures_are_real,
};
use crate::shell::{names_of, perform};
use cocoon_io::{Folder, Sink};
use cocoon_num::NoMemory;
use command_line::laws::numbers_are_in_range;
use command_line::parse_command;
use command_reports::{Status, print, tell_no_memory, tell_usage};
use std::alloc::Global;

/// Performs the command of the words, the program's name first, and gives the sink one report of
/// it.
///
/// The files that are read and written are those of the folder; the names are those of the words.
pub fn run<F: Folder, S: Sink>(
    alloc: Global,
    words: &[String],
    folder: &mut F,
    out: &mut S,
) -> Status
    // the status, what is printed and what is left, one fact a field
    ensures keeps { Keeps (F.last_failure folder.new) (record {
      words = map string_bytes words.now;
      content_before = F.content folder.old;
      content_after = F.content folder.new;
      output_before = S.output out.old;
      output_after = S.output out.new;
      reads = count F.last_read_fault (F.read_faults folder.old) (F.read_faults folder.new);
      writes = count F.last_write_fault (F.write_faults folder.old) (F.write_faults folder.new);
      puts = count S.last_fault (S.faults out.old) (S.faults out.new);
      status = result;
    }) }

    // the network that the files give delivers what the design's last level delivers, which its
    // topmost specification may make
    ensures headline { result ≡ Status.Done
        → Headline (map string_bytes words.now) (F.content folder.old) (F.content folder.new) }

    // where a `check`, a `compile` or an `update` succeeds, each block of the design is contained and bounded
    ensures refined { result ≡ Status.Done
        → RefinedOf (command (map string_bytes words.now)) (F.content folder.old) }

    // beside the network stand certificates, which show of each obligation of the design that it holds
    ensures certified { result ≡ Status.Done
        → CertifiedOf (command (map string_bytes words.now))
        (F.content folder.old) (F.content folder.new) }

    // where an obligation is reported not to hold, a run is printed that shows it, and definitions under
    // which it does
    ensures refuted { result ≡ Status.Refuted
        → FailedOf (command (map string_bytes words.now)) (F.content folder.old) contained
        (S.output out.old) (S.output out.new) }
    ensures hop_bound { result ≡ Status.HopBound
        → FailedOf (command (map string_bytes words.now)) (F.content folder.old) bounded
        (S.output out.old) (S.output out.new) }

    // what a `gen` counts are the packets that the last level of its design delivers, and the folder is as
    // it was
    ensures generated { result ≡ Status.Done
        → GeneratedOf (command (map string_bytes words.now))
        (F.content folder.old) (F.content folder.new) (S.output out.old) (S.output out.new) }
{
    one_outcome();
    checked_designs_are_refined();
    reported_failures_are_real();
    generated_packets_are_counted();
    numbers_are_in_range();
    match parse_command(alloc, words) {
        Ok(Some(command)) => {
            let outcome = perform(alloc, &command, folder);
            print(alloc, out, &names_of(&command), &outcome)
        }
        Ok(None) => tell_usage(alloc, out),
        Err(NoMemory) => tell_no_memory(alloc, out),
    }
}
