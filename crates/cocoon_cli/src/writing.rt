//! What a command writes.
ghost use Rattle.std.specs.Prelude.{IfErr, OnOk};
ghost use Rattle.command_reports.specs.FileNames.{name_of, names_in};
ghost use Rattle.command_answers.specs.FolderCalls.{count, Called};
ghost use Rattle.cocoon_cli.specs.Shell.{AllWritten, CanWrite, HoldsNet, NotAllWritten, own_file, writing_of};

use crate::reading::Read;
use cocoon_io::{Folder, FolderFault};
use command_answers::answer::{Writing, bytes_in};
use command_reports::{CommandFile, FileNames, Refusal};
use net_bundle::write_bundle;
use std::alloc::Global;

/// Writes one file, if there is a name for it.
fn write_own<F: Folder>(
    alloc: Global,
    folder: &mut F,
    names: &FileNames<'_>,
    file: CommandFile,
    bytes: &[u8],
) -> Result<(), Refusal>
    ensures written { OnOk result (AllWritten
        (own_file file (name_of (names_in names.now) file) bytes.now)
        (F.content folder.old) (F.content folder.new)) }
    ensures refused { IfErr result (NotAllWritten
        (own_file file (name_of (names_in names.now) file) bytes.now)
        (F.content folder.old) (F.content folder.new)) }
    ensures called { Called (F.last_failure folder.new) (names_in names.now)
        (count F.last_read_fault (F.read_faults folder.old) (F.read_faults folder.new))
        (count F.last_write_fault (F.write_faults folder.old) (F.write_faults folder.new))
        result }
{
    let Some(name) = names.name(alloc, file)? else {
        return Ok(());
    };
    match folder.write(alloc, name.as_str(), bytes) {
        Ok(()) => Ok(()),
        Err(FolderFault::NoMemory) => Err(Refusal::NoMemory),
        Err(_) => Err(Refusal::WriteFault(file)),
    }
}

/// Writes what a command answers that has these files.
pub fn write_all<F: Folder>(
    alloc: Global,
    folder: &mut F,
    names: &FileNames<'_>,
    read: &Read,
    writing: &Writing<'_>,
) -> Result<(), Refusal>
    requires can { CanWrite (names_in names.now) writing.now }
    ensures written { OnOk result (AllWritten
        (writing_of (names_in names.now) read.now writing.now)
        (F.content folder.old) (F.content folder.new)) }
    ensures holds { OnOk result (HoldsNet read.now writing.now
        (F.content folder.old) (F.content folder.new)) }
    ensures refused { IfErr result (NotAllWritten
        (writing_of (names_in names.now) read.now writing.now)
        (F.content folder.old) (F.content folder.new)) }
    ensures called { Called (F.last_failure folder.new) (names_in names.now)
        (count F.last_read_fault (F.read_faults folder.old) (F.read_faults folder.new))
        (count F.last_write_fault (F.write_faults folder.old) (F.write_faults folder.new))
        result }
{
    match writing {
        Writing::Nothing => Ok(()),
        Writing::Bundle(out, net, certificates) => {
            let certificates = bytes_in(certificates);
            match write_bundle(alloc, folder, out, net, &read.design, certificates) {
                Ok(()) => Ok(()),
                Err(fault) => Err(Refusal::from(fault)),
            }
        }
        Writing::Own(file, bytes) => write_own(alloc, folder, names, *file, bytes.items()),
    }
}
