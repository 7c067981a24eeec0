//! What is read for a command: its files, each within its limit, and a bundle.
ghost use Rattle.std.specs.Prelude.{◌≡◌, ◌≤◌, ◌<◌, ◌^◌, IfErr, IfOk, length};
ghost use Rattle.command_reports.specs.FileNames.{bundle_in, names_in, wanted};
ghost use Rattle.command_answers.specs.FolderCalls.{count, Called};
ghost use Rattle.cocoon_cli.specs.Reading.{FileNotRead, HasFile, IsRead, IsUnread, NamesBundleFailure, NamesReadFailure, ReadFaultRose};
ghost use Rattle.cocoon_cli.specs.Shell.{HasNet, HasWanted, IsShort, LacksNet, LacksWanted, ReadsAll, ReadsNot};

use bundle_reader::{Net, read_bundle};
use cocoon_io::{Folder, FolderFault};
use command_reports::{CommandFile, FileNames, Refusal, Wanted, unread};
use std::alloc::Global;

/// What was read for a command: the bytes of each file that it reads, and the network of its bundle.
#[derive(Drop)]
pub struct Read {
    pub design: Vec<u8>,
    pub definitions: Vec<u8>,
    pub case: Vec<u8>,
    pub packets: Vec<u8>,
    pub net: Option<Net>,
}

/// The bytes of a file that was read, if they are not too many. A folder whose content is not known
/// may give more than it was asked for.
fn within_limit(bytes: Vec<u8>, file: CommandFile, most: u64) -> Result<Vec<u8>, Refusal>
    ensures ok { IfOk result (λ v. (v.items ≡ bytes.items) × (length v.items ≤ most)) }
    ensures err { IfErr result (λ r. (r
        ≡ Refusal.TooLong file most) × (most < length bytes.items)) }
{
    if bytes.len() as u64 <= most {
        Ok(bytes)
    } else {
        Err(Refusal::TooLong(file, most))
    }
}

/// The bytes of a file that has to be there, with at most so many bytes. `file` says what it is to the command.
fn read_file<F: Folder>(
    alloc: Global,
    folder: &mut F,
    name: &str,
    file: CommandFile,
    most: u64,
) -> Result<Vec<u8>, Refusal>
    ensures ok { IfOk result (λ v. HasFile (F.content folder.old) name.now most v.items) }
    ensures short { IfOk result (λ v. length v.items ≤ most) }
    ensures err { IfErr result (FileNotRead (F.content folder.old) name.now file most) }
    ensures failed { IfErr result (ReadFaultRose F.last_read_fault
        (F.read_faults folder.old) (F.read_faults folder.new)) }
    ensures counted { IfOk result (λ _. F.read_faults folder.new ≡ F.read_faults folder.old) }
    ensures named { IfErr result (NamesReadFailure (F.last_failure folder.new) name.now) }
    ensures same { F.content folder.new ≡ F.content folder.old }
    ensures reads { F.read_faults folder.old ≤ F.read_faults folder.new }
    ensures writes { F.write_faults folder.new ≡ F.write_faults folder.old }
{
    match folder.read(alloc, name, most) {
        Ok(Some(bytes)) => within_limit(bytes, file, most),
        Ok(None) => Err(Refusal::NoFile(file)),
        Err(FolderFault::Failed) => Err(Refusal::ReadFault(file)),
        Err(FolderFault::TooLong(_)) => Err(Refusal::TooLong(file, most)),
        Err(FolderFault::NoMemory) => Err(Refusal::NoMemory),
    }
}

/// The network of the bundle `out`.
fn read_network<F: Folder>(alloc: Global, folder: &mut F, out: &str) -> Result<Net, Refusal>
    ensures ok { IfOk result (IsRead (F.content folder.old) out.now) }
    ensures err { IfErr result (IsUnread (F.content folder.old) out.now) }
    ensures failed { IfErr result (ReadFaultRose F.last_read_fault
        (F.read_faults folder.old) (F.read_faults folder.new)) }
    ensures counted { IfOk result (λ _. F.read_faults folder.new ≡ F.read_faults folder.old) }
    ensures named { IfErr result (NamesBundleFailure (F.last_failure folder.new) out.now) }
    ensures same { F.content folder.new ≡ F.content folder.old }
    ensures reads { F.read_faults folder.old ≤ F.read_faults folder.new }
    ensures writes { F.write_faults folder.new ≡ F.write_faults folder.old }
{
    match read_bundle(alloc, folder, out) {
        Ok(net) => Ok(net),
        Err(fault) => Err(unread(fault)),
    }
}

/// The bytes of a file, if one of this kind is read; else none.
fn read_text<F: Folder>(
    alloc: Global,
    folder: &mut F,
    names: &FileNames<'_>,
    file: CommandFile,
) -> Result<Vec<u8>, Refusal>
    ensures read { IfOk result (λ v. HasWanted (F.content folder.old)
        (wanted (names_in names.now) file) v.items) }
    ensures short { IfOk result (λ v. length v.items < 2 ^ 31) }
    ensures refused { IfErr result (LacksWanted (F.content folder.old)
        file (wanted (names_in names.now) file)) }
    ensures same { F.content folder.new ≡ F.content folder.old }
    ensures called { Called (F.last_failure folder.new) (names_in names.now)
        (count F.last_read_fault (F.read_faults folder.old) (F.read_faults folder.new))
        (count F.last_write_fault (F.write_faults folder.old) (F.write_faults folder.new))
        result }
{
    match names.wanted(file) {
        Some(Wanted { name, most }) => read_file(alloc, folder, name, file, most),
        None => Ok(Vec::new(alloc)),
    }
}

/// The network of a bundle, if one is read.
fn read_net<F: Folder>(
    alloc: Global,
    folder: &mut F,
    names: &FileNames<'_>,
) -> Result<Option<Net>, Refusal>
    ensures read { IfOk result
        (HasNet (F.content folder.old) (bundle_in (names_in names.now))) }
    ensures refused { IfErr result
        (LacksNet (F.content folder.old) (bundle_in (names_in names.now))) }
    ensures same { F.content folder.new ≡ F.content folder.old }
    ensures called { Called (F.last_failure folder.new) (names_in names.now)
        (count F.last_read_fault (F.read_faults folder.old) (F.read_faults folder.new))
        (count F.last_write_fault (F.write_faults folder.old) (F.write_faults folder.new))
        result }
{
    match names.bundle_read() {
        Some(out) => Ok(Some(read_network(alloc, folder, out)?)),
        None => Ok(None),
    }
}

/// All that is read of the files with these names, in the order of the fields.
pub fn read_all<F: Folder>(
    alloc: Global,
    folder: &mut F,
    names: &FileNames<'_>,
) -> Result<Read, Refusal>
    ensures all { IfOk result (ReadsAll (names_in names.now) (F.content folder.old)) }
    ensures short { IfOk result IsShort }
    ensures refused { IfErr result (ReadsNot (names_in names.now) (F.content folder.old)) }
    ensures same { F.content folder.new ≡ F.content folder.old }
    ensures called { Called (F.last_failure folder.new) (names_in names.now)
        (count F.last_read_fault (F.read_faults folder.old) (F.read_faults folder.new))
        (count F.last_write_fault (F.write_faults folder.old) (F.write_faults folder.new))
        result }
{
    let design = read_text(alloc, folder, names, CommandFile::Design)?;
    let definitions = read_text(alloc, folder, names, CommandFile::Definitions)?;
    let case = read_text(alloc, folder, names, CommandFile::Case)?;
    let packets = read_text(alloc, folder, names, CommandFile::Packets)?;
    let net = read_net(alloc, folder, names)?;
    Ok(Read {
        design,
        definitions,
        case,
        packets,
        net,
    })
}
