//! The writing of a bundle.
ghost use Rattle.std.specs.Prelude.{◌≡◌, ◌≤◌, ◌<◌, List, [], ◌∷◌, IfErr, IsTrue, OnOk, length, map, option_map};
ghost use Rattle.cocoon_num.specs.Lists.{each};
ghost use Rattle.p4_ir.specs.NetFits.{net_fits, switch_fits};
ghost use Rattle.net_bundle.specs.Bundle.{all_switch_files, bundle, switch_files};
ghost use Rattle.net_bundle.specs.NetFileOf.{file_made, made_of};
ghost use Rattle.net_bundle.specs.SharedRows.{OfSwitch, TextOfAll};
ghost use Rattle.net_bundle.specs.Writing.{AllFit, ContentHolds, NamesFailure, NotWritten, WriteFaultRose, with_files};

use crate::fault::BundleFault;
use crate::file::BundleFile;
use crate::make::{MadeFile, keep_switches, last_files};
use crate::row_texts::{RowsText, shared_text, text_at};
use crate::writable::WritableNet;
use cocoon_io::{Folder, FolderFault};
use p4_emit::emit_switch;
use std::alloc::Global;

/// Why a bundle is not written, where this is the fault of the folder at this file.
fn fault_at(file: BundleFile, fault: FolderFault) -> BundleFault
    ensures failed { fault ≡ FolderFault.Failed
        → result ≡ BundleFault.Folder file FolderFault.Failed }
    ensures memory { fault ≡ FolderFault.NoMemory → result ≡ BundleFault.NoMemory }
{
    match fault {
        FolderFault::NoMemory => BundleFault::NoMemory,
        failed => BundleFault::Folder(file, failed),
    }
}

/// Writes a file of the bundle `out`.
fn write_file<F: Folder>(
    alloc: Global,
    folder: &mut F,
    out: &str,
    file: BundleFile,
    bytes: &[u8],
) -> Result<(), BundleFault>
    requires fit { AllFit (file_made file bytes.now ∷ []) }
    ensures written { OnOk result (F.content folder.new
        ≡ with_files out.now (file_made file bytes.now ∷ []) (F.content folder.old)) }
    ensures refused { IfErr result (NotWritten out.now
        (file_made file bytes.now ∷ []) (F.content folder.old) (F.content folder.new)) }
    ensures failed { IfErr result (WriteFaultRose F.last_write_fault
        (F.write_faults folder.old) (F.write_faults folder.new)) }
    ensures counted { OnOk result (F.write_faults folder.new ≡ F.write_faults folder.old) }
    ensures named { IfErr result (NamesFailure (F.last_failure folder.new) out.now) }
    ensures reads { F.read_faults folder.new ≡ F.read_faults folder.old }
    ensures writes { F.write_faults folder.old ≤ F.write_faults folder.new }
{
    let name = file.whole_name(alloc, out)?;
    if let Err(fault) = folder.write(alloc, name.as_str(), bytes) {
        return Err(fault_at(file, fault));
    }
    Ok(())
}

/// Writes the files of the bundle `out`, one after another.
fn write_files<F: Folder>(
    alloc: Global,
    folder: &mut F,
    out: &str,
    files: &[MadeFile],
) -> Result<(), BundleFault>
    requires fit { AllFit (map made_of files.now) }
    ensures written { OnOk result (F.content folder.new
        ≡ with_files out.now (map made_of files.now) (F.content folder.old)) }
    ensures refused { IfErr result (NotWritten out.now
        (map made_of files.now) (F.content folder.old) (F.content folder.new)) }
    ensures failed { IfErr result (WriteFaultRose F.last_write_fault
        (F.write_faults folder.old) (F.write_faults folder.new)) }
    ensures counted { OnOk result (F.write_faults folder.new ≡ F.write_faults folder.old) }
    ensures named { IfErr result (NamesFailure (F.last_failure folder.new) out.now) }
    ensures reads { F.read_faults folder.new ≡ F.read_faults folder.old }
    ensures writes { F.write_faults folder.old ≤ F.write_faults folder.new }
{
    for made in files {
        write_file(alloc, folder, out, made.file, &made.bytes)?;
    }
    Ok(())
}

/// Writes the files of the switch at this index, its program and its rows. They are made again, but for a text that is shared, and
/// let go.
fn write_switch<F: Folder, N: WritableNet>(
    alloc: Global,
    folder: &mut F,
    out: &str,
    net: &N,
    index: usize,
    shared: &Option<RowsText>,
) -> Result<(), BundleFault>
    requires within { index < length (N.net net.now).switches }
    requires fits { IsTrue (each switch_fits (N.net net.now).switches) }
    requires shared { TextOfAll shared.now (N.net net.now).switches }
    requires fit { AllFit (all_switch_files (N.net net.now).switches) }
    ensures written { OnOk result (OfSwitch (N.net net.now).switches index
        (λ s. F.content folder.new ≡ with_files out.now (switch_files s) (F.content folder.old))) }
    ensures refused { IfErr result (λ fault. OfSwitch (N.net net.now).switches index
        (λ s. NotWritten out.now (switch_files s)
        (F.content folder.old) (F.content folder.new) fault)) }
    ensures failed { IfErr result (WriteFaultRose F.last_write_fault
        (F.write_faults folder.old) (F.write_faults folder.new)) }
    ensures counted { OnOk result (F.write_faults folder.new ≡ F.write_faults folder.old) }
    ensures named { IfErr result (NamesFailure (F.last_failure folder.new) out.now) }
    ensures reads { F.read_faults folder.new ≡ F.read_faults folder.old }
    ensures writes { F.write_faults folder.old ≤ F.write_faults folder.new }
{
    let number = net.number(index);
    let program = net.program(index);
    let printed = emit_switch(alloc, &program)?;
    let rows = text_at(alloc, net, index, shared)?;
    let first = printed.as_slice();
    write_file(alloc, folder, out, BundleFile::Program(number), first)?;
    let text = rows.text();
    let second = text.bytes.as_slice();
    write_file(alloc, folder, out, BundleFile::Rows(number), second)?;
    Ok(())
}

/// Writes the files of all switches, each switch in its turn.
fn write_switches<F: Folder, N: WritableNet>(
    alloc: Global,
    folder: &mut F,
    out: &str,
    net: &N,
    shared: &Option<RowsText>,
) -> Result<(), BundleFault>
    requires fits { IsTrue (each switch_fits (N.net net.now).switches) }
    requires shared { TextOfAll shared.now (N.net net.now).switches }
    requires fit { AllFit (all_switch_files (N.net net.now).switches) }
    ensures written { OnOk result (F.content folder.new
        ≡ with_files out.now (all_switch_files (N.net net.now).switches) (F.content folder.old)) }
    ensures refused { IfErr result (NotWritten out.now
        (all_switch_files (N.net net.now).switches) (F.content folder.old) (F.content folder.new)) }
    ensures failed { IfErr result (WriteFaultRose F.last_write_fault
        (F.write_faults folder.old) (F.write_faults folder.new)) }
    ensures counted { OnOk result (F.write_faults folder.new ≡ F.write_faults folder.old) }
    ensures named { IfErr result (NamesFailure (F.last_failure folder.new) out.now) }
    ensures reads { F.read_faults folder.new ≡ F.read_faults folder.old }
    ensures writes { F.write_faults folder.old ≤ F.write_faults folder.new }
{
    for index in 0..net.count() {
        write_switch(alloc, folder, out, net, index, shared)?;
    }
    Ok(())
}

/// Writes the bundle `out` of this network of a design: for each switch its program and its rows, then the certificates, if
/// there are any, and the file of the network last.
///
/// All files are made before the first write, and none after the first that has too many bytes: `Limit` has that
/// file, and then nothing is written. Those of a switch are let go then, and made again for their writes, so no more than
/// those of one switch are held. Rows that all switches have are an exception: their text is made and hashed once, and held
/// until the end. `Folder` has the file at which the writes stopped: those before it in that order stand, and none after it
/// was touched.
/// The network has to be one that can be read back: what that asks is `net_fits`, as docs/FORMATS.md has it under "How a bundle
/// is read back".
pub fn write_bundle<F: Folder, N: WritableNet>(
    alloc: Global,
    folder: &mut F,
    out: &str,
    net: &N,
    design: &[u8],
    certificates: Option<&[u8]>,
) -> Result<(), BundleFault>
    requires fits { IsTrue (net_fits (N.net net.now)) }

    // the folder then has exactly these files set, and they give the network
    ensures written { OnOk result (F.content folder.new
        ≡ with_files out.now
        (bundle design.now (N.net net.now) (option_map (λ c. c.now) certificates.entry))
        (F.content folder.old)) }
    ensures holds { OnOk result (ContentHolds (F.content folder.old) (F.content folder.new)
        out.now design.now (N.net net.now) (option_map (λ c. c.now) certificates.entry)) }
    ensures fit { OnOk result (AllFit
        (bundle design.now (N.net net.now) (option_map (λ c. c.now) certificates.entry))) }

    // any other answer has its cause, and what it leaves
    ensures refused { IfErr result (NotWritten out.now
        (bundle design.now (N.net net.now) (option_map (λ c. c.now) certificates.entry))
        (F.content folder.old) (F.content folder.new)) }
    ensures failed { IfErr result (WriteFaultRose F.last_write_fault
        (F.write_faults folder.old) (F.write_faults folder.new)) }
    ensures counted { OnOk result (F.write_faults folder.new ≡ F.write_faults folder.old) }
    ensures named { IfErr result (NamesFailure (F.last_failure folder.new) out.now) }
    ensures reads { F.read_faults folder.new ≡ F.read_faults folder.old }
    ensures writes { F.write_faults folder.old ≤ F.write_faults folder.new }
{
    let shared = shared_text(alloc, net)?;
    let kept = keep_switches(alloc, net, &shared)?;
    let last = last_files(alloc, net, design, kept, certificates)?;
    write_switches(alloc, folder, out, net, &shared)?;
    write_files(alloc, folder, out, &last)?;
    Ok(())
}
