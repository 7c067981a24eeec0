//! The files of the switches of a bundle.
ghost use Rattle.std.specs.Prelude.{◌≡◌, ◌∷◌, ◌≤◌, IfErr, IfOk, IsTrue, Some, length, map};
ghost use Rattle.net_bundle.specs.NetForm.{file_fits};
ghost use Rattle.net_run.specs.Switches.{switch_in};
ghost use Rattle.net_bundle.specs.NetFileOf.{net_file_of};
ghost use Rattle.p4_ir.specs.NetFits.{switch_numbers};
ghost use Rattle.p4_ir.specs.NetOf.{rows_of};
ghost use Rattle.p4_ir.specs.Program.{program_of};
ghost use Rattle.p4_ir.specs.WellKinded.{WellKinded};
ghost use Rattle.bundle_reader.specs.FolderCounts.{NamesFailure, ReadFaultRose};
ghost use Rattle.bundle_reader.specs.Parts.{AllWell, FaultAt, IsRead, LastIsRead, OfFiles, SwitchFault, SwitchWell, SwitchesFault, loaded_at};
ghost use Rattle.bundle_reader.specs.Readings.{ProgramReads, RowsRead};
ghost use Rattle.bundle_reader.specs.Told.{IsTold};

use crate::fault::ReadFault;
use crate::files::{program_fault, read_file, read_kept};
use crate::last_rows::{LastRows, rows_of_bytes};
use cocoon_io::Folder;
use net_bundle::BundleFile;
use net_bundle::form_laws::rows_form_is_exact;
use net_bundle::net_json::{KeptDigest, NetFile};
use net_run::{LoadedSwitch, NetFault, load};
use p4_ir::Program;
use p4_run::laws::rows_without_fault_load;
use std::alloc::Global;

/// The program of a switch, of whose file this digest is kept.
fn read_program<F: Folder>(
    alloc: Global,
    folder: &mut F,
    out: &str,
    switch: u16,
    kept: &str,
) -> Result<Program, ReadFault>
    ensures kinds { IfOk result (λ program. WellKinded (program_of program)) }
    ensures program { IfOk result (λ program. OfFiles (F.content folder.old)
        (λ files. ProgramReads files out.now switch kept.now (program_of program))) }
    ensures refused { IfErr result (λ fault. OfFiles (F.content folder.old)
        (FaultAt out.now (BundleFile.Program switch) (Some kept.now) fault)) }
    ensures told { IfErr result IsTold }
    ensures same { F.content folder.new ≡ F.content folder.old }
    ensures failed { IfErr result (ReadFaultRose F.last_read_fault
        (F.read_faults folder.old) (F.read_faults folder.new)) }
    ensures counted { IfOk result (λ _. F.read_faults folder.new ≡ F.read_faults folder.old) }
    ensures named { IfErr result (NamesFailure (F.last_failure folder.new) out.now) }
    ensures reads { F.read_faults folder.old ≤ F.read_faults folder.new }
    ensures writes { F.write_faults folder.new ≡ F.write_faults folder.old }
{
    let file = BundleFile::Program(switch);
    let text = read_kept(alloc, folder, out, file, kept)?;
    match p4_read::read(alloc, &text) {
        Ok(program) => Ok(program),
        Err(fault) => Err(program_fault(file, fault)),
    }
}

/// The rows of a switch, of whose file this digest is kept, if it is not the one that was read last.
fn read_switch_rows<F: Folder>(
    alloc: Global,
    folder: &mut F,
    out: &str,
    switch: u16,
    kept: &str,
    last: Option<LastRows>,
) -> Result<LastRows, ReadFault>
    requires { LastIsRead last }
    ensures read { IfOk result IsRead }
    ensures rows { IfOk result (λ read. OfFiles (F.content folder.old)
        (λ files. RowsRead files out.now switch kept.now (rows_of read.rows))) }
    ensures refused { IfErr result (λ fault. OfFiles (F.content folder.old)
        (FaultAt out.now (BundleFile.Rows switch) (Some kept.now) fault)) }
    ensures told { IfErr result IsTold }
    ensures same { F.content folder.new ≡ F.content folder.old }
    ensures failed { IfErr result (ReadFaultRose F.last_read_fault
        (F.read_faults folder.old) (F.read_faults folder.new)) }
    ensures counted { IfOk result (λ _. F.read_faults folder.new ≡ F.read_faults folder.old) }
    ensures named { IfErr result (NamesFailure (F.last_failure folder.new) out.now) }
    ensures reads { F.read_faults folder.old ≤ F.read_faults folder.new }
    ensures writes { F.write_faults folder.new ≡ F.write_faults folder.old }
{
    let bytes = read_file(alloc, folder, out, BundleFile::Rows(switch))?;
    let read = rows_of_bytes(alloc, bytes, switch, kept, last)?;
    Ok(read)
}

/// A switch with its rows loaded, and the file that they were read from.
#[derive(Drop)]
struct ReadSwitch {
    switch: LoadedSwitch,
    rows: LastRows,
}

/// Why the rows of a switch are not loaded.
fn load_fault(fault: NetFault) -> ReadFault
    ensures { result ≡ loaded_at fault }
{
    match fault {
        NetFault::Load(switch, told) => ReadFault::Load(BundleFile::Rows(switch), told),
        NetFault::NoMemory => ReadFault::NoMemory,
    }
}

/// A switch, of whose program and rows these digests are kept.
fn read_switch<F: Folder>(
    alloc: Global,
    folder: &mut F,
    out: &str,
    switch: u16,
    program: &str,
    rows: &str,
    last: Option<LastRows>,
) -> Result<ReadSwitch, ReadFault>
    requires { LastIsRead last }
    ensures last { IfOk result (λ read. IsRead read.rows) }
    ensures number { IfOk result (λ read. read.switch.number ≡ switch) }
    ensures well { IfOk result (λ read. OfFiles (F.content folder.old)
        (SwitchWell out.now switch program.now rows.now (switch_in read.switch))) }
    ensures refused { IfErr result (λ fault. OfFiles (F.content folder.old)
        (SwitchFault out.now switch program.now rows.now fault)) }
    ensures told { IfErr result IsTold }
    ensures same { F.content folder.new ≡ F.content folder.old }
    ensures failed { IfErr result (ReadFaultRose F.last_read_fault
        (F.read_faults folder.old) (F.read_faults folder.new)) }
    ensures counted { IfOk result (λ _. F.read_faults folder.new ≡ F.read_faults folder.old) }
    ensures named { IfErr result (NamesFailure (F.last_failure folder.new) out.now) }
    ensures reads { F.read_faults folder.old ≤ F.read_faults folder.new }
    ensures writes { F.write_faults folder.new ≡ F.write_faults folder.old }
{
    let program = read_program(alloc, folder, out, switch, program)?;
    let rows = read_switch_rows(alloc, folder, out, switch, rows, last)?;
    match load(alloc, switch, &program, &rows.rows) {
        Ok(loaded) => Ok(ReadSwitch {
            switch: loaded,
            rows,
        }),
        Err(fault) => Err(load_fault(fault)),
    }
}

/// The first two, and the others.
fn next_two(kept: &[KeptDigest]) -> (&KeptDigest, &KeptDigest, &[KeptDigest])
    requires { 2 ≤ length kept.now }
    ensures { kept.now ≡ result.0.now ∷ result.1.now ∷ result.2.now }
{
    (&kept[0], &kept[1], &kept[2..])
}

/// The switches that the file of a network names, in their order, with their rows loaded.
pub(crate) fn read_switches<F: Folder>(
    alloc: Global,
    folder: &mut F,
    out: &str,
    file: &NetFile,
) -> Result<Vec<LoadedSwitch>, ReadFault>
    requires fits { IsTrue (file_fits (net_file_of file.now)) }
    ensures numbers { IfOk result (λ read.
        switch_numbers (map switch_in read.items) ≡ file.now.switches.items) }
    ensures well { IfOk result (λ read. OfFiles (F.content folder.old)
        (AllWell out.now (net_file_of file.now) (map switch_in read.items))) }
    ensures refused { IfErr result (λ fault. OfFiles (F.content folder.old)
        (SwitchesFault out.now (net_file_of file.now) fault)) }
    ensures told { IfErr result IsTold }
    ensures same { F.content folder.new ≡ F.content folder.old }
    ensures failed { IfErr result (ReadFaultRose F.last_read_fault
        (F.read_faults folder.old) (F.read_faults folder.new)) }
    ensures counted { IfOk result (λ _. F.read_faults folder.new ≡ F.read_faults folder.old) }
    ensures named { IfErr result (NamesFailure (F.last_failure folder.new) out.now) }
    ensures reads { F.read_faults folder.old ≤ F.read_faults folder.new }
    ensures writes { F.write_faults folder.new ≡ F.write_faults folder.old }
{
    rows_form_is_exact();
    rows_without_fault_load();
    let mut switches = Vec::new(alloc);
    let mut last = None;
    let mut kept = file.files.as_slice();
    for switch in &file.switches {
        let (program, rows, others) = next_two(kept);
        let read = read_switch(
            alloc,
            folder,
            out,
            *switch,
            &program.digest,
            &rows.digest,
            last,
        )?;
        switches.push(read.switch)?;
        last = Some(read.rows);
        kept = others;
    }
    Ok(switches)
}
