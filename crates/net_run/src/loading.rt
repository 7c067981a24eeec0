//! The rows of the switches of a network, loaded into their programs.
ghost use Rattle.std.specs.Prelude.{◌≡◌, IfErr, IfOk, IsTrue, None, map};
ghost use Rattle.cocoon_num.specs.Lists.{each};
ghost use Rattle.net_run.specs.LoadFaults.{first_load_fault, TellsFirst, told_at};
ghost use Rattle.net_run.specs.Switches.{switch_in, switch_with};
ghost use Rattle.p4_ir.specs.NetOf.{rows_of, switch_of};
ghost use Rattle.p4_ir.specs.NetTree as tree;
ghost use Rattle.p4_ir.specs.Program.{program_of};
ghost use Rattle.p4_ir.specs.WellKinded.{is_well_kinded, WellKinded};
ghost use Rattle.p4_run.specs.FaultOf.{IsFault};
ghost use Rattle.p4_run.specs.Faults.{load_fault};

use crate::switch::LoadedSwitch;
use p4_ir::{Program, RowsFile, SwitchFiles};
use p4_run::{LoadFault, Loaded};
use std::alloc::{AllocFailed, Global};

/// Why the rows of a network are not loaded.
#[derive(Debug, Drop)]
pub enum NetFault {
    /// The rows of the switch of this number do not load, for this fault, which is never its `NoMemory`.
    Load(u16, LoadFault),
    NoMemory,
}

impl<T: Drop> From<AllocFailed<T>> for NetFault {
    ghost use Rattle.std.specs.Prelude.{◌≡◌};
    ghost use Rattle.net_run.specs.declared.loading.NetFault.TheVariants.{NoMemory};

    ghost from_gives = { λ _ r. r ≡ NoMemory };

    fn from(_: AllocFailed<T>) -> NetFault {
        NetFault::NoMemory
    }
}

/// The fault of a switch of this number.
fn fault_at(number: u16, fault: LoadFault) -> NetFault
    ensures { (first : _) → IsFault fault first → TellsFirst result (told_at number first) }
{
    match fault {
        LoadFault::NoMemory => NetFault::NoMemory,
        told => NetFault::Load(number, told),
    }
}

/// Loads the rows of the switch of this number into its program. Neither is kept. A fault is that of this switch.
pub fn load(
    alloc: Global,
    number: u16,
    program: &Program,
    rows: &RowsFile,
) -> Result<LoadedSwitch, NetFault>
    requires { WellKinded (program_of program.now) }
    ensures runs { IfOk result (λ switch. switch_in switch
        ≡ switch_with number (program_of program.now) (rows_of rows.now)) }
    ensures loads { IfOk result (λ switch.
        load_fault (program_of program.now) (rows_of rows.now) ≡ None) }
    ensures fault { IfErr result (λ fault. TellsFirst fault
        (told_at number (load_fault (program_of program.now) (rows_of rows.now)))) }
{
    match Loaded::new(alloc, program, rows) {
        Ok(loaded) => Ok(LoadedSwitch { number, loaded }),
        Err(fault) => Err(fault_at(number, fault)),
    }
}

/// All switches, loaded in their order.
pub(crate) fn load_all(
    alloc: Global,
    switches: &[SwitchFiles],
) -> Result<Vec<LoadedSwitch>, NetFault>
    requires kinds { IsTrue (each (λ (f : tree.SwitchFiles). is_well_kinded f.program)
        (map switch_of switches.now)) }
    ensures runs { IfOk result (λ v. map switch_in v.items ≡ map switch_of switches.now) }
    ensures loads { IfOk result (λ v. first_load_fault (map switch_of switches.now) ≡ None) }
    ensures fault { IfErr result (λ fault.
        TellsFirst fault (first_load_fault (map switch_of switches.now))) }
{
    let mut all = Vec::new(alloc);
    for files in switches {
        all.push(load(alloc, files.number, &files.program, &files.rows)?)?;
    }
    Ok(all)
}
