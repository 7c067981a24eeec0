//! Networks whose switches differ in their numbers alone.
ghost use Rattle.std.specs.Prelude.{◌≡◌, []};
ghost use Rattle.shared_net.specs.Shared.{shared_switch, switch_program, switches_of};

use crate::program::SwitchProgram;
use cocoon_num::List;
use p4_ir::{Control, HostPort, Link, Program, RowsFile};
use std::alloc::Global;

/// Switches with one program and the same rows.
#[derive(Drop)]
pub struct SharedSwitches {
    pub numbers: List<u16>,
    /// The program with one number in each place of the number of the switch.
    pub program: Program,
    /// The same program with another.
    pub other: Program,
    pub rows: RowsFile,
}

/// A network of such switches.
#[derive(Drop)]
pub struct SharedNet {
    /// How many ports each switch has, from 0.
    pub ports: u16,
    pub switches: SharedSwitches,
    pub links: List<Link>,
    pub hosts: List<HostPort>,
}

fn no_control(alloc: Global) -> Control {
    Control {
        tables: List::from(Vec::new(alloc)),
        body: List::from(Vec::new(alloc)),
    }
}

fn no_program(alloc: Global) -> Program {
    Program {
        headers: List::from(Vec::new(alloc)),
        meta: List::from(Vec::new(alloc)),
        ingress: no_control(alloc),
        egress: no_control(alloc),
    }
}

impl SharedSwitches {
    /// No switches.
    pub fn none(alloc: Global) -> SharedSwitches
        ensures { switches_of result ≡ [] }
    {
        SharedSwitches {
            numbers: List::from(Vec::new(alloc)),
            program: no_program(alloc),
            other: no_program(alloc),
            rows: RowsFile {
                tables: List::from(Vec::new(alloc)),
                groups: List::from(Vec::new(alloc)),
            },
        }
    }

    /// The program of the switch of this number.
    pub fn program(&self, number: u16) -> SwitchProgram<'_>
        ensures { switch_program result ≡ (shared_switch self.now number).program }
    {
        SwitchProgram {
            program: &self.program,
            other: &self.other,
            number,
        }
    }
}
