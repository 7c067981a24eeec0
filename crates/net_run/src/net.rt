//! A network with its switches loaded.
ghost use Rattle.std.specs.Prelude.{IsTrue};
ghost use Rattle.net_run.specs.Switches.{net_with};
ghost use Rattle.p4_ir.specs.NetFits.{wiring_of};
ghost use Rattle.p4_ir.specs.Wiring.{wiring_fits};

use crate::switch::LoadedSwitch;
use cocoon_num::List;
use p4_ir::{HostPort, Link};

/// A network whose wires fit, with the rows of each switch loaded into its program.
#[derive(Drop)]
pub struct Net {
    pub(crate) ports: u16,
    pub(crate) switches: Vec<LoadedSwitch>,
    pub(crate) links: List<Link>,
    pub(crate) hosts: List<HostPort>,
    ghost wired: { IsTrue (wiring_fits (wiring_of (net_with ports switches.items links hosts))) },
}
