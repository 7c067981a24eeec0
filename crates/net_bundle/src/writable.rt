//! Networks that can be written.
ghost use Rattle.std.specs.Prelude.{◌≡◌, ◌<◌, IfOk, IfSome, length, map, slice_get, Some};
ghost use Rattle.p4_ir.specs.NetFits.{switch_numbers};
ghost use Rattle.p4_ir.specs.NetOf.{host_port_of, link_of, net_of, rows_of, switch_of};
ghost use Rattle.p4_ir.specs.NetTree as tree;
ghost use Rattle.net_bundle.specs.SharedRows.{AllHave, OfSwitch};
ghost use Rattle.shared_net.specs.Shared.{shared_of, switch_program};

use cocoon_num::NoMemory;
use p4_ir::{HostPort, Link, NetData, RowsFile, SwitchFiles};
use shared_net::{SharedNet, SwitchProgram};
use std::alloc::Global;

/// A network, switch by switch. Programs and rows are lent: they may be large, and all switches may have the same, but for their
/// numbers.
pub trait WritableNet {
    ghost net: { Self → tree.NetData };

    /// How many ports each switch has.
    fn ports(&self) -> u16
        ensures { result ≡ (net self.now).ports };

    fn links(&self) -> &[Link]
        ensures { map link_of result.now ≡ (net self.now).links };

    fn hosts(&self) -> &[HostPort]
        ensures { map host_port_of result.now ≡ (net self.now).hosts };

    /// How many switches it has.
    fn count(&self) -> usize
        ensures { result ≡ length (net self.now).switches };

    /// The numbers of the switches, in their order.
    fn numbers(&self, alloc: Global) -> Result<Vec<u16>, NoMemory>
        ensures { IfOk result (λ v. v.items ≡ switch_numbers (net self.now).switches) };

    /// The number of the switch at this index.
    fn number(&self, index: usize) -> u16
        requires { index < length (net self.now).switches }
        ensures { OfSwitch (net self.now).switches index (λ s. s.number ≡ result) };

    /// Its program.
    fn program(&self, index: usize) -> SwitchProgram<'_>
        requires { index < length (net self.now).switches }
        ensures { OfSwitch (net self.now).switches index (λ s. s.program ≡ switch_program result) };

    /// Its rows.
    fn rows(&self, index: usize) -> &RowsFile
        requires { index < length (net self.now).switches }
        ensures { OfSwitch (net self.now).switches index (λ s. s.rows ≡ rows_of result.now) };

    /// The rows of each switch, where all are known to have the same.
    fn shared_rows(&self) -> Option<&RowsFile>
        ensures { IfSome result (λ rows. AllHave (rows_of rows.now) (net self.now).switches) };
}

impl WritableNet for NetData {
    ghost net = { net_of };

    fn ports(&self) -> u16 {
        self.ports
    }

    fn links(&self) -> &[Link] {
        self.links.items()
    }

    fn hosts(&self) -> &[HostPort] {
        self.hosts.items()
    }

    fn count(&self) -> usize {
        self.switches.items().len()
    }

    fn numbers(&self, alloc: Global) -> Result<Vec<u16>, NoMemory> {
        numbers_of(alloc, self.switches.items())
    }

    fn number(&self, index: usize) -> u16 {
        let switches = self.switches.items();
        let switch = switch_at(switches, index);
        switch.number
    }

    fn program(&self, index: usize) -> SwitchProgram<'_> {
        let switches = self.switches.items();
        let switch = switch_at(switches, index);
        SwitchProgram::of(&switch.program)
    }

    fn rows(&self, index: usize) -> &RowsFile {
        let switches = self.switches.items();
        let switch = switch_at(switches, index);
        &switch.rows
    }

    fn shared_rows(&self) -> Option<&RowsFile> {
        None
    }
}

/// The numbers of the switches, in their order.
fn numbers_of(alloc: Global, switches: &[SwitchFiles]) -> Result<Vec<u16>, NoMemory>
    ensures { IfOk result (λ v. v.items ≡ switch_numbers (map switch_of switches.now)) }
{
    let mut numbers = Vec::new(alloc);
    for switch in switches {
        numbers.push(switch.number)?;
    }
    Ok(numbers)
}

fn switch_at(switches: &[SwitchFiles], index: usize) -> &SwitchFiles
    requires { index < length switches.now }
    ensures { slice_get (map switch_of switches.now) index ≡ Some (switch_of result.now) }
{
    &switches[index]
}

fn number_at(numbers: &[u16], index: usize) -> u16
    requires { index < length numbers.now }
    ensures { slice_get numbers.now index ≡ Some result }
{
    numbers[index]
}

impl WritableNet for SharedNet {
    ghost net = { shared_of };

    fn ports(&self) -> u16 {
        self.ports
    }

    fn links(&self) -> &[Link] {
        self.links.items()
    }

    fn hosts(&self) -> &[HostPort] {
        self.hosts.items()
    }

    fn count(&self) -> usize {
        self.switches.numbers.items().len()
    }

    fn numbers(&self, alloc: Global) -> Result<Vec<u16>, NoMemory> {
        let numbers = self.switches.numbers.items().to_vec(alloc)?;
        Ok(numbers)
    }

    fn number(&self, index: usize) -> u16 {
        let numbers = self.switches.numbers.items();
        number_at(numbers, index)
    }

    fn program(&self, index: usize) -> SwitchProgram<'_> {
        let numbers = self.switches.numbers.items();
        let number = number_at(numbers, index);
        self.switches.program(number)
    }

    fn rows(&self, _index: usize) -> &RowsFile {
        &self.switches.rows
    }

    fn shared_rows(&self) -> Option<&RowsFile> {
        Some(&self.switches.rows)
    }
}
