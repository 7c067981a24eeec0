//! The wires of a network alone.
ghost use Rattle.std.specs.Prelude.{◌≡◌, ◌≤◌, IfOk, Some};
ghost use Rattle.cocoon_syntax.specs.TreeOf.{design_of};
ghost use Rattle.lower_net.specs.Wired.{HasWires, bare_network};
ghost use Rattle.lower_net.specs.NetDeclarations.{parts_of};
ghost use Rattle.lowering.specs.Roles.{net_parts};
ghost use Rattle.p4_ir.specs.NetOf.{net_of};
ghost use Rattle.runtime_defs.specs.Fitting.{FitsDesign};

use crate::hosts::host_ports;
use crate::links::port_links;
use crate::{Parts, find_parts};
use cocoon_num::{List, NoMemory};
use cocoon_resolve::Checked;
use lowering_correct::types::forks_are;
use net_wiring::bare_switches;
use p4_ir::NetData;
use runtime_defs::Defs;
use std::alloc::Global;

/// The wires of these switches and hosts.
fn make_wires(
    alloc: Global,
    checked: &Checked,
    defs: &Defs,
    parts: &Parts<'_>,
    numbers: &[u16],
    hosts: &[u64],
) -> Result<NetData, NoMemory>
    requires fits { FitsDesign (design_of checked.now) defs.now }
    requires ports { parts.now.switches.now.ports ≤ 256 }
    ensures { IfOk result (λ wires. net_of wires ≡ bare_network (design_of checked.now) defs.now
        (parts_of (design_of checked.now) parts.now) numbers.now hosts.now) }
{
    let ports = parts.switches.ports as u16;
    let switches = bare_switches(alloc, numbers)?;
    let links = port_links(alloc, checked, defs, parts.switches, parts.hosts, numbers)?;
    let hosts = host_ports(alloc, checked, defs, parts.switches, parts.hosts, hosts)?;
    Ok(NetData {
        ports,
        switches: List::from(switches),
        links: List::from(links),
        hosts: List::from(hosts),
    })
}

/// The wires of the network of these parts.
fn wires_of_parts(
    alloc: Global,
    checked: &Checked,
    defs: &Defs,
    parts: &Parts<'_>,
) -> Result<NetData, NoMemory>
    requires fits { FitsDesign (design_of checked.now) defs.now }
    requires parts { net_parts (design_of checked.now)
        ≡ Some (parts_of (design_of checked.now) parts.now) }
    requires ports { parts.now.switches.now.ports ≤ 256 }
    ensures { IfOk result (λ wires. HasWires (design_of checked.now) defs.now (net_of wires)) }
{
    let numbers = defs.switches(checked);
    let hosts = defs.hosts(checked);
    make_wires(alloc, checked, defs, parts, numbers, hosts)
}

/// The wires of the network of a design under its definitions, whatever limits that exceeds. No program is made, and no rows.
pub fn wires(alloc: Global, checked: &Checked, defs: &Defs) -> Result<NetData, NoMemory>
    requires { FitsDesign (design_of checked.now) defs.now }
    ensures { IfOk result (λ wires. HasWires (design_of checked.now) defs.now (net_of wires)) }
{
    forks_are();
    checked.design();
    let parts = find_parts(checked).unwrap();
    wires_of_parts(alloc, checked, defs, &parts)
}
