//! Where links lead.
ghost use Rattle.std.specs.Prelude.{◌≡◌, ◌≤◌, ◌++◌, IfOk, OnOk, flat_map, map, option_and_then, option_map};
ghost use Rattle.cocoon_syntax.specs.TreeOf.{design_of, host_of, switch_of};
ghost use Rattle.lowering_correct.specs.Network.{numbers_from};
ghost use Rattle.lowering_correct.specs.Wires as spec;
ghost use Rattle.p4_ir.specs.NetOf.{end_of, link_of};
ghost use Rattle.runtime_defs.specs.Fitting.{FitsDesign};

use crate::ends::as_end;
use crate::led::led;
use cocoon_num::NoMemory;
use cocoon_resolve::Checked;
use cocoon_syntax::{HostDecl, SwitchDecl};
use p4_ir::{Link, LinkEnd};
use runtime_defs::Defs;
use std::alloc::Global;

/// Where the egress role leads from a port of a switch.
fn link_end(
    alloc: Global,
    checked: &Checked,
    defs: &Defs,
    switches: &SwitchDecl,
    hosts: &HostDecl,
    switch: u16,
    port: u16,
) -> Result<Option<LinkEnd>, NoMemory>
    requires { FitsDesign (design_of checked.now) defs.now }
    ensures { IfOk result (λ end. option_map end_of end
        ≡ option_and_then (spec.as_end (switch_of switches.now) (host_of hosts.now))
        (spec.led (design_of checked.now) defs.now
        (spec.exit_at (switch_of switches.now) switch port))) }
{
    let values = vec![in alloc; u64::from(switch), u64::from(port)]?;
    let to = led(alloc, checked, defs, switches.out.text.bytes(), values)?;
    as_end(checked, switches, hosts, to)
}

/// Puts the link of a port at the end, if it has one.
fn push_link(
    alloc: Global,
    checked: &Checked,
    defs: &Defs,
    switches: &SwitchDecl,
    hosts: &HostDecl,
    switch: u16,
    port: u16,
    links: &mut Vec<Link>,
) -> Result<(), NoMemory>
    requires { FitsDesign (design_of checked.now) defs.now }
    ensures { OnOk result (map link_of links.new.items ≡ map link_of links.old.items
        ++ spec.port_link (design_of checked.now) defs.now (switch_of switches.now)
        (host_of hosts.now) switch port) }
{
    if let Some(to) = link_end(alloc, checked, defs, switches, hosts, switch, port)? {
        links.push(Link { switch, port, to })?;
    }
    Ok(())
}

/// Puts the links of a switch at the end, port by port.
fn push_links(
    alloc: Global,
    checked: &Checked,
    defs: &Defs,
    switches: &SwitchDecl,
    hosts: &HostDecl,
    switch: u16,
    links: &mut Vec<Link>,
) -> Result<(), NoMemory>
    requires fits { FitsDesign (design_of checked.now) defs.now }
    requires ports { switches.now.ports ≤ 256 }
    ensures { OnOk result (map link_of links.new.items ≡ map link_of links.old.items
        ++ flat_map (spec.port_link (design_of checked.now) defs.now (switch_of switches.now)
        (host_of hosts.now) switch) (numbers_from 0 switches.now.ports)) }
{
    for port in 0..switches.ports {
        let number = port as u16;
        push_link(alloc, checked, defs, switches, hosts, switch, number, links)?;
    }
    Ok(())
}

/// The links of these switches, switch by switch and port by port.
pub(crate) fn port_links(
    alloc: Global,
    checked: &Checked,
    defs: &Defs,
    switches: &SwitchDecl,
    hosts: &HostDecl,
    numbers: &[u16],
) -> Result<Vec<Link>, NoMemory>
    requires fits { FitsDesign (design_of checked.now) defs.now }
    requires ports { switches.now.ports ≤ 256 }
    ensures { IfOk result (λ ls. map link_of ls.items ≡ flat_map (λ s.
        flat_map (spec.port_link (design_of checked.now) defs.now (switch_of switches.now)
        (host_of hosts.now) s) (numbers_from 0 switches.now.ports)) numbers.now) }
{
    let mut links = Vec::new(alloc);
    for switch in numbers {
        push_links(alloc, checked, defs, switches, hosts, *switch, &mut links)?;
    }
    Ok(links)
}
