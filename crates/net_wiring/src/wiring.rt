//! The first difference of two networks.
ghost use Rattle.std.specs.Prelude.{◌≡◌, IfSome, None};
ghost use Rattle.p4_ir.specs.NetFits.{switch_numbers};
ghost use Rattle.p4_ir.specs.NetOf.{net_of};
ghost use Rattle.net_wiring.specs.Differences.{DiffersAt, FirstDifference, FirstOfWires, SameWires, programs};

use crate::lists::differ_at;
use crate::parts::{Code, Number, Whole};
use p4_ir::{HostPort, Link, NetData, SwitchFiles};

/// Where two networks differ first, in the order of the variants. A number is the index of the first item that differs; where one
/// list begins the other, it is the length of the shorter. An index over 2^32 - 1 is told as this.
#[derive(Clone, Copy, Debug, Drop, PartialEq, Eq)]
pub enum Wiring {
    /// The numbers of ports.
    Ports,
    /// The numbers of the switches.
    Switches(u32),
    /// The hosts, or where they are attached.
    Hosts(u32),
    Links(u32),
    /// The programs of the switches.
    Programs(u32),
}

fn switches_differ(old: &NetData, new: &NetData) -> Option<u32>
    ensures first { IfSome result (DiffersAt (switch_numbers (net_of old.now).switches)
        (switch_numbers (net_of new.now).switches)) }
    ensures same { result ≡ None → switch_numbers (net_of old.now).switches
        ≡ switch_numbers (net_of new.now).switches }
{
    differ_at::<Number, SwitchFiles>(old.switches.items(), new.switches.items())
}

fn hosts_differ(old: &NetData, new: &NetData) -> Option<u32>
    ensures first { IfSome result (DiffersAt (net_of old.now).hosts (net_of new.now).hosts) }
    ensures same { result ≡ None → (net_of old.now).hosts ≡ (net_of new.now).hosts }
{
    differ_at::<Whole, HostPort>(old.hosts.items(), new.hosts.items())
}

fn links_differ(old: &NetData, new: &NetData) -> Option<u32>
    ensures first { IfSome result (DiffersAt (net_of old.now).links (net_of new.now).links) }
    ensures same { result ≡ None → (net_of old.now).links ≡ (net_of new.now).links }
{
    differ_at::<Whole, Link>(old.links.items(), new.links.items())
}

fn programs_differ(old: &NetData, new: &NetData) -> Option<u32>
    ensures first { IfSome result (DiffersAt (programs (net_of old.now).switches)
        (programs (net_of new.now).switches)) }
    ensures same { result ≡ None → programs (net_of old.now).switches
        ≡ programs (net_of new.now).switches }
{
    differ_at::<Code, SwitchFiles>(old.switches.items(), new.switches.items())
}

/// The first difference of the wires: ports, switches, hosts, links.
pub fn wiring_only(old: &NetData, new: &NetData) -> Option<Wiring>
    ensures first { IfSome result (FirstOfWires (net_of old.now) (net_of new.now)) }
    ensures same { result ≡ None → SameWires (net_of old.now) (net_of new.now) }
{
    if old.ports != new.ports {
        return Some(Wiring::Ports);
    }
    if let Some(index) = switches_differ(old, new) {
        return Some(Wiring::Switches(index));
    }
    if let Some(index) = hosts_differ(old, new) {
        return Some(Wiring::Hosts(index));
    }
    match links_differ(old, new) {
        Some(index) => Some(Wiring::Links(index)),
        None => None,
    }
}

/// The first difference of the wires and programs: ports, switches, hosts, links, programs as trees.
pub fn wiring_differs(old: &NetData, new: &NetData) -> Option<Wiring>
    ensures first { IfSome result (FirstDifference (net_of old.now) (net_of new.now)) }
    ensures wires { result ≡ None → SameWires (net_of old.now) (net_of new.now) }
    ensures programs { result ≡ None → programs (net_of old.now).switches
        ≡ programs (net_of new.now).switches }
{
    if let Some(difference) = wiring_only(old, new) {
        return Some(difference);
    }
    match programs_differ(old, new) {
        Some(index) => Some(Wiring::Programs(index)),
        None => None,
    }
}
