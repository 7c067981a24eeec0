//! What stands in ascending lists, found by halving.
ghost use Rattle.std.specs.Prelude.{◌≡◌, ◌==◌, ◌&&◌, IsTrue, map, option_and_then, option_map, slice_get};
ghost use Rattle.std.specs.List.{find};
ghost use Rattle.cocoon_num.specs.Lists.{ascend};
ghost use Rattle.net_run.specs.Locations.{location_of};
ghost use Rattle.p4_ir.specs.Wiring.{pairs_ascend};

use crate::switch::LoadedSwitch;
use p4_ir::{HostPort, Link};

/// The host of this number, where they ascend.
pub(crate) fn host_at(hosts: &[HostPort], host: u64) -> Option<&HostPort>
    requires { IsTrue (ascend (map (λ (h : HostPort). h.host) hosts.now)) }
    ensures { option_map (λ h. h.now) result
        ≡ find (λ (h : HostPort). h.host == host) hosts.now }
{
    let at = hosts.partition_point(|known| known.host < host);
    if at == hosts.len() {
        return None;
    }
    let known = &hosts[at];
    if known.host != host {
        return None;
    }
    Some(known)
}

/// The place of the switch of this number, where they ascend.
fn switch_place(switches: &[LoadedSwitch], number: u16) -> Option<usize>
    requires { IsTrue (ascend (map (λ (s : LoadedSwitch). s.number) switches.now)) }
    ensures { option_and_then (slice_get switches.now) result
        ≡ find (λ (s : LoadedSwitch). s.number == number) switches.now }
{
    let at = switches.partition_point(|known| known.number < number);
    if at == switches.len() || switches[at].number != number {
        return None;
    }
    Some(at)
}

/// The switch of this number, where they ascend.
pub(crate) fn switch_at(switches: &[LoadedSwitch], number: u16) -> Option<&LoadedSwitch>
    requires { IsTrue (ascend (map (λ (s : LoadedSwitch). s.number) switches.now)) }
    ensures { option_map (λ s. s.now) result
        ≡ find (λ (s : LoadedSwitch). s.number == number) switches.now }
{
    match switch_place(switches, number) {
        Some(place) => switches.get(place),
        None => None,
    }
}

/// What is linked to a port, where links ascend.
pub(crate) fn link_at(links: &[Link], switch: u16, port: u16) -> Option<&Link>
    requires { IsTrue (pairs_ascend (map location_of links.now)) }
    ensures { option_map (λ l. l.now) result
        ≡ find (λ (l : Link). (l.switch == switch) && (l.port == port)) links.now }
{
    let at = links.partition_point(|known| {
        known.switch < switch || known.switch == switch && known.port < port
    });
    if at == links.len() {
        return None;
    }
    let known = &links[at];
    if known.switch != switch || known.port != port {
        return None;
    }
    Some(known)
}
