//! The rules of the lists of a network.
ghost use Rattle.std.specs.Prelude.{◌≡◌, ◌∷◌, ◌+◌, ◌<◌, ◌&&◌, ◌||◌, ◌==◌, nat_lt, IfOk, IsTrue, drop, length, map, option_map, string_bytes};
ghost use Rattle.cocoon_num.specs.Lists.{ascend, each, has_number};
ghost use Rattle.p4_ir.specs.NetOf.{end_of, host_port_of, link_of};
ghost use Rattle.p4_ir.specs.NetTree as tree;
ghost use Rattle.p4_ir.specs.Wiring.{host_numbers, pairs_ascend};
ghost use Rattle.net_bundle.specs.NetFileOf.{kept_of};
ghost use Rattle.net_bundle.specs.NetForm as spec;

use crate::BundleFile;
use crate::known::{is_location, may_have};
use crate::net_json::KeptDigest;
use cocoon_num::NoMemory;
use p4_ir::{HostPort, Link, LinkEnd};
use std::alloc::Global;

// ---- files

/// The names of the files of these switches, in order.
pub(crate) fn file_names(alloc: Global, switches: &[u16]) -> Result<Vec<String>, NoMemory>
    ensures { IfOk result (λ names. map (λ text. string_bytes text) names.items
        ≡ spec.file_names switches.now) }
{
    let mut names = Vec::new(alloc);
    for switch in switches {
        names.push(BundleFile::Program(*switch).name(alloc)?)?;
        names.push(BundleFile::Rows(*switch).name(alloc)?)?;
    }
    Ok(names)
}

fn file_at(files: &[KeptDigest], index: usize) -> &KeptDigest
    requires { index < length files.now }
    ensures { drop index files.now ≡ result.now ∷ drop (index + 1) files.now }
{
    &files[index]
}

/// Whether the files have these names, in order.
#[tactic(auto, using(crate::proofs::NetSeen::files_done, crate::proofs::NetSeen::files_end))]
pub(crate) fn are_names(names: &[String], files: &[KeptDigest]) -> bool
    ensures { result
        ≡ spec.are_names (map (λ text. string_bytes text) names.now) (map kept_of files.now) }
{
    let mut index = 0;
    for name in names {
        if index >= files.len() {
            return false;
        }
        let file = file_at(files, index);
        if file.name.as_str() != name.as_str() {
            return false;
        }
        index += 1;
    }
    index == files.len()
}

// ---- hosts

/// The numbers of the hosts.
pub(crate) fn numbers_of(alloc: Global, hosts: &[HostPort]) -> Result<Vec<u64>, NoMemory>
    ensures { IfOk result (λ numbers. numbers.items
        ≡ host_numbers (map host_port_of hosts.now)) }
{
    let mut numbers = Vec::new(alloc);
    for host in hosts {
        numbers.push(host.host)?;
    }
    Ok(numbers)
}

fn host_fits(ports: Option<u16>, switches: &Option<Vec<u64>>, host: HostPort) -> bool
    requires { IsTrue (spec.where_known ascend (option_map (λ list. list.items) switches.now)) }
    ensures { result ≡ spec.host_fits ports (option_map (λ list. list.items) switches.now)
        (host_port_of host) }
{
    match host.attach {
        Some((switch, port)) => is_location(ports, switches, switch, port),
        None => true,
    }
}

/// Whether each host is attached at a port of the network, as far as it is known, or nowhere.
pub(crate) fn all_attached(
    ports: Option<u16>,
    switches: &Option<Vec<u64>>,
    hosts: &[HostPort],
) -> bool
    requires { IsTrue (spec.where_known ascend (option_map (λ list. list.items) switches.now)) }
    ensures { result
        ≡ each (spec.host_fits ports (option_map (λ list. list.items) switches.now))
        (map host_port_of hosts.now) }
{
    for host in hosts {
        if !host_fits(ports, switches, *host) {
            return false;
        }
    }
    true
}

// ---- links

fn end_fits(
    ports: Option<u16>,
    switches: &Option<Vec<u64>>,
    hosts: &Option<Vec<u64>>,
    end: LinkEnd,
) -> bool
    requires switches { IsTrue (spec.where_known ascend
        (option_map (λ list. list.items) switches.now)) }
    requires hosts { IsTrue (spec.where_known ascend (option_map (λ list. list.items) hosts.now)) }
    ensures { result ≡ spec.end_fits ports (option_map (λ list. list.items) switches.now)
        (option_map (λ list. list.items) hosts.now) (end_of end) }
{
    match end {
        LinkEnd::Switch(switch, port) => is_location(ports, switches, switch, port),
        LinkEnd::Host(host) => may_have(hosts, host),
    }
}

fn link_fits(
    ports: Option<u16>,
    switches: &Option<Vec<u64>>,
    hosts: &Option<Vec<u64>>,
    link: Link,
) -> bool
    requires switches { IsTrue (spec.where_known ascend
        (option_map (λ list. list.items) switches.now)) }
    requires hosts { IsTrue (spec.where_known ascend (option_map (λ list. list.items) hosts.now)) }
    ensures { result ≡ spec.link_fits ports (option_map (λ list. list.items) switches.now)
        (option_map (λ list. list.items) hosts.now) (link_of link) }
{
    let from = is_location(ports, switches, link.switch, link.port);
    let to = end_fits(ports, switches, hosts, link.to);
    from && to
}

/// Whether each link joins a port of the network to another or to a host, as far as they are known.
pub(crate) fn all_joined(
    ports: Option<u16>,
    switches: &Option<Vec<u64>>,
    hosts: &Option<Vec<u64>>,
    links: &[Link],
) -> bool
    requires switches { IsTrue (spec.where_known ascend
        (option_map (λ list. list.items) switches.now)) }
    requires hosts { IsTrue (spec.where_known ascend (option_map (λ list. list.items) hosts.now)) }
    ensures { result ≡ each (spec.link_fits ports (option_map (λ list. list.items) switches.now)
        (option_map (λ list. list.items) hosts.now)) (map link_of links.now) }
{
    for link in links {
        if !link_fits(ports, switches, hosts, *link) {
            return false;
        }
    }
    true
}

fn is_before(first: Link, second: Link) -> bool
    ensures { result ≡ nat_lt first.switch second.switch
        || ((first.switch == second.switch) && nat_lt first.port second.port) }
{
    first.switch < second.switch || (first.switch == second.switch && first.port < second.port)
}

fn rises(first: Link, rest: &[Link]) -> bool
    ensures { result ≡ pairs_ascend ((first.switch, first.port)
        ∷ map (λ (l : tree.Link). (l.switch, l.port)) (map link_of rest.now)) }
{
    let mut last = first;
    for link in rest {
        if !is_before(last, *link) {
            return false;
        }
        last = *link;
    }
    true
}

/// Whether the links ascend by switch and port, each once.
pub(crate) fn links_ascend(links: &[Link]) -> bool
    ensures { result
        ≡ pairs_ascend (map (λ (l : tree.Link). (l.switch, l.port)) (map link_of links.now)) }
{
    match links.split_first() {
        Some((first, rest)) => rises(*first, rest),
        None => true,
    }
}
