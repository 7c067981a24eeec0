//! Files of networks, read.
ghost use Rattle.std.specs.Prelude.{◌≡◌, IfErr, IfOk, IsTrue, Ok, Result, codes, map, option_map, string_bytes};
ghost use Rattle.serde_json.specs.View.{view};
ghost use Rattle.cocoon_num.specs.Lists.{ascend};
ghost use Rattle.p4_ir.specs.NetOf.{host_port_of, link_of};
ghost use Rattle.p4_ir.specs.Wiring.{host_numbers};
ghost use Rattle.net_bundle.specs.NetFileOf.{kept_of, net_file_of};
ghost use Rattle.json_forms.specs.Forms.{fitting, has_keys, list_form, member_form};
ghost use Rattle.net_bundle.specs.NetForm as spec;
ghost use Rattle.json_forms.specs.Reading.{Answered, Refused, Shaped};

use crate::found_kind::BundleJson;
use crate::known::ascends;
use crate::net_items::Digits;
use crate::net_json::{KeptDigest, NetFile};
use crate::net_rules::{all_attached, all_joined, are_names, file_names, links_ascend, numbers_of};
use cocoon_num::{NoMemory, Text};
use json_forms::{FormFault, has_keys, member, value_of};
use p4_ir::{HostPort, Link};
use serde_json::Value;
use std::alloc::Global;

/// The members of a network's file, each where it is of its form.
#[derive(Drop)]
struct Members {
    cocoon: Option<u64>,
    design: Option<Digits>,
    files: Option<Vec<KeptDigest>>,
    hosts: Option<Vec<HostPort>>,
    links: Option<Vec<Link>>,
    ports: Option<u16>,
    switches: Option<Vec<u16>>,
}

fn cocoon_of(alloc: Global, value: &Value) -> Result<Option<u64>, NoMemory>
    ensures { IfOk result (λ read. read ≡ spec.cocoon_of (view value.now)) }
{
    match member::<BundleJson, u64>(alloc, value, "cocoon")? {
        Some(number) if number == 1 => Ok(Some(number)),
        _ => Ok(None),
    }
}

/// The same numbers.
fn widened(alloc: Global, numbers: &[u16]) -> Result<Vec<u64>, NoMemory>
    ensures { IfOk result (λ list. list.items ≡ numbers.now) }
{
    let mut list = Vec::new(alloc);
    for number in numbers {
        list.push(*number as u64)?;
    }
    Ok(list)
}

fn switches_of(alloc: Global, value: &Value) -> Result<Option<Vec<u16>>, NoMemory>
    ensures { IfOk result (λ read. option_map (λ list. list.items) read
        ≡ spec.switches_of (view value.now)) }
{
    let Some(switches) = member::<BundleJson, Vec<u16>>(alloc, value, "switches")? else {
        return Ok(None);
    };
    let numbers = widened(alloc, &switches)?;
    if !ascends(&numbers) {
        return Ok(None);
    }
    Ok(Some(switches))
}

/// The numbers of the switches, where they are known.
fn known_switches(alloc: Global, switches: &Option<Vec<u16>>) -> Result<Option<Vec<u64>>, NoMemory>
    ensures { IfOk result (λ known. option_map (λ list. list.items) known
        ≡ option_map (λ list. list.items) switches.now) }
{
    match switches {
        Some(switches) => Ok(Some(widened(alloc, switches)?)),
        None => Ok(None),
    }
}

fn files_fit(
    alloc: Global,
    switches: &Option<Vec<u16>>,
    files: &[KeptDigest],
) -> Result<bool, NoMemory>
    ensures { IfOk result (λ fit. fit ≡ spec.files_fit
        (option_map (λ list. list.items) switches.now) (map kept_of files.now)) }
{
    match switches {
        Some(switches) => {
            let names = file_names(alloc, switches)?;
            Ok(are_names(&names, files))
        }
        None => Ok(true),
    }
}

fn files_of(
    alloc: Global,
    value: &Value,
    switches: &Option<Vec<u16>>,
) -> Result<Option<Vec<KeptDigest>>, NoMemory>
    ensures { IfOk result (λ read. option_map (λ list. map kept_of list.items) read
        ≡ fitting (spec.files_fit (option_map (λ list. list.items) switches.now))
        (member_form (list_form spec.kept_form) (codes "files") (view value.now))) }
{
    let Some(files) = member::<BundleJson, Vec<KeptDigest>>(alloc, value, "files")? else {
        return Ok(None);
    };
    if !files_fit(alloc, switches, &files)? {
        return Ok(None);
    }
    Ok(Some(files))
}

fn hosts_fit(
    alloc: Global,
    ports: Option<u16>,
    switches: &Option<Vec<u64>>,
    hosts: &[HostPort],
) -> Result<bool, NoMemory>
    requires { IsTrue (spec.where_known ascend (option_map (λ list. list.items) switches.now)) }
    ensures { IfOk result (λ fit. fit ≡ spec.hosts_fit ports
        (option_map (λ list. list.items) switches.now) (map host_port_of hosts.now)) }
{
    let numbers = numbers_of(alloc, hosts)?;
    let attached = all_attached(ports, switches, hosts);
    let ascending = ascends(&numbers);
    Ok(attached && ascending)
}

fn hosts_of(
    alloc: Global,
    value: &Value,
    ports: Option<u16>,
    switches: &Option<Vec<u64>>,
) -> Result<Option<Vec<HostPort>>, NoMemory>
    requires { IsTrue (spec.where_known ascend (option_map (λ list. list.items) switches.now)) }
    ensures { IfOk result (λ read. option_map (λ list. map host_port_of list.items) read
        ≡ fitting (spec.hosts_fit ports (option_map (λ list. list.items) switches.now))
        (member_form (list_form spec.host_form) (codes "hosts") (view value.now))) }
{
    let Some(hosts) = member::<BundleJson, Vec<HostPort>>(alloc, value, "hosts")? else {
        return Ok(None);
    };
    if !hosts_fit(alloc, ports, switches, &hosts)? {
        return Ok(None);
    }
    Ok(Some(hosts))
}

/// The numbers of the hosts, where they are known.
fn known_hosts(alloc: Global, hosts: &Option<Vec<HostPort>>) -> Result<Option<Vec<u64>>, NoMemory>
    ensures { IfOk result (λ known. option_map (λ list. list.items) known
        ≡ option_map host_numbers (option_map (λ list. map host_port_of list.items) hosts.now)) }
{
    match hosts {
        Some(hosts) => Ok(Some(numbers_of(alloc, hosts)?)),
        None => Ok(None),
    }
}

fn links_fit(
    ports: Option<u16>,
    switches: &Option<Vec<u64>>,
    hosts: &Option<Vec<u64>>,
    links: &[Link],
) -> bool
    requires switches { IsTrue (spec.where_known ascend
        (option_map (λ list. list.items) switches.now)) }
    requires hosts { IsTrue (spec.where_known ascend (option_map (λ list. list.items) hosts.now)) }
    ensures { result ≡ spec.links_fit ports (option_map (λ list. list.items) switches.now)
        (option_map (λ list. list.items) hosts.now) (map link_of links.now) }
{
    let joined = all_joined(ports, switches, hosts, links);
    let ascending = links_ascend(links);
    joined && ascending
}

fn links_of(
    alloc: Global,
    value: &Value,
    ports: Option<u16>,
    switches: &Option<Vec<u64>>,
    hosts: &Option<Vec<u64>>,
) -> Result<Option<Vec<Link>>, NoMemory>
    requires switches { IsTrue (spec.where_known ascend
        (option_map (λ list. list.items) switches.now)) }
    requires hosts { IsTrue (spec.where_known ascend (option_map (λ list. list.items) hosts.now)) }
    ensures { IfOk result (λ read. option_map (λ list. map link_of list.items) read
        ≡ fitting (spec.links_fit ports (option_map (λ list. list.items) switches.now)
        (option_map (λ list. list.items) hosts.now))
        (member_form (list_form spec.link_form) (codes "links") (view value.now))) }
{
    let Some(links) = member::<BundleJson, Vec<Link>>(alloc, value, "links")? else {
        return Ok(None);
    };
    if !links_fit(ports, switches, hosts, &links) {
        return Ok(None);
    }
    Ok(Some(links))
}

#[tactic(auto, using(crate::proofs::Sought::fitting_known, crate::proofs::Sought::hosts_known))]
fn members_of(alloc: Global, value: &Value) -> Result<Members, NoMemory>
    ensures cocoon { IfOk result (λ m. m.cocoon ≡ spec.cocoon_of (view value.now)) }
    ensures design { IfOk result (λ m. option_map (λ d. string_bytes d.text) m.design
        ≡ spec.design_of (view value.now)) }
    ensures files { IfOk result (λ m. option_map (λ list. map kept_of list.items) m.files
        ≡ spec.files_of (view value.now)) }
    ensures hosts { IfOk result (λ m. option_map (λ list. map host_port_of list.items) m.hosts
        ≡ spec.hosts_of (view value.now)) }
    ensures links { IfOk result (λ m. option_map (λ list. map link_of list.items) m.links
        ≡ spec.links_of (view value.now)) }
    ensures ports { IfOk result (λ m. m.ports ≡ spec.ports_of (view value.now)) }
    ensures switches { IfOk result (λ m. option_map (λ list. list.items) m.switches
        ≡ spec.switches_of (view value.now)) }
{
    let cocoon = cocoon_of(alloc, value)?;
    let design = member::<BundleJson, Digits>(alloc, value, "design")?;
    let ports = member::<BundleJson, u16>(alloc, value, "ports")?;
    let switches = switches_of(alloc, value)?;
    let files = files_of(alloc, value, &switches)?;
    let numbers = known_switches(alloc, &switches)?;
    let hosts = hosts_of(alloc, value, ports, &numbers)?;
    let host_numbers = known_hosts(alloc, &hosts)?;
    let links = links_of(alloc, value, ports, &numbers, &host_numbers)?;
    Ok(Members {
        cocoon,
        design,
        files,
        hosts,
        links,
        ports,
        switches,
    })
}

/// All members, where each is of its form.
fn all(alloc: Global, members: Members) -> Result<NetFile, FormFault>
    ensures file { IfOk result (λ file. spec.all_members members.cocoon
        (option_map (λ d. string_bytes d.text) members.design)
        (option_map (λ list. map kept_of list.items) members.files)
        (option_map (λ list. map host_port_of list.items) members.hosts)
        (option_map (λ list. map link_of list.items) members.links) members.ports
        (option_map (λ list. list.items) members.switches) ≡ Ok (net_file_of file)) }
    ensures fault { IfErr result (λ fault. Shaped (spec.all_members members.cocoon
        (option_map (λ d. string_bytes d.text) members.design)
        (option_map (λ list. map kept_of list.items) members.files)
        (option_map (λ list. map host_port_of list.items) members.hosts)
        (option_map (λ list. map link_of list.items) members.links) members.ports
        (option_map (λ list. list.items) members.switches)) fault) }
{
    let Members {
        cocoon,
        design,
        files,
        hosts,
        links,
        ports,
        switches,
    } = members;
    let Some(_) = cocoon else {
        return Err(FormFault::Shape(Text::from(alloc, b"/cocoon")?));
    };
    let Some(design) = design else {
        return Err(FormFault::Shape(Text::from(alloc, b"/design")?));
    };
    let Some(files) = files else {
        return Err(FormFault::Shape(Text::from(alloc, b"/files")?));
    };
    let Some(hosts) = hosts else {
        return Err(FormFault::Shape(Text::from(alloc, b"/hosts")?));
    };
    let Some(links) = links else {
        return Err(FormFault::Shape(Text::from(alloc, b"/links")?));
    };
    let Some(ports) = ports else {
        return Err(FormFault::Shape(Text::from(alloc, b"/ports")?));
    };
    let Some(switches) = switches else {
        return Err(FormFault::Shape(Text::from(alloc, b"/switches")?));
    };
    Ok(NetFile {
        design: design.text,
        files,
        hosts,
        links,
        ports,
        switches,
    })
}

/// Whether the value is an object with the keys of a network's file.
fn is_net(value: &Value) -> bool
    ensures { result ≡ has_keys spec.net_keys (view value.now) }
{
    let keys = &[
        "cocoon", "design", "files", "hosts", "links", "ports", "switches",
    ];
    has_keys(value, keys)
}

/// The file of a network that the value stands for.
fn net_of_value(alloc: Global, value: &Value) -> Result<NetFile, FormFault>
    ensures file { IfOk result (λ file. spec.net_form (view value.now) ≡ Ok (net_file_of file)) }
    ensures fault { IfErr result (λ fault. Shaped (spec.net_form (view value.now)) fault) }
{
    if !is_net(value) {
        return Err(FormFault::Shape(Text::from(alloc, b"")?));
    }
    let members = members_of(alloc, value)?;
    all(alloc, members)
}

/// The file of a network of these bytes, or why they are none.
pub fn read_net(alloc: Global, bytes: &[u8]) -> Result<NetFile, FormFault>
    ensures file { IfOk result (λ file. Answered spec.net_form bytes.now (Ok (net_file_of file))) }
    ensures fault { IfErr result (λ fault. Refused spec.net_form bytes.now fault) }
{
    let value = value_of(alloc, bytes)?;
    net_of_value(alloc, &value)
}
