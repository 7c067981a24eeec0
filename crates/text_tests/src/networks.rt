//! Whole networks.
ghost use Rattle.std.specs.Prelude.{◌≡◌, IfOk, IfSome, IsTrue, map};
ghost use Rattle.text_tests.specs.Networks.{bare_program, named_network};
ghost use Rattle.text_tests.specs.TwoSwitches.{both_switches, first_switch, second_switch, the_hosts, the_links, two_switches};
ghost use Rattle.cocoon_num.specs.Tokens.{is_run};
ghost use Rattle.p4_ir.specs.NetFits.{net_fits};
ghost use Rattle.p4_ir.specs.NetOf.{end_of, host_port_of, link_of, net_of, switch_of};
ghost use Rattle.p4_ir.specs.NoRows.{no_rows};
ghost use Rattle.p4_ir.specs.Program.{header_of};

use crate::builders::{control, field, header};
use crate::first_switch::first;
use crate::second_switch::second;
use cocoon_num::{List, NoMemory};
use p4_ir::{HostPort, Link, LinkEnd, NetData, P4Header, Program, RowsFile, SwitchFiles};
use std::alloc::Global;

fn link(switch: u16, port: u16, to: LinkEnd) -> Link
    ensures { link_of result ≡ record { switch = switch; port = port; to = end_of to } }
{
    Link { switch, port, to }
}

#[tactic(auto, unfolding(crate::specs::TwoSwitches::the_links))]
fn links(alloc: Global) -> Result<Vec<Link>, NoMemory>
    ensures { IfOk result (λ v. map link_of v.items ≡ the_links) }
{
    Ok(vec![in alloc;
        link(1, 0, LinkEnd::Host(0)),
        link(1, 2, LinkEnd::Switch(7, 0)),
        link(7, 0, LinkEnd::Switch(1, 2)),
        link(7, 1, LinkEnd::Host(18_446_744_073_709_551_615)),
        link(7, 3, LinkEnd::Host(5)),
    ]?)
}

fn host(host: u64, attach: Option<(u16, u16)>) -> HostPort
    ensures { host_port_of result ≡ record { host = host; attach = attach } }
{
    HostPort { host, attach }
}

#[tactic(auto, unfolding(crate::specs::TwoSwitches::the_hosts))]
fn hosts(alloc: Global) -> Result<Vec<HostPort>, NoMemory>
    ensures { IfOk result (λ v. map host_port_of v.items ≡ the_hosts) }
{
    Ok(vec![in alloc;
        host(0, Some((1, 0))),
        host(5, None),
        host(18_446_744_073_709_551_615, Some((7, 1))),
    ]?)
}

/// The switches with their links and hosts.
#[tactic(auto, unfolding(crate::specs::TwoSwitches::two_switches))]
fn linked(alloc: Global, switches: Vec<SwitchFiles>) -> Result<NetData, NoMemory>
    requires { map switch_of switches.items ≡ both_switches }
    ensures { IfOk result (λ net. net_of net ≡ two_switches) }
{
    let links = links(alloc)?;
    let hosts = hosts(alloc)?;
    Ok(NetData {
        ports: 4,
        switches: List::from(switches),
        links: List::from(links),
        hosts: List::from(hosts),
    })
}

#[tactic(auto, using(crate::proofs::Fits::two_switches_fit))]
fn joined(alloc: Global, switches: Vec<SwitchFiles>) -> Result<NetData, NoMemory>
    requires { map switch_of switches.items ≡ both_switches }
    ensures { IfOk result (λ net. IsTrue (net_fits (net_of net))) }
{
    let net = linked(alloc, switches)?;
    Ok(net)
}

#[tactic(auto, unfolding(crate::specs::TwoSwitches::both_switches))]
fn both(alloc: Global) -> Result<Vec<SwitchFiles>, NoMemory>
    ensures { IfOk result (λ v. map switch_of v.items ≡ both_switches) }
{
    let mut switches = Vec::new(alloc);
    switches.push(first(alloc)?)?;
    switches.push(second(alloc)?)?;
    Ok(switches)
}

/// The network of two switches.
pub fn two_switches(alloc: Global) -> Result<NetData, NoMemory>
    ensures { IfOk result (λ net. IsTrue (net_fits (net_of net))) }
{
    joined(alloc, both(alloc)?)
}

/// A network of one host and no switch.
pub fn no_switch(alloc: Global) -> Result<NetData, NoMemory>
    ensures { IfOk result (λ net. IsTrue (net_fits (net_of net))) }
{
    let host = host(5, None);
    Ok(NetData {
        ports: 65_535,
        switches: List::from(Vec::new(alloc)),
        links: List::from(Vec::new(alloc)),
        hosts: List::from(vec![in alloc; host]?),
    })
}

fn bare(alloc: Global, number: u16, headers: Vec<P4Header>) -> SwitchFiles
    ensures { switch_of result
        ≡ record {
          number = number;
          program = record bare_program { headers = map header_of headers.items };
          rows = no_rows;
        } }
{
    SwitchFiles {
        number,
        program: Program {
            headers: List::from(headers),
            meta: List::from(Vec::new(alloc)),
            ingress: control(Vec::new(alloc), Vec::new(alloc)),
            egress: control(Vec::new(alloc), Vec::new(alloc)),
        },
        rows: RowsFile {
            tables: List::from(Vec::new(alloc)),
            groups: List::from(Vec::new(alloc)),
        },
    }
}

fn with_name(alloc: Global, name: &[u8]) -> Result<NetData, NoMemory>
    ensures { IfOk result (λ net. net_of net ≡ named_network name.now) }
{
    let field = field(alloc, name, 8)?;
    let header = header(alloc, b"e", vec![in alloc; field]?)?;
    let headers = vec![in alloc; header]?;
    let first = bare(alloc, 2, Vec::new(alloc));
    let second = bare(alloc, 5, headers);
    Ok(NetData {
        ports: 1,
        switches: List::from(vec![in alloc; first, second]?),
        links: List::from(Vec::new(alloc)),
        hosts: List::from(Vec::new(alloc)),
    })
}

/// A network of two switches. The second's program has one field, of this name.
pub fn named(alloc: Global, name: &[u8]) -> Result<NetData, NoMemory>
    requires { IsTrue (is_run name.now) }
    ensures { IfOk result (λ net. IsTrue (net_fits (net_of net))) }
{
    let net = with_name(alloc, name)?;
    Ok(net)
}

/// The network that a case names.
pub fn network(alloc: Global, name: &str) -> Result<Option<NetData>, NoMemory>
    ensures { IfOk result (λ n. IfSome n (λ net. IsTrue (net_fits (net_of net)))) }
{
    match name {
        "two" => Ok(Some(two_switches(alloc)?)),
        "none" => Ok(Some(no_switch(alloc)?)),
        _ => Ok(None),
    }
}

/// A name of so many letters, and at least one.
pub fn name(alloc: Global, length: usize) -> Result<Vec<u8>, NoMemory>
    ensures { IfOk result (λ v. IsTrue (is_run v.items)) }
{
    let mut name = vec![in alloc; b'a']?;
    for _ in 1..length {
        name.push(b'a')?;
    }
    Ok(name)
}
