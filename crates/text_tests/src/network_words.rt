//! Networks in words, compared.
use case_files::{Printer, first_word, number, numbers};
use cocoon_num::List;
use net_wiring::{Wiring, wiring_differs, wiring_only};
use p4_ir::{Control, HostPort, Link, LinkEnd, NetData, Program, RowsFile, SwitchFiles};
use std::alloc::Global;

/// A network in the making.
#[derive(Drop)]
pub struct Draft {
    alloc: Global,
    ports: u16,
    switches: Vec<SwitchFiles>,
    links: Vec<Link>,
    hosts: Vec<HostPort>,
}

impl Draft {
    /// A network without switches, links and hosts.
    pub fn new(alloc: Global) -> Draft {
        Draft {
            alloc,
            ports: 0,
            switches: Vec::new(alloc),
            links: Vec::new(alloc),
            hosts: Vec::new(alloc),
        }
    }

    /// Adds a switch without rows.
    pub fn add_switch(&mut self, number: u16, program: Program) -> Option<()> {
        let rows = RowsFile {
            tables: List::from(Vec::new(self.alloc)),
            groups: List::from(Vec::new(self.alloc)),
        };
        let switch = SwitchFiles {
            number,
            program,
            rows,
        };
        self.switches.push(switch).ok()
    }

    /// Adds `HOST SWITCH PORT`, or `HOST`.
    fn add_host(&mut self, words: &str) -> Option<()> {
        let values = numbers(self.alloc, words, ' ')?;
        let host = *values.first()?;
        let attach = match (values.get(1), values.get(2)) {
            (Some(switch), Some(port)) => Some((small(*switch)?, small(*port)?)),
            _ => None,
        };
        self.hosts.push(HostPort { host, attach }).ok()
    }

    /// Adds `SWITCH PORT host HOST`, or `SWITCH PORT switch SWITCH PORT`.
    fn add_link(&mut self, words: &str) -> Option<()> {
        let (from, to) = match words.split_once(" host ") {
            Some((from, host)) => (from, LinkEnd::Host(number(host)?)),
            None => {
                let (from, next) = words.split_once(" switch ")?;
                let (switch, port) = location(next)?;
                (from, LinkEnd::Switch(switch, port))
            }
        };
        let (switch, port) = location(from)?;
        self.links.push(Link { switch, port, to }).ok()
    }

    fn add(&mut self, part: &str) -> Option<()> {
        let (word, rest) = first_word(part);
        match word {
            "ports" => {
                self.ports = small(number(rest)?)?;
                Some(())
            }
            "switch" => {
                let program = no_program(self.alloc);
                self.add_switch(small(number(rest)?)?, program)
            }
            "host" => self.add_host(rest),
            "link" => self.add_link(rest),
            _ => None,
        }
    }

    /// The network of all that was added.
    pub fn finish(self) -> NetData {
        NetData {
            ports: self.ports,
            switches: List::from(self.switches),
            links: List::from(self.links),
            hosts: List::from(self.hosts),
        }
    }
}

fn small(number: u64) -> Option<u16> {
    u16::try_from(number).ok()
}

/// `SWITCH PORT`
fn location(words: &str) -> Option<(u16, u16)> {
    let (switch, port) = words.split_once(' ')?;
    Some((small(number(switch)?)?, small(number(port)?)?))
}

fn no_control(alloc: Global) -> Control {
    Control {
        tables: List::from(Vec::new(alloc)),
        body: List::from(Vec::new(alloc)),
    }
}

fn no_program(alloc: Global) -> Program {
    Program {
        headers: List::from(Vec::new(alloc)),
        meta: List::from(Vec::new(alloc)),
        ingress: no_control(alloc),
        egress: no_control(alloc),
    }
}

/// The network of parts with a `;` between them.
pub fn network(alloc: Global, words: &str) -> Option<NetData> {
    let mut draft = Draft::new(alloc);
    for part in words.split(';') {
        draft.add(part.trim())?;
    }
    Some(draft.finish())
}

fn put_index(kind: &str, index: u32, given: &mut Printer) {
    given.put(kind);
    given.put_number(u64::from(index));
}

fn put_wiring(difference: Option<Wiring>, given: &mut Printer) {
    match difference {
        Some(Wiring::Ports) => given.put("ports"),
        Some(Wiring::Switches(index)) => put_index("switches ", index, given),
        Some(Wiring::Hosts(index)) => put_index("hosts ", index, given),
        Some(Wiring::Links(index)) => put_index("links ", index, given),
        Some(Wiring::Programs(index)) => put_index("programs ", index, given),
        None => given.put("same"),
    }
}

/// Puts how two networks differ in their wires; behind it how they differ with their programs, where that is something else.
pub fn put_both(old: &NetData, new: &NetData, given: &mut Printer) {
    let only = wiring_only(old, new);
    let all = wiring_differs(old, new);
    put_wiring(only, given);
    if only != all {
        given.put(", ");
        put_wiring(all, given);
    }
}

/// The same of `NETWORK => NETWORK`.
pub fn put_compared(alloc: Global, asked: &str, given: &mut Printer) {
    let (old, new) = asked.split_once(" => ").unwrap_or_default();
    match (network(alloc, old), network(alloc, new)) {
        (Some(old), Some(new)) => put_both(&old, &new, given),
        _ => given.put("no network"),
    }
}
