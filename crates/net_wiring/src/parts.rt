//! The parts of a network that are compared.
ghost use Rattle.std.specs.Prelude.{◌≡◌, ◌↔◌, ℕ, IsTrue};
ghost use Rattle.p4_ir.specs.NetOf.{end_of, host_port_of, link_of};
ghost use Rattle.p4_ir.specs.NetTree as tree;
ghost use Rattle.p4_ir.specs.P4Tree as p4;
ghost use Rattle.p4_ir.specs.Program.{program_of};

use crate::lists::Compared;
use crate::programs::same_program;
use p4_ir::{HostPort, Link, LinkEnd, SwitchFiles};

/// The whole value.
pub(crate) struct Whole;

/// The number of a switch.
pub(crate) struct Number;

/// The program of a switch.
pub(crate) struct Code;

impl Compared<Number> for SwitchFiles {
    ghost Meaning = { ℕ };

    ghost meaning = { λ s. s.number };

    fn is_same(&self, other: &SwitchFiles) -> bool {
        self.number == other.number
    }
}

impl Compared<Code> for SwitchFiles {
    ghost Meaning = { p4.Program };

    ghost meaning = { λ s. program_of s.program };

    fn is_same(&self, other: &SwitchFiles) -> bool {
        same_program(&self.program, &other.program)
    }
}

impl Compared<Whole> for HostPort {
    ghost Meaning = { tree.HostPort };

    ghost meaning = { host_port_of };

    fn is_same(&self, other: &HostPort) -> bool {
        self.host == other.host && same_attach(self.attach, other.attach)
    }
}

fn same_attach(one: Option<(u16, u16)>, other: Option<(u16, u16)>) -> bool
    ensures { IsTrue result ↔ (one ≡ other) }
{
    match one {
        Some((switch, port)) => is_attached(other, switch, port),
        None => other.is_none(),
    }
}

fn is_attached(attach: Option<(u16, u16)>, switch: u16, port: u16) -> bool
    ensures { IsTrue result ↔ (Some (switch, port) ≡ attach) }
{
    match attach {
        Some((other, entry)) => switch == other && port == entry,
        None => false,
    }
}

fn same_end(one: LinkEnd, other: LinkEnd) -> bool
    ensures { IsTrue result ↔ (end_of one ≡ end_of other) }
{
    match (one, other) {
        (LinkEnd::Switch(switch, port), LinkEnd::Switch(next, entry)) => {
            switch == next && port == entry
        }
        (LinkEnd::Host(host), LinkEnd::Host(next)) => host == next,
        _ => false,
    }
}

impl Compared<Whole> for Link {
    ghost Meaning = { tree.Link };

    ghost meaning = { link_of };

    fn is_same(&self, other: &Link) -> bool {
        self.switch == other.switch && self.port == other.port && same_end(self.to, other.to)
    }
}
