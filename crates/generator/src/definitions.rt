//! The definitions of the network that is generated.
ghost use Rattle.std.specs.Prelude.{◌≡◌, ◌≤◌, ◌<◌, IfOk, length};
ghost use Rattle.text_lines.specs.Printing.{Prints};
ghost use Rattle.generator.specs.Definitions as spec;

use cocoon_num::NoMemory;
use std::alloc::Global;
use text_lines::Printer;

/// The address of a host.
pub(crate) fn address(host: u32) -> u32
    requires { host ≤ 200 }
    ensures { result ≡ spec.address host }
{
    0x0a00_0001 + host
}

/// The host that this one may send to.
fn next(hosts: u32, host: u32) -> u32
    requires one { host < hosts }
    requires few { hosts ≤ 200 }
    ensures next { result ≡ spec.next hosts host }
    ensures few { result ≤ 200 }
{
    if host + 1 == hosts { 0 } else { host + 1 }
}

/// A number behind some text.
fn push_numbered(before: &str, number: u32, out: &mut Printer)
    ensures { Prints out.old (spec.numbered before.now number) out.new }
{
    out.push(before);
    out.push_number(number);
}

/// A table with a row for each host.
#[derive(Clone, Copy, Debug, Drop)]
enum Table {
    /// Which addresses are hosts.
    Hosts,
    /// Who may send to whom.
    Access,
    SwitchOf,
    PortOf,
    HostAt,
}

impl Table {
    fn push_default(self, out: &mut Printer)
        ensures { Prints out.old (spec.default_of self) out.new }
    {
        out.push(match self {
            Table::Hosts => "default cHost = false;\n",
            Table::Access => "default acl = false;\n",
            Table::SwitchOf => "default swOf = 16w0;\n",
            Table::PortOf => "default portOf = 16w0;\n",
            Table::HostAt => "default hostAt = 32w0;\n",
        });
    }

    /// The row of a host.
    fn push_row(self, hosts: u32, host: u32, out: &mut Printer)
        requires one { host < hosts }
        requires few { hosts ≤ 200 }
        ensures { Prints out.old (spec.row_of self hosts host) out.new }
    {
        match self {
            Table::Hosts => {
                push_numbered("define cHost(32w", address(host), out);
                out.push(") = true;\n");
            }
            Table::Access => {
                push_numbered("define acl(32w", address(host), out);
                push_numbered(", 32w", address(next(hosts, host)), out);
                out.push(") = true;\n");
            }
            Table::SwitchOf => {
                push_numbered("define swOf(32w", address(host), out);
                out.push(") = 16w1;\n");
            }
            Table::PortOf => {
                push_numbered("define portOf(32w", address(host), out);
                push_numbered(") = 16w", host, out);
                out.push(";\n");
            }
            Table::HostAt => {
                push_numbered("define hostAt(16w1, 16w", host, out);
                push_numbered(") = 32w", address(host), out);
                out.push(";\n");
            }
        }
    }

    /// The rows of all hosts.
    fn push_rows(self, hosts: u32, out: &mut Printer)
        requires { hosts ≤ 200 }
        ensures { Prints out.old (spec.rows_of self hosts hosts) out.new }
    {
        for host in 0..hosts {
            self.push_row(hosts, host, out);
        }
    }

    fn push(self, hosts: u32, out: &mut Printer)
        requires { hosts ≤ 200 }
        ensures { Prints out.old (spec.table_text hosts self) out.new }
    {
        self.push_default(out);
        self.push_rows(hosts, out);
    }
}

/// The only switch.
fn push_switch(out: &mut Printer)
    ensures { Prints out.old spec.switch_text out.new }
{
    out.push("default sw = false;\ndefine sw(16w1) = true;\n");
}

/// The text of the definitions for so many hosts, at most 200: host 0 has the address 10.0.0.1, and each
/// host the next one.
pub fn definitions_text(alloc: Global, hosts: u32) -> Result<Vec<u8>, NoMemory>
    requires hosts { hosts ≤ 200 }
    ensures text { IfOk result (λ text. text.items ≡ spec.definitions_text hosts) }
    ensures short { IfOk result (λ text. length text.items ≤ 125100) }
{
    let mut out = Printer::new(alloc);
    Table::Hosts.push(hosts, &mut out);
    Table::Access.push(hosts, &mut out);
    push_switch(&mut out);
    Table::SwitchOf.push(hosts, &mut out);
    Table::PortOf.push(hosts, &mut out);
    Table::HostAt.push(hosts, &mut out);
    out.finish()
}
