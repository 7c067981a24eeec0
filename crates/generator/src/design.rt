//! The design of the network that is generated.
ghost use Rattle.std.specs.Prelude.{◌≡◌, IfOk};
ghost use Rattle.text_lines.specs.Printing.{Prints};
ghost use Rattle.generator.specs.Design as spec;

use cocoon_num::NoMemory;
use std::alloc::Global;
use text_lines::Printer;

/// The topmost specification: which packets may reach which host.
fn push_policy(out: &mut Printer)
    ensures { Prints out.old spec.policy out.new }
{
    out.push("packet { header ip { src: bit<32>; dst: bit<32>; } }\n");
    out.push("function cHost(a: bit<32>): bool;\n");
    out.push("function acl(s: bit<32>, d: bit<32>): bool;\n");
    out.push("role HostOut[a: bit<32>] | cHost(a) = {\n");
    out.push("  filter pkt.ip.src == a and acl(pkt.ip.src, pkt.ip.dst);\n");
    out.push("  send HostIn[pkt.ip.dst];\n");
    out.push("}\n");
    out.push("role HostIn[a: bit<32>] | cHost(a);\n");
    out.push("host (HostOut, HostIn);\n");
}

/// The functions of the refinement, and what is assumed of them.
fn push_functions(out: &mut Printer)
    ensures { Prints out.old spec.functions out.new }
{
    out.push("refine HostOut within 3 {\n");
    out.push("  function sw(s: bit<16>): bool;\n");
    out.push("  function swOf(a: bit<32>): bit<16>;\n");
    out.push("  function portOf(a: bit<32>): bit<16>;\n");
    out.push("  function hostAt(s: bit<16>, p: bit<16>): bit<32>;\n");
    out.push("  assume (a: bit<32>) cHost(a) => hostAt(swOf(a), portOf(a)) == a;\n");
}

/// A host sends to its switch, and the switch filters.
fn push_ingress(out: &mut Printer)
    ensures { Prints out.old spec.ingress out.new }
{
    out.push("  role HostOut[a: bit<32>] | cHost(a) = {\n");
    out.push("    send SwIn[swOf(a), portOf(a)];\n");
    out.push("  }\n");
    out.push("  role SwIn[s: bit<16>, p: bit<16>] | sw(s) and p < 16w256 = {\n");
    out.push("    filter pkt.ip.src == hostAt(s, p);\n");
    out.push("    filter acl(pkt.ip.src, pkt.ip.dst);\n");
    out.push("    filter cHost(pkt.ip.dst) and swOf(pkt.ip.dst) == s;\n");
    out.push("    send SwOut[s, portOf(pkt.ip.dst)];\n");
    out.push("  }\n");
}

/// The switch sends to its hosts.
fn push_egress(out: &mut Printer)
    ensures { Prints out.old spec.egress out.new }
{
    out.push("  role SwOut[s: bit<16>, p: bit<16>] | sw(s) and p < 16w256 = {\n");
    out.push("    send HostIn[hostAt(s, p)];\n");
    out.push("  }\n");
    out.push("  switch (SwIn, SwOut) ports 256;\n");
    out.push("}\n");
}

/// The text of the design: one switch with 256 ports, each of which leads to the host with its number.
pub fn design_text(alloc: Global) -> Result<Vec<u8>, NoMemory>
    ensures { IfOk result (λ text. text.items ≡ spec.design_text) }
{
    let mut out = Printer::new(alloc);
    push_policy(&mut out);
    push_functions(&mut out);
    push_ingress(&mut out);
    push_egress(&mut out);
    out.finish()
}
