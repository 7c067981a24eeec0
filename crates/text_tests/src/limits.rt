//! Files with as many bytes as they may have, and with one more.
ghost use Rattle.std.specs.Prelude.{IsTrue};
ghost use Rattle.cocoon_num.specs.Tokens.{is_run};
ghost use Rattle.p4_ir.specs.NetFits.{net_fits};
ghost use Rattle.p4_ir.specs.NetOf.{net_of};

use crate::networks::{name, named, no_switch};
use crate::writing::write_net;
use case_files::{Printer, file, first_word, number};
use cocoon_io::MemFolder;
use cocoon_num::NoMemory;
use p4_ir::NetData;

/// The files of the bundle `long` of the network of two switches, and of the one without a switch.
const NAMES: [&str; 6] = [
    "long.s2.p4",
    "long.s2.rows.json",
    "long.s5.p4",
    "long.s5.rows.json",
    "long.certs.json",
    "long.net.json",
];

/// Puts how many of these files there are.
fn put_count(folder: &MemFolder, given: &mut Printer) {
    let mut count: u64 = 0;
    for name in NAMES {
        if folder.file(name).is_some() {
            count = count.saturating_add(1);
        }
    }
    given.put(", ");
    given.put_number(count);
    given.put(" files");
}

/// Writes the bundle `long` of a network. Puts what came of it, and how many files there are.
fn write_bundle_long(
    rt: &HostRuntime,
    net: &NetData,
    folder: &mut MemFolder,
    certificates: Option<&[u8]>,
    given: &mut Printer,
)
    requires { IsTrue (net_fits (net_of net.now)) }
{
    write_net(rt, folder, net, "long", certificates, given);
    put_count(folder, given);
}

/// Whether bytes are these three pieces, one behind another.
fn is_made_of(bytes: &[u8], before: &[u8], name: &[u8], behind: &[u8]) -> bool {
    match bytes.strip_prefix(before) {
        Some(rest) => rest.strip_prefix(name) == Some(behind),
        None => false,
    }
}

/// Writes a bundle with a program that has this name in it, between what stands before and behind it.
fn write_named(rt: &HostRuntime, name: &[u8], before: &[u8], behind: &[u8], given: &mut Printer)
    requires { IsTrue (is_run name.now) }
{
    let mut folder = MemFolder::new(rt.alloc(), Vec::new(rt.alloc()));
    match named(rt.alloc(), name) {
        Ok(net) => write_bundle_long(rt, &net, &mut folder, None, given),
        Err(NoMemory) => given.lose(),
    }
    if let Some(program) = folder.file("long.s5.p4") {
        if !is_made_of(program, before, name, behind) {
            given.put(", another program");
        }
    }
}

/// Writes a bundle with a program of so many bytes, which a name in it makes so long.
fn write_program(rt: &HostRuntime, around: (&[u8], &[u8]), length: usize, given: &mut Printer) {
    let (before, behind) = around;
    let length = length
        .saturating_sub(before.len())
        .saturating_sub(behind.len());
    match name(rt.alloc(), length) {
        Ok(name) => write_named(rt, &name, before, behind, given),
        Err(NoMemory) => given.lose(),
    }
}

/// The same with what the data has around the name.
fn write_around(rt: &HostRuntime, length: usize, given: &mut Printer) {
    match (file(rt, "before-name.p4"), file(rt, "behind-name.p4")) {
        (Some(before), Some(behind)) => write_program(rt, (&before, &behind), length, given),
        _ => given.put("no program"),
    }
}

/// Writes a bundle with these certificates.
fn write_certified(rt: &HostRuntime, certificates: &[u8], given: &mut Printer) {
    let mut folder = MemFolder::new(rt.alloc(), Vec::new(rt.alloc()));
    match no_switch(rt.alloc()) {
        Ok(net) => write_bundle_long(rt, &net, &mut folder, Some(certificates), given),
        Err(NoMemory) => given.lose(),
    }
    if let Some(held) = folder.file("long.certs.json") {
        if held != certificates {
            given.put(", other certificates");
        }
    }
}

/// Writes a bundle with certificates of so many bytes.
fn write_certificates(rt: &HostRuntime, length: usize, given: &mut Printer) {
    match vec![in rt.alloc(); b' '; length] {
        Ok(certificates) => write_certified(rt, &certificates, given),
        Err(_) => given.lose(),
    }
}

/// Puts what came of a case of a file of so many bytes, the program or the certificates.
pub fn write_long(rt: &HostRuntime, asked: &str, given: &mut Printer) {
    let (file, digits) = first_word(asked);
    match (file, number(digits)) {
        ("program", Some(length)) => write_around(rt, length as usize, given),
        ("certificates", Some(length)) => write_certificates(rt, length as usize, given),
        _ => given.put("no file"),
    }
}
