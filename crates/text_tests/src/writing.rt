//! What `write_bundle` answers to a case, and which files it then has written.
ghost use Rattle.std.specs.Prelude.{IsTrue};
ghost use Rattle.p4_ir.specs.NetFits.{net_fits};
ghost use Rattle.p4_ir.specs.NetOf.{net_of};

use crate::networks::network;
use case_files::{Printer, file, first_word, last_line, numbers};
use cocoon_io::{FolderFault, MemFolder};
use cocoon_num::NoMemory;
use net_bundle::{BundleFault, BundleFile, write_bundle};
use p4_ir::NetData;
use std::alloc::Global;

/// What an older bundle has in each of its files.
const OLDER: &str = "older";

/// Puts the name of a bundle's file, without that of the bundle.
fn put_file(alloc: Global, file: BundleFile, given: &mut Printer) {
    match file.name(alloc) {
        Ok(name) => given.put(&name),
        Err(NoMemory) => given.lose(),
    }
}

/// Puts `written`, or why the bundle is not written, with the file that this is about.
fn put_end(alloc: Global, end: &Result<(), BundleFault>, given: &mut Printer) {
    match end {
        Ok(()) => given.put("written"),
        Err(BundleFault::Folder(file, FolderFault::Failed)) => {
            given.put("failed ");
            put_file(alloc, *file, given);
        }
        Err(BundleFault::Folder(_, _)) => given.put("another fault"),
        Err(BundleFault::Limit(file)) => {
            given.put("over ");
            put_file(alloc, *file, given);
        }
        Err(BundleFault::NoMemory) => given.lose(),
    }
}

/// Writes the bundle `out` of a network into the folder, with the design of the data, and puts what came of it.
pub fn write_net(
    rt: &HostRuntime,
    folder: &mut MemFolder,
    net: &NetData,
    out: &str,
    certificates: Option<&[u8]>,
    given: &mut Printer,
)
    requires { IsTrue (net_fits (net_of net.now)) }
{
    match file(rt, "design") {
        Some(design) => {
            let end = write_bundle(rt.alloc(), folder, out, net, &design, certificates);
            put_end(rt.alloc(), &end, given);
        }
        None => given.put("no design"),
    }
}

/// Puts the name behind the others if the file has the bytes that the data has for it, and with a `!` if it has others. It
/// does not where the file is as it was. The data stands in no folder.
fn put_written(
    rt: &HostRuntime,
    folder: &MemFolder,
    name: &str,
    was: Option<&[u8]>,
    given: &mut Printer,
) {
    let is = folder.file(name);
    if is == was {
        return;
    }
    given.put(" ");
    given.put(name);
    let (_, base) = name.rsplit_once('/').unwrap_or(("", name));
    let wanted = file(rt, base);
    if is.is_none() || is != wanted.as_deref() {
        given.put("!");
    }
}

/// Puts the names of the files that were written.
fn put_all_written(rt: &HostRuntime, folder: &MemFolder, above: &str, given: &mut Printer) {
    for name in last_line(above, "older")
        .unwrap_or_default()
        .split_ascii_whitespace()
    {
        put_written(rt, folder, name, Some(OLDER.as_bytes()), given);
    }
    for name in last_line(above, "others")
        .unwrap_or_default()
        .split_ascii_whitespace()
    {
        put_written(rt, folder, name, None, given);
    }
}

/// Puts an older bundle into the folder.
fn place_older(folder: &mut MemFolder, above: &str, given: &mut Printer) {
    for name in last_line(above, "older")
        .unwrap_or_default()
        .split_ascii_whitespace()
    {
        if folder.place_file(name, OLDER.as_bytes()).is_err() {
            given.lose();
        }
    }
}

/// Writes the bundle of a network into a folder with an older one, and puts what came of it and the files that were written.
/// Behind the bundle's name stand `certificates`, if it gets these, and the number of a call that fails.
fn write_over(
    rt: &HostRuntime,
    above: &str,
    net: &NetData,
    folder: &mut MemFolder,
    out: &str,
    certificates: Option<&[u8]>,
    given: &mut Printer,
)
    requires { IsTrue (net_fits (net_of net.now)) }
{
    place_older(folder, above, given);
    write_net(rt, folder, net, out, certificates, given);
    put_all_written(rt, folder, above, given);
}

fn write_planned(rt: &HostRuntime, above: &str, net: &NetData, asked: &str, given: &mut Printer)
    requires { IsTrue (net_fits (net_of net.now)) }
{
    let (out, rest) = first_word(asked);
    let (word, behind) = first_word(rest);
    let is_certified = word == "certificates";
    let digits = if is_certified { behind } else { rest };
    let certificates = if is_certified {
        file(rt, "two.certs.json")
    } else {
        None
    };
    match numbers(rt.alloc(), digits, ' ') {
        Some(failing) => {
            let mut folder = MemFolder::new(rt.alloc(), failing);
            write_over(
                rt,
                above,
                net,
                &mut folder,
                out,
                certificates.as_deref(),
                given,
            );
        }
        None => given.put("no numbers"),
    }
}

/// Puts what came of a case of the network of this name.
pub fn write_case(rt: &HostRuntime, above: &str, (net, rest): (&str, &str), given: &mut Printer) {
    match network(rt.alloc(), net) {
        Ok(Some(net)) => write_planned(rt, above, &net, rest, given),
        Ok(None) => given.put("no network"),
        Err(NoMemory) => given.lose(),
    }
}
