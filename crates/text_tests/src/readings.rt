//! Files of a bundle that are read alone, from a folder in memory.
use crate::certs::put_pointer;
use crate::network_words::{network, put_both};
use bundle_reader::{ReadFault, read_certificates, read_wiring};
use case_files::{Printer, file, first_word, number, numbers};
use cocoon_io::{FolderFault, MemFolder};
use net_bundle::BundleFile;
use std::alloc::Global;

/// Puts what the fault is, and the name of the file that it is about, without that of the bundle.
fn put_of_file(alloc: Global, kind: &str, file: BundleFile, given: &mut Printer) {
    given.put(kind);
    given.put(" ");
    match file.name(alloc) {
        Ok(name) => given.put(&name),
        Err(_) => given.lose(),
    }
}

fn put_fault(alloc: Global, fault: &ReadFault, given: &mut Printer) {
    match fault {
        ReadFault::Missing(file) => put_of_file(alloc, "Missing", *file, given),
        ReadFault::Folder(file, FolderFault::TooLong(most)) => {
            put_of_file(alloc, "TooLong", *file, given);
            given.put(" ");
            given.put_number(*most);
        }
        ReadFault::Folder(file, _) => put_of_file(alloc, "Failed", *file, given),
        ReadFault::NotJson(file) => put_of_file(alloc, "NotJson", *file, given),
        ReadFault::Shape(file, pointer) => {
            put_of_file(alloc, "Shape", *file, given);
            given.put(" ");
            put_pointer(pointer, given);
        }
        ReadFault::NoMemory => given.lose(),
        _ => given.put("another fault"),
    }
}

/// A folder with these bytes under a name, of which the calls of these numbers fail.
fn folder_with(alloc: Global, name: &str, bytes: &[u8], failing: Vec<u64>) -> Option<MemFolder> {
    let mut folder = MemFolder::new(alloc, failing);
    folder.place_file(name, bytes).ok()?;
    Some(folder)
}

/// As many zeros.
fn zeros(alloc: Global, count: u64) -> Option<Vec<u8>> {
    let mut bytes = Vec::new(alloc);
    for _ in 0..count {
        bytes.push(0).ok()?;
    }
    Some(bytes)
}

/// Puts how many bytes the certificates of the bundle `b` have that are read from the folder, or the fault.
fn put_certificates(alloc: Global, folder: &mut MemFolder, given: &mut Printer) {
    match read_certificates(alloc, folder, "b") {
        Ok(bytes) => {
            given.put_number(bytes.len() as u64);
            given.put(" bytes");
        }
        Err(fault) => put_fault(alloc, &fault, given),
    }
}

/// The same of a folder with so many bytes under a name, of which calls fail: `NAME COUNT FAILING..`.
pub fn put_read_certificates(alloc: Global, asked: &str, given: &mut Printer) {
    let (name, rest) = first_word(asked);
    let (count, failing) = first_word(rest);
    let made = match (number(count), numbers(alloc, failing, ' ')) {
        (Some(count), Some(failing)) => {
            zeros(alloc, count).and_then(|bytes| folder_with(alloc, name, &bytes, failing))
        }
        _ => None,
    };
    match made {
        Some(mut folder) => put_certificates(alloc, &mut folder, given),
        None => given.put("no folder"),
    }
}

/// Puts how the wires of the bundle `b` that are read from the folder differ from this network, or the fault.
fn put_wiring(alloc: Global, folder: &mut MemFolder, words: &str, given: &mut Printer) {
    match (read_wiring(alloc, folder, "b"), network(alloc, words)) {
        (Ok(read), Some(wanted)) => put_both(&read, &wanted, given),
        (Ok(_), None) => given.put("no network"),
        (Err(fault), _) => put_fault(alloc, &fault, given),
    }
}

/// The same of a folder with the bytes of a file of data as `b.net.json`, of which calls fail: `FILE FAILING.. => NETWORK`.
pub fn put_read_wiring(rt: &HostRuntime, asked: &str, given: &mut Printer) {
    let (of_folder, words) = asked.split_once(" => ").unwrap_or_default();
    let (name, failing) = first_word(of_folder);
    let made = match (file(rt, name), numbers(rt.alloc(), failing, ' ')) {
        (Some(bytes), Some(failing)) => folder_with(rt.alloc(), "b.net.json", &bytes, failing),
        _ => None,
    };
    match made {
        Some(mut folder) => put_wiring(rt.alloc(), &mut folder, words, given),
        None => given.put("no folder"),
    }
}
