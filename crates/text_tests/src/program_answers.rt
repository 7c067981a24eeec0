//! What a P4 text reads as, in the words of the cases.
ghost use Rattle.std.specs.Prelude.{◌<◌, ◌^◌, length};

use case_files::Printer;
use cocoon_num::NoMemory;
use p4_emit::emit;
use p4_read::{P4Fault, read};
use std::alloc::Global;

/// A text has fewer bytes than this.
const TOO_LONG: usize = 0x8000_0000;

fn put_place(kind: &str, at: u32, given: &mut Printer) {
    given.put(kind);
    given.put(" ");
    given.put_number(u64::from(at));
}

/// Puts a first fault, as `Unexpected 7`.
fn put_fault(fault: P4Fault, given: &mut Printer) {
    match fault {
        P4Fault::Lex(at) => put_place("Lex", at, given),
        P4Fault::Unexpected(at) => put_place("Unexpected", at, given),
        P4Fault::TooDeep(at) => put_place("TooDeep", at, given),
        P4Fault::Kind(at) => put_place("Kind", at, given),
        P4Fault::NoMemory => given.lose(),
    }
}

/// Puts `read`, or the first fault of a text.
pub fn put_reading(alloc: Global, text: &[u8], given: &mut Printer) {
    if text.len() >= TOO_LONG {
        return given.put("too long");
    }
    match read(alloc, text) {
        Ok(_) => given.put("read"),
        Err(fault) => put_fault(fault, given),
    }
}

/// The text of the program that a text reads as.
fn printed(alloc: Global, text: &[u8]) -> Result<Vec<u8>, P4Fault>
    requires small { length text.now < 2 ^ 31 }
{
    let program = read(alloc, text)?;
    match emit(alloc, &program) {
        Ok(text) => Ok(text),
        Err(NoMemory) => Err(P4Fault::NoMemory),
    }
}

/// Puts `same` where a text reads as a program that has the other text, and `read` where it reads as another one; else its
/// first fault.
pub fn put_printed(alloc: Global, text: &[u8], other: &[u8], given: &mut Printer) {
    if text.len() >= TOO_LONG {
        return given.put("too long");
    }
    match printed(alloc, text) {
        Ok(printed) if printed.as_slice() == other => given.put("same"),
        Ok(_) => given.put("read"),
        Err(fault) => put_fault(fault, given),
    }
}
