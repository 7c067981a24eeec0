//! Cases of calls: each call of a folder or a sink, in memory or of the machine, with what it is to answer. No clause of
//! `cocoon_io` can say that.
use crate::attempt::{failing, place_all};
use crate::fields::{LINE, Line, last_line, line_of};
use crate::lines::{CaseFiles, Data, number_in, report};
use case_files::Printer;
use cocoon_io::{Folder, FolderFault, MemFolder, MemSink, RealFolder, RealOut, Sink, SinkFault};
use cocoon_num::NoMemory;
use std::alloc::Global;
use std::fmt::Display;
use std::fs::{self, Permissions};
use std::io::{self, ErrorKind};
use std::os::unix::fs::PermissionsExt;

/// Reports what a call answers if it is not what the line wants.
///
/// The fields of the line are the call, what it is about, the bytes or the limit, and the answer.
fn meet(line: Line<'_>, found: &[u8], out: &mut Printer) {
    let Line {
        name,
        old,
        count,
        ..
    } = line;
    if found != count.as_bytes() {
        out.put("  ");
        out.put(name);
        out.put(" ");
        out.put(old);
        out.put(" answers ");
        out.put_bytes(found);
        out.put("\n");
    }
}

fn fault_name(fault: &FolderFault, limit: u64) -> &'static [u8] {
    match fault {
        FolderFault::Failed => b"failed",
        FolderFault::TooLong(most) if *most == limit => b"too long",
        FolderFault::TooLong(_) => b"another limit",
        FolderFault::NoMemory => b"no memory",
    }
}

fn write<F: Folder>(alloc: Global, folder: &mut F, line: Line<'_>, out: &mut Printer) {
    match folder.write(alloc, line.old, line.new.as_bytes()) {
        Ok(()) => meet(line, b"done", out),
        Err(fault) => meet(line, fault_name(&fault, 0), out),
    }
}

fn read<F: Folder>(alloc: Global, folder: &mut F, line: Line<'_>, out: &mut Printer) {
    let limit = number_in(line.new, out);
    match folder.read(alloc, line.old, limit) {
        Ok(Some(bytes)) => meet(line, &bytes, out),
        Ok(None) => meet(line, b"missing", out),
        Err(fault) => meet(line, fault_name(&fault, limit), out),
    }
}

/// Makes the calls of a folder.
fn perform<F: Folder>(alloc: Global, folder: &mut F, lines: &str, out: &mut Printer) {
    for cut in lines.split(LINE) {
        let line = line_of(cut);
        match (line.word, line.name) {
            ("call", "write") => write(alloc, folder, line, out),
            ("call", "read") => read(alloc, folder, line, out),
            _ => {}
        }
    }
}

/// Makes the calls of a sink.
fn put<S: Sink>(alloc: Global, sink: &mut S, lines: &str, out: &mut Printer) {
    for cut in lines.split(LINE) {
        let line = line_of(cut);
        if line.word == "call" && line.name == "put" {
            match sink.put(alloc, line.new.as_bytes()) {
                Ok(()) => meet(line, b"done", out),
                Err(SinkFault::Failed) => meet(line, b"failed", out),
                Err(SinkFault::NoMemory) => meet(line, b"no memory", out),
            }
        }
    }
}

/// Calls of a folder in memory, of which some fail.
fn planned(alloc: Global, lines: &str, files: &CaseFiles, out: &mut Printer) {
    match failing(alloc, lines, "failing-call", out) {
        Ok(numbers) => {
            let mut folder = MemFolder::new(alloc, numbers);
            place_all(lines, files, &mut folder, out);
            perform(alloc, &mut folder, lines, out);
        }
        Err(NoMemory) => out.lose(),
    }
}

/// Calls of a sink in memory, of which some fail.
fn puts(alloc: Global, lines: &str, out: &mut Printer) {
    match failing(alloc, lines, "failing-put", out) {
        Ok(numbers) => {
            let mut sink = MemSink::new(alloc, numbers);
            put(alloc, &mut sink, lines, out);
            let output = last_line(lines, "output").name;
            if sink.bytes() != output.as_bytes() {
                report(out, "not as wanted: the output ", output);
            }
        }
        Err(NoMemory) => out.lose(),
    }
}

/// Calls of the machine's folder. The file `unreadable` is made before, which may not be read; a user who may read all files
/// reads it, too.
fn machine(rt: &HostRuntime, lines: &str, out: &mut Printer) {
    let mut folder = RealFolder::new(rt);
    let hidden = folder.write(rt.alloc(), "unreadable", b"bytes").is_ok()
        && fs::set_permissions(rt, "unreadable", Permissions::from_mode(0)).is_ok();
    if !hidden {
        report(out, "no file ", "unreadable");
    }
    perform(rt.alloc(), &mut folder, lines, out);
    let _ = fs::remove_file(rt, "unreadable");
    let _ = fs::remove_file(rt, "written");
}

/// Makes the calls of a case, of a folder or sink of this kind.
pub fn try_calls(
    data: Data<'_>,
    lines: &str,
    kind: &str,
    files: &mut CaseFiles,
    out: &mut Printer,
) {
    let alloc = data.rt.alloc();
    match kind {
        "honest" => perform(alloc, &mut files.before, lines, out),
        "memory" => planned(alloc, lines, files, out),
        "machine" => machine(data.rt, lines, out),
        "sink" => puts(alloc, lines, out),
        "output" => put(alloc, &mut RealOut::new(data.rt), lines, out),
        "closed" => put(alloc, &mut RealOut::new(&Closed), lines, out),
        _ => report(out, "no calls: ", kind),
    }
}

/// An output that nobody reads.
struct Closed;

impl Print for Closed {
    fn print<D: Display + Drop>(&self, _value: D) -> io::Result<()> {
        Err(io::Error::from(ErrorKind::BrokenPipe))
    }

    fn println<D: Display + Drop>(&self, _value: D) -> io::Result<()> {
        Err(io::Error::from(ErrorKind::BrokenPipe))
    }

    fn write_all(&self, _bytes: &[u8]) -> io::Result<()> {
        Err(io::Error::from(ErrorKind::BrokenPipe))
    }
}
