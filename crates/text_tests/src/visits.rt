//! Visits of a switch, by the interpreter.
ghost use Rattle.p4_run.specs.Frames.{Fits};
ghost use Rattle.p4_run.specs.Running.{program_in};

use crate::declaration_words::port;
use crate::hexadecimal::{bytes, put_hex};
use crate::printed::program;
use crate::row_words::rows_of;
use case_files::{Printer, first_word, last_line, numbers, put_expanded};
use cocoon_num::NoMemory;
use p4_ir::{Program, RowsFile};
use p4_kinds::is_well_kinded;
use p4_run::{Frame, LoadFault, Loaded, Next};
use std::alloc::Global;

// ---- loading

fn put_fault(fault: LoadFault, given: &mut Printer) {
    match fault {
        LoadFault::NoMemory => given.lose(),
        _ => given.put_debug(&fault),
    }
}

fn load_into(
    alloc: Global,
    program: Program,
    rows: RowsFile,
    given: &mut Printer,
) -> Option<Loaded> {
    match is_well_kinded(alloc, &program) {
        Ok(true) => match Loaded::new(alloc, &program, &rows) {
            Ok(loaded) => return Some(loaded),
            Err(fault) => put_fault(fault, given),
        },
        Ok(false) => given.put("broken"),
        Err(NoMemory) => given.lose(),
    }
    None
}

/// Loads the rows that words say into a program, or puts why they are not loaded.
pub fn load(
    rt: &HostRuntime,
    program: Option<Program>,
    words: &str,
    given: &mut Printer,
) -> Option<Loaded> {
    let mut expanded = Printer::new(rt.alloc());
    put_expanded(rt, words, &mut expanded);
    given.lose_with(&expanded);
    match (program, rows_of(rt.alloc(), expanded.text())) {
        (Some(program), Some(rows)) => load_into(rt.alloc(), program, rows, given),
        _ => {
            given.put("no program or no rows");
            None
        }
    }
}

/// Puts whether rows are loaded into the program of the last line `program`.
pub fn put_loaded(rt: &HostRuntime, above: &str, words: &str, given: &mut Printer) {
    if load(rt, program(rt, above, ""), words, given).is_some() {
        given.put("loads");
    }
}

// ---- visits

/// What comes in at a port, and of which copies is asked.
#[derive(Drop)]
struct Arrival {
    port: u16,
    bytes: Vec<u8>,
    copies: Vec<u64>,
}

/// The words `PORT BYTES COPY..`.
fn read_arrival(alloc: Global, words: &str) -> Option<Arrival> {
    let (first, rest) = first_word(words);
    let (digits, rest) = first_word(rest);
    Some(Arrival {
        port: port(first)?,
        bytes: bytes(alloc, digits)?,
        copies: numbers(alloc, rest, ' ')?,
    })
}

/// `group 5: 7 8`: a group and its members.
fn put_group(loaded: &Loaded, group: u16, given: &mut Printer) {
    given.put("group ");
    given.put_number(u64::from(group));
    given.put(":");
    for member in loaded.members(group) {
        given.put(" ");
        given.put_number(*member);
    }
}

/// Bytes in hexadecimal digits; `-` where there is none.
fn put_headers(headers: &[u8], given: &mut Printer) {
    if headers.is_empty() {
        given.put("-");
    }
    put_hex(headers, given);
}

/// `none`, the port and the headers that leave, or the group.
pub fn put_next(loaded: &Loaded, next: Next, headers: &[u8], given: &mut Printer) {
    match next {
        Next::Drop => given.put("none"),
        Next::Port(port) => {
            given.put_number(u64::from(port));
            given.put(" ");
            put_headers(headers, given);
        }
        Next::Copies(group) => put_group(loaded, group, given),
    }
}

/// Puts what leaves of a copy, if it is a member of the group that ingress sends to.
fn put_copy(loaded: &Loaded, frame: &mut Frame, next: Next, copy: u64, given: &mut Printer)
    requires { Fits (program_in loaded.now) frame.old }
    ensures { Fits (program_in loaded.now) frame.new }
{
    match next {
        Next::Copies(group) if loaded.members(group).contains(&copy) => {
            let last = loaded.egress(frame, copy);
            put_next(loaded, last, frame.headers(), given);
        }
        _ => given.put("none"),
    }
}

/// Puts what ingress says, and behind it what leaves of each copy.
fn put_visit(loaded: &Loaded, frame: &mut Frame, arrival: &Arrival, given: &mut Printer)
    requires { Fits (program_in loaded.now) frame.old }
    ensures { Fits (program_in loaded.now) frame.new }
{
    let next = loaded.ingress(frame, arrival.port, &arrival.bytes);
    put_next(loaded, next, frame.headers(), given);
    for copy in arrival.copies.as_slice() {
        given.put("; ");
        put_copy(loaded, frame, next, *copy, given);
    }
}

/// Puts the visits of a case. Made again in the same frame after other bytes, they have to be the same.
fn put_visits(alloc: Global, loaded: &Loaded, mut arrival: Arrival, given: &mut Printer) {
    let Ok(mut frame) = Frame::new(alloc, loaded) else {
        return given.lose();
    };
    let mut first = Printer::new(alloc);
    put_visit(loaded, &mut frame, &arrival, &mut first);
    flip(&mut arrival.bytes);
    loaded.ingress(&mut frame, 65535, &arrival.bytes);
    flip(&mut arrival.bytes);
    put_visit(loaded, &mut frame, &arrival, given);
    if first.text() != given.text() {
        given.put(", but before ");
        given.put(first.text());
    }
}

/// Flips each bit.
fn flip(bytes: &mut [u8]) {
    for byte in bytes.iter_mut() {
        *byte = !*byte;
    }
}

/// Puts the visits of a case, `PORT BYTES COPY..`, and behind ` with ` the words that the program has in the place of `...`.
pub fn ask_visits(rt: &HostRuntime, above: &str, asked: &str, given: &mut Printer) {
    let mut expanded = Printer::new(rt.alloc());
    put_expanded(rt, asked, &mut expanded);
    given.lose_with(&expanded);
    let asked = expanded.text();
    let (call, words) = asked.split_once(" with ").unwrap_or((asked, ""));
    let rows = last_line(above, "rows").unwrap_or_default();
    let Some(loaded) = load(rt, program(rt, above, words), rows, given) else {
        return;
    };
    match read_arrival(rt.alloc(), call) {
        Some(arrival) => put_visits(rt.alloc(), &loaded, arrival, given),
        None => given.put("no visit"),
    }
}
