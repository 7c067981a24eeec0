//! Packets, by the reference programs.
ghost use Rattle.std.specs.Prelude.{IsTrue};
ghost use Rattle.reference_programs.specs.Widths as spec;

use crate::declaration_words::byte;
use crate::hexadecimal::{bytes, put_hex};
use case_files::{Printer, last_line};
use cocoon_num::{List, NoMemory};
use reference_programs::{Entered, enter, is_layout, leave};
use std::alloc::Global;

/// One header with fields of the widths that words are; none where there are no widths.
fn layout(alloc: Global, words: &str) -> Option<Vec<List<u8>>> {
    let mut widths = Vec::new(alloc);
    for word in words.split_ascii_whitespace() {
        widths.push(byte(word)?).ok()?;
    }
    if widths.is_empty() {
        return Some(Vec::new(alloc));
    }
    vec![in alloc; List::from(widths)].ok()
}

/// `10 3021 . ff`: the numbers of all fields, and the bytes behind the headers.
fn put_entered(entered: &Entered, given: &mut Printer) {
    for header in entered.packet.items() {
        for number in header.items() {
            given.put_number(*number);
            given.put(" ");
        }
    }
    given.put(".");
    if !entered.payload.is_empty() {
        given.put(" ");
        put_hex(&entered.payload, given);
    }
}

/// Puts what enters of the bytes. They have to leave as they came.
fn put_enter(alloc: Global, layout: &[List<u8>], bytes: &[u8], given: &mut Printer)
    requires { IsTrue (spec.is_layout layout.now) }
{
    match enter(alloc, layout, bytes) {
        Ok(Some(entered)) => match leave(alloc, layout, &entered.packet, &entered.payload) {
            Ok(left) if left.as_slice() == bytes => put_entered(&entered, given),
            Ok(_) => given.put("leaves with other bytes"),
            Err(NoMemory) => given.lose(),
        },
        Ok(None) => given.put("none"),
        Err(NoMemory) => given.lose(),
    }
}

/// Puts what enters of bytes by the last line `header`.
pub fn ask_packet(alloc: Global, above: &str, digits: &str, given: &mut Printer) {
    let header = last_line(above, "header").unwrap_or_default();
    let (Some(layout), Some(bytes)) = (layout(alloc, header), bytes(alloc, digits)) else {
        return given.put("no packet");
    };
    if is_layout(&layout) {
        put_enter(alloc, &layout, &bytes, given);
    } else {
        given.put("no layout");
    }
}
