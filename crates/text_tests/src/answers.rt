//! What a text reads as, in the words of the cases.
ghost use Rattle.std.specs.Prelude.{◌<◌, ◌^◌, length};

use crate::definitions::put_definitions;
use crate::designs::put_design;
use crate::pieces::put_position;
use crate::prefixes::put_prefixes;
use crate::tokens::put_tokens;
use case_files::Printer;
use cocoon_num::NoMemory;
use cocoon_syntax::{DefsText, Design};
use cocoon_text::{TextFault, Unread, read_defs, read_design};
use std::alloc::Global;

/// A text has fewer bytes than this.
const TOO_LONG: usize = 0x8000_0000;

/// As what a text is read.
#[derive(Clone, Copy, Drop)]
pub enum Kind {
    Design,
    Definitions,
    /// Its tokens alone.
    Tokens,
    /// As a design, and so is each prefix that ends with a token.
    Prefixes,
}

/// The kind of this name.
pub fn kind_named(name: &str) -> Option<Kind> {
    match name {
        "design" => Some(Kind::Design),
        "definitions" => Some(Kind::Definitions),
        "tokens" => Some(Kind::Tokens),
        "prefixes" => Some(Kind::Prefixes),
        _ => None,
    }
}

/// Puts what a text reads as.
pub fn put_answer(alloc: Global, kind: Kind, text: &[u8], found: &mut Printer) {
    if text.len() >= TOO_LONG {
        return found.put("too long");
    }
    match kind {
        Kind::Design => match read_design(alloc, text) {
            Ok(design) => put_design_and_copy(alloc, &design, found),
            Err(unread) => put_unread(unread, found),
        },
        Kind::Definitions => match read_defs(alloc, text) {
            Ok(definitions) => put_definitions_and_copy(alloc, &definitions, found),
            Err(unread) => put_unread(unread, found),
        },
        Kind::Tokens => put_tokens(alloc, text, found),
        Kind::Prefixes => put_prefixes(alloc, text, found),
    }
}

/// Puts the tree of a design, and that of its copy if it is another.
fn put_design_and_copy(alloc: Global, design: &Design, found: &mut Printer) {
    put_design(found, design);
    let mut copied = Printer::new(alloc);
    match design.copy(alloc) {
        Ok(copy) => put_design(&mut copied, &copy),
        Err(NoMemory) => copied.lose(),
    }
    put_other(&copied, found);
}

/// Puts the tree of definitions, and that of their copy if it is another.
fn put_definitions_and_copy(alloc: Global, definitions: &DefsText, found: &mut Printer) {
    put_definitions(found, definitions);
    let mut copied = Printer::new(alloc);
    match definitions.copy(alloc) {
        Ok(copy) => put_definitions(&mut copied, &copy),
        Err(NoMemory) => copied.lose(),
    }
    put_other(&copied, found);
}

/// Puts the tree of a copy if it is another than what was found.
fn put_other(copied: &Printer, found: &mut Printer) {
    if copied.text() != found.text() {
        found.put(", and its copy is ");
        found.put(copied.text());
        found.put(".");
    }
    found.lose_with(copied);
}

/// Puts the first fault with its line and column, as `Unexpected 3:7`.
fn put_unread(unread: Unread, found: &mut Printer) {
    match unread {
        Unread::Faulty(fault) => {
            let TextFault { kind, line, column } = fault;
            found.put(kind.name());
            found.put(" ");
            put_position(found, (line, column));
        }
        Unread::NoMemory => found.lose(),
    }
}

/// Puts whether a text has a tree: `read`, or the first fault. The tree is dropped.
pub fn put_reading(alloc: Global, kind: Kind, text: &[u8], found: &mut Printer) {
    if text.len() >= TOO_LONG {
        return found.put("too long");
    }
    match unread(alloc, kind, text) {
        Some(unread) => put_unread(unread, found),
        None => found.put("read"),
    }
}

/// Why a text has no tree, if it has none.
fn unread(alloc: Global, kind: Kind, text: &[u8]) -> Option<Unread>
    requires { length text.now < 2 ^ 31 }
{
    match kind {
        Kind::Definitions => read_defs(alloc, text).err(),
        _ => read_design(alloc, text).err(),
    }
}
