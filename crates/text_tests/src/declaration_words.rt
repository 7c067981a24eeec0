//! Words for headers, fields and tables.
use crate::draft::Draft;
use case_files::{number, numbers};
use cocoon_num::{List, Text};
use p4_ir::{P4Field, Table};
use std::alloc::Global;

/// An index, or the number of a table.
pub fn index(digits: &str) -> Option<u32> {
    u32::try_from(number(digits)?).ok()
}

pub fn port(digits: &str) -> Option<u16> {
    u16::try_from(number(digits)?).ok()
}

pub fn byte(digits: &str) -> Option<u8> {
    u8::try_from(number(digits)?).ok()
}

/// The field `NAME:WIDTH`.
fn field(alloc: Global, word: &str) -> Option<P4Field> {
    let (name, width) = word.split_once(':')?;
    let width = byte(width)?;
    let name = Text::from(alloc, name.as_bytes()).ok()?;
    Some(P4Field { name, width })
}

/// The indices `KEY,KEY`; none where the word is empty.
fn keys(alloc: Global, word: &str) -> Option<Vec<u32>> {
    let mut keys = Vec::new(alloc);
    for key in numbers(alloc, word, ',')? {
        keys.push(u32::try_from(key).ok()?).ok()?;
    }
    Some(keys)
}

/// The table `NUMBER:RESULT:KEYS`.
fn table(alloc: Global, exact: bool, word: &str) -> Option<Table> {
    let (digits, rest) = word.split_once(':')?;
    let number = index(digits)?;
    let (digits, rest) = rest.split_once(':')?;
    let result = index(digits)?;
    let keys = List::from(keys(alloc, rest)?);
    Some(Table {
        number,
        exact,
        keys,
        result,
    })
}

/// Adds what is declared: `field:NAME:WIDTH`, `header:NAME` of the fields before it, `meta:NAME:WIDTH`, and
/// `exact:NUMBER:RESULT:KEYS` or `ternary:NUMBER:RESULT:KEYS`.
pub fn add_declaration(draft: &mut Draft, kind: &str, rest: &str) -> Option<()> {
    let alloc = draft.alloc();
    match kind {
        "field" => draft.add_field(field(alloc, rest)?),
        "header" => draft.add_header(rest),
        "meta" => draft.add_meta(field(alloc, rest)?),
        "exact" => draft.add_table(table(alloc, true, rest)?),
        _ => draft.add_table(table(alloc, false, rest)?),
    }
}
