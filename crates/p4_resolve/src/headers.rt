//! Headers.
ghost use Rattle.std.specs.Prelude.{◌≡◌, ◌==◌, ◌%◌, ◌&&◌, [], IfErr, IfOk, List, map, ℕ};
ghost use Rattle.cocoon_num.specs.Packets.{total};
ghost use Rattle.cocoon_num.specs.Tokens as tokens;
ghost use Rattle.p4_ir.specs.P4Tree.{field_widths};
ghost use Rattle.p4_ir.specs.Program as ir;
ghost use Rattle.p4_texts.specs.KindFaults.{header_pieces};
ghost use Rattle.p4_texts.specs.Meant as meant;
ghost use Rattle.p4_resolve.specs.FieldForms.{Keeps, header_own};
ghost use Rattle.p4_resolve.specs.Judged.{Passes, Sees, StopsBy};
ghost use Rattle.p4_texts.specs.TreeOf.{field_of, header_of};

use crate::fault::KindFault;
use crate::fields::{fields, rest_after};
use crate::pieces::{after, pass};
use cocoon_num::{List, NoMemory, Text};
use p4_ir::{P4Field, P4Header};
use p4_kinds::bytes::is_run;
use p4_kinds::names::is_new;
use p4_texts::written::{WrittenField, WrittenHeader};
use std::alloc::Global;
use std::collections::BTreeSet;

/// How many bits the fields have over whole bytes.
fn spare_bits(fields: &[WrittenField]) -> u32
    ensures { result ≡ total (field_widths (map meant.field_meant (map field_of fields.now))) % 8 }
{
    let mut bits = 0;
    for field in fields {
        bits = (bits + field.width % 8) % 8;
    }
    bits
}

/// A header of this name may be declared, and its fields are whole bytes.
fn header_fits(name: &[u8], is_new: bool, fields: &[WrittenField]) -> bool
    ensures { result ≡ (tokens.is_run name.now && is_new
        && (total (field_widths (map meant.field_meant (map field_of fields.now))) % 8 == 0)) }
{
    is_run(name) && is_new && spare_bits(fields) == 0
}

fn named(alloc: Global, name: &[u8], fields: Vec<P4Field>) -> Result<P4Header, NoMemory>
    ensures { IfOk result (λ header. (header.name ≡ name.now) × (header.fields ≡ fields.items)) }
{
    let name = Text::from(alloc, name)?;
    let fields = List::from(fields);
    Ok(P4Header { name, fields })
}

/// A header, after those with the names before.
fn header(
    alloc: Global,
    at: u32,
    before: &mut BTreeSet<Vec<u8>>,
    header: &WrittenHeader,
) -> Result<(P4Header, u32), KindFault>
    ensures keeps { (names : List (List ℕ)) → Sees before.old.keys names → IfOk result (λ made.
        Keeps at (header_own names (header_of header.now)) names (ir.header_of made.0).name
        before.new.keys (meant.header_meant (header_of header.now)) (ir.header_of made.0) made.1) }
    ensures stops { (names : List (List ℕ)) → Sees before.old.keys names
        → IfErr result (StopsBy at (header_own names (header_of header.now))) }
{
    let name = rest_after(b"ht_", header.name.bytes());
    let is_new = is_new(alloc, before, name)?;
    let open = pass(at, 3, header_fits(name, is_new, header.fields.items()))?;
    let (fields, close) = fields(alloc, open, header.fields.items())?;
    let end = after(close, 1);
    Ok((named(alloc, name, fields)?, end))
}

/// All headers.
pub(crate) fn headers(
    alloc: Global,
    at: u32,
    headers: &[WrittenHeader],
) -> Result<(Vec<P4Header>, u32), KindFault>
    ensures headers { IfOk result (λ made. map ir.header_of made.0.items
        ≡ map meant.header_meant (map header_of headers.now)) }
    ensures passes { IfOk result (λ made.
        Passes at (header_pieces [] (map header_of headers.now)) made.1) }
    ensures stops { IfErr result (StopsBy at (header_pieces [] (map header_of headers.now))) }
{
    let mut before = BTreeSet::new(alloc);
    let mut made = Vec::new(alloc);
    let mut next = at;
    for written in headers {
        let (header, end) = header(alloc, next, &mut before, written)?;
        made.push(header)?;
        next = end;
    }
    Ok((made, next))
}
