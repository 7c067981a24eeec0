//! Fields of headers, and meta fields.
ghost use Rattle.std.specs.Prelude.{◌≡◌, ◌&&◌, ◌++◌, ◌∷◌, [], IfErr, IfOk, List, codes, map, ℕ};
ghost use Rattle.cocoon_num.specs.Sorts as sorts;
ghost use Rattle.p4_ir.specs.Program as ir;
ghost use Rattle.cocoon_num.specs.Tokens as tokens;
ghost use Rattle.p4_ir.specs.P4Kinds as rules;
ghost use Rattle.p4_texts.specs.KindFaults.{field_keeps, field_pieces, meta_keeps, meta_pieces};
ghost use Rattle.p4_texts.specs.Meant as meant;
ghost use Rattle.p4_resolve.specs.FieldForms.{Declares, Keeps, field_fits, field_piece, meta_piece};
ghost use Rattle.p4_resolve.specs.Judged.{Breaks, Passes, Sees, StopsBy};
ghost use Rattle.p4_texts.specs.TreeOf.{field_of};

use crate::fault::KindFault;
use crate::pieces::pass;
use cocoon_num::Text;
use p4_ir::P4Field;
use p4_kinds::bytes::{is_meta_name, is_run};
use p4_kinds::names::is_new;
use p4_texts::written::WrittenField;
use std::alloc::Global;
use std::collections::BTreeSet;

/// What follows these first bytes of a name; nothing, where it begins with others.
#[tactic(auto, using(crate::proofs::NameFacts::begins_is))]
pub(crate) fn rest_after<'n>(start: &[u8], name: &'n [u8]) -> &'n [u8]
    ensures { result.now ≡ meant.rest_after start.now name.now }
{
    if name.starts_with(start) {
        &name[start.len()..]
    } else {
        &name[name.len()..]
    }
}

fn is_declared_width(width: u32) -> bool
    ensures { result ≡ sorts.is_declared_width width }
{
    1 <= width && width <= 64
}

/// The name is one of such a field, there is none of that name before it, and the width may be declared.
fn fits(is_named: bool, is_new: bool, width: u32) -> bool
    ensures { result ≡ (is_named && is_new && sorts.is_declared_width width) }
{
    is_named && is_new && is_declared_width(width)
}

/// A field with this name and width, whose declaration has six tokens.
fn declared(
    alloc: Global,
    at: u32,
    before: &mut BTreeSet<Vec<u8>>,
    name: &[u8],
    width: u32,
    is_named: bool,
) -> Result<(P4Field, u32), KindFault>
    ensures passes { (names : List (List ℕ)) → Sees before.old.keys names → IfOk result (λ made.
        Declares at names name.now width is_named before.new.keys (ir.field_of made.0) made.1) }
    ensures breaks { (names : List (List ℕ)) → Sees before.old.keys names
        → IfErr result (Breaks at (field_fits names name.now width is_named)) }
{
    let is_new = is_new(alloc, before, name)?;
    let end = pass(at, 6, fits(is_named, is_new, width))?;
    let name = Text::from(alloc, name)?;
    Ok((
        P4Field {
            name,
            width: width as u8,
        },
        end,
    ))
}

/// A field of a header, after those with the names before.
fn field(
    alloc: Global,
    at: u32,
    before: &mut BTreeSet<Vec<u8>>,
    field: &WrittenField,
) -> Result<(P4Field, u32), KindFault>
    ensures keeps { (names : List (List ℕ)) → Sees before.old.keys names → IfOk result (λ made.
        Keeps at (field_piece names (field_of field.now) ∷ []) names (ir.field_of made.0).name
        before.new.keys (meant.field_meant (field_of field.now)) (ir.field_of made.0) made.1) }
    ensures stops { (names : List (List ℕ)) → Sees before.old.keys names
        → IfErr result (StopsBy at (field_piece names (field_of field.now) ∷ [])) }
{
    let name = rest_after(b"f_", field.name.bytes());
    declared(alloc, at, before, name, field.width, is_run(name))
}

/// A meta field, after those with the names before.
fn meta_field(
    alloc: Global,
    at: u32,
    before: &mut BTreeSet<Vec<u8>>,
    field: &WrittenField,
) -> Result<(P4Field, u32), KindFault>
    ensures keeps { (names : List (List ℕ)) → Sees before.old.keys names → IfOk result (λ made.
        Keeps at (meta_piece names (field_of field.now) ∷ []) names (ir.field_of made.0).name
        before.new.keys (meant.meta_meant (field_of field.now)) (ir.field_of made.0) made.1) }
    ensures stops { (names : List (List ℕ)) → Sees before.old.keys names
        → IfErr result (StopsBy at (meta_piece names (field_of field.now) ∷ [])) }
{
    let name = field.name.bytes();
    declared(alloc, at, before, name, field.width, is_meta_name(name))
}

/// The fields of a header.
pub(crate) fn fields(
    alloc: Global,
    at: u32,
    fields: &[WrittenField],
) -> Result<(Vec<P4Field>, u32), KindFault>
    ensures fields { IfOk result (λ made. map ir.field_of made.0.items
        ≡ map meant.field_meant (map field_of fields.now)) }
    ensures passes { IfOk result (λ made.
        Passes at (field_pieces [] (map field_of fields.now)) made.1) }
    ensures stops { IfErr result (StopsBy at (field_pieces [] (map field_of fields.now))) }
{
    let mut before = BTreeSet::new(alloc);
    let mut made = Vec::new(alloc);
    let mut next = at;
    for written in fields {
        let (field, end) = field(alloc, next, &mut before, written)?;
        made.push(field)?;
        next = end;
    }
    Ok((made, next))
}

/// The meta fields.
pub(crate) fn meta_fields(
    alloc: Global,
    at: u32,
    fields: &[WrittenField],
) -> Result<(Vec<P4Field>, u32), KindFault>
    ensures fields { IfOk result (λ made. map ir.field_of made.0.items
        ≡ map meant.meta_meant (map field_of fields.now)) }
    ensures passes { IfOk result (λ made.
        Passes at (meta_pieces [] (map field_of fields.now)) made.1) }
    ensures stops { IfErr result (StopsBy at (meta_pieces [] (map field_of fields.now))) }
{
    let mut before = BTreeSet::new(alloc);
    let mut made = Vec::new(alloc);
    let mut next = at;
    for written in fields {
        let (field, end) = meta_field(alloc, next, &mut before, written)?;
        made.push(field)?;
        next = end;
    }
    Ok((made, next))
}
