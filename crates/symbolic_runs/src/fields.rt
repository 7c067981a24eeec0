//! The terms of fields, which lie one after another, header by header.
ghost use Rattle.std.specs.Prelude.{◌≡◌, ◌≤◌, length, map, ℕ, Some};
ghost use Rattle.std.specs.List.{AllZip};
ghost use Rattle.cocoon_num.specs.Names.{same_name};
ghost use Rattle.cocoon_resolve.specs.Readers.{all_widths};
ghost use Rattle.cocoon_syntax.specs.TreeOf.{header_of, param_of};
ghost use Rattle.cocoon_types.specs.Design as design;
ghost use Rattle.bv_terms.specs.TermTrees.{IsWidth};
ghost use Rattle.obligation_laws.specs.Shown.{HasWidth};
ghost use Rattle.expr_terms.specs.Variables.{AreThere, terms_at};
ghost use Rattle.obligation_laws.specs.States.{choice_width};
ghost use Rattle.symbolic_runs.specs.Places as places;

use bv_terms::{TermId, Terms};
use cocoon_syntax::{HeaderDecl, Param};

/// Whether two names are the same.
fn is_same(name: &[u8], other: &[u8]) -> bool
    ensures { result ≡ same_name name.now other.now }
{
    name == other
}

/// The place of a field among those of one header.
fn place_in(params: &[Param], field: &[u8]) -> Option<usize>
    ensures { result ≡ places.place_in (map param_of params.now) field.now }
{
    for (index, param) in params.iter().enumerate() {
        if is_same(field, param.name.text.bytes()) {
            return Some(index);
        }
    }
    None
}

/// The place of a field of a header among these, which are those of all headers.
pub(crate) fn place_of(
    headers: &[HeaderDecl],
    fields: &[TermId],
    header: &[u8],
    field: &[u8],
) -> Option<usize>
    requires { length (all_widths (map header_of headers.now)) ≤ length fields.now }
    ensures { result ≡ places.place_of (map header_of headers.now) header.now field.now }
{
    let mut before = 0;
    for declared in headers {
        if is_same(header, declared.name.text.bytes()) {
            return Some(before + place_in(&declared.fields, field)?);
        }
        before += declared.fields.len();
    }
    None
}

/// The width of a field of a header, in bits, which is that of its term.
pub(crate) fn field_width(
    headers: &[HeaderDecl],
    fields: &[TermId],
    terms: &Terms,
    header: &[u8],
    field: &[u8],
) -> u8
    requires there { AreThere terms.now fields.now }
    requires widths { AllZip HasWidth (all_widths (map header_of headers.now))
        (terms_at terms.now fields.now) }
    requires declared { (w : ℕ)
        × (design.field_width (map header_of headers.now) header.now field.now ≡ Some w) }
    ensures width { result ≡ choice_width (map header_of headers.now) header.now field.now }
    ensures is_width { IsWidth result }
{
    let _count = terms.count();
    match place_of(headers, fields, header, field) {
        Some(place) => terms.width(fields[place]),
        None => unreachable!(),
    }
}
