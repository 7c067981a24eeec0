//! The terms of fields, which lie one after another, header by header.
ghost use Rattle.std.specs.Prelude.{◌≡◌, ℕ, List, drop, map};
ghost use Rattle.cocoon_syntax.specs.TreeOf.{header_of, param_of};
ghost use Rattle.bv_terms.specs.declared.node.Node.{Node};
ghost use Rattle.obligation_laws.specs.TermOf.{field_term, term_in};
ghost use Rattle.expr_terms.specs.Variables.{AreThere, IsThere, found_term, terms_at};

use crate::variables::is_same;
use bv_terms::TermId;
use cocoon_syntax::{HeaderDecl, Param};

/// The term of a field among those of one header.
fn field_in(params: &[Param], terms: &[TermId], field: &[u8]) -> Option<TermId>
    ensures found { (nodes : List Node)
        → term_in (map param_of params.now) (terms_at nodes terms.now) field.now
        ≡ found_term nodes result }
    ensures there { (nodes : List Node) → AreThere nodes terms.now → IsThere nodes result }
{
    let count = params.len().min(terms.len());
    let mut at = 0;
    while at < count {
        if is_same(field, params[at].name.text.bytes()) {
            return Some(terms[at]);
        }
        at += 1;
    }
    None
}

/// All but the first, so many.
fn after(terms: &[TermId], count: usize) -> &[TermId]
    ensures { result.now ≡ drop count terms.now }
{
    if count < terms.len() {
        &terms[count..]
    } else {
        &[]
    }
}

/// The term of a field of a header.
pub(crate) fn field(
    headers: &[HeaderDecl],
    terms: &[TermId],
    header: &[u8],
    field: &[u8],
) -> Option<TermId>
    ensures found { (nodes : List Node)
        → field_term (map header_of headers.now) (terms_at nodes terms.now) header.now field.now
        ≡ found_term nodes result }
    ensures there { (nodes : List Node) → AreThere nodes terms.now → IsThere nodes result }
{
    let mut rest = terms;
    for declared in headers {
        if is_same(header, declared.name.text.bytes()) {
            return field_in(&declared.fields, rest, field);
        }
        rest = after(rest, declared.fields.len());
    }
    None
}
