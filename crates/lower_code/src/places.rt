//! Names, and where headers and fields stand among the declared ones.
ghost use Rattle.std.specs.Prelude.{◌≡◌, IfOk, map};
ghost use Rattle.cocoon_num.specs.Names.{same_name};
ghost use Rattle.cocoon_syntax.specs.TreeOf.{header_of, param_of};
ghost use Rattle.lowering.specs.Lower as lower;

use crate::made::after;
use cocoon_num::NoMemory;
use cocoon_syntax::{HeaderDecl, Param};

/// Whether two names are the same.
#[tactic(auto, using(crate::proofs::Names::same_is))]
pub(crate) fn is_same(name: &[u8], other: &[u8]) -> bool
    ensures { result ≡ same_name name.now other.now }
{
    name == other
}

/// The index of the field of this name; that after the last where there is none.
pub(crate) fn place_in(fields: &[Param], name: &[u8]) -> Result<u32, NoMemory>
    ensures { IfOk result (λ place. place ≡ lower.place_in (map param_of fields.now) name.now) }
{
    let mut place = 0;
    for field in fields {
        if is_same(name, field.name.text.bytes()) {
            return Ok(place);
        }
        place = after(place)?;
    }
    Ok(place)
}

/// The index of the header of this name; that after the last where there is none.
pub(crate) fn header_place(headers: &[HeaderDecl], name: &[u8]) -> Result<u32, NoMemory>
    ensures { IfOk result (λ place. place
        ≡ lower.header_place (map header_of headers.now) name.now) }
{
    let mut place = 0;
    for header in headers {
        if is_same(name, header.name.text.bytes()) {
            return Ok(place);
        }
        place = after(place)?;
    }
    Ok(place)
}

/// The index of a field of a header; 0 where there is no such header.
pub(crate) fn field_place(
    headers: &[HeaderDecl],
    header: &[u8],
    field: &[u8],
) -> Result<u32, NoMemory>
    ensures { IfOk result (λ place. place
        ≡ lower.field_place (map header_of headers.now) header.now field.now) }
{
    for declared in headers {
        if is_same(header, declared.name.text.bytes()) {
            return place_in(&declared.fields, field);
        }
    }
    Ok(0)
}
