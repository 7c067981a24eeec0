//! The layout of the packets: the widths of all fields, and how many bytes the headers have.
ghost use Rattle.std.specs.Prelude.{◌≡◌, ◌≤◌, ◌+◌, ◌^◌, ◌/◌, ◌++◌, flat_map, IfOk, length, map, OnOk};
ghost use Rattle.cocoon_num.specs.Packets.{total};
ghost use Rattle.cocoon_num.specs.Tree.{HeaderDecl as Header};
ghost use Rattle.cocoon_syntax.specs.TreeOf.{design_of, header_of, param_of};
ghost use Rattle.cocoon_types.specs.Design.{widths_of};
ghost use Rattle.cocoon_resolve.specs.Kept.{AreDeclared};
ghost use Rattle.cocoon_resolve.specs.Readers.{all_widths, field_widths};

use cocoon_num::NoMemory;
use cocoon_syntax::{Design, HeaderDecl, Param};
use std::alloc::Global;

fn append_fields(widths: &mut Vec<u8>, fields: &[Param]) -> Result<(), NoMemory>
    requires { AreDeclared (widths_of (map param_of fields.now)) }
    ensures { OnOk result (widths.new.items
        ≡ widths.old.items ++ widths_of (map param_of fields.now)) }
{
    for field in fields {
        widths.push(field.width as u8)?;
    }
    Ok(())
}

/// The widths in bits of all fields, header by header.
pub(crate) fn widths(alloc: Global, headers: &[HeaderDecl]) -> Result<Vec<u8>, NoMemory>
    requires { AreDeclared (all_widths (map header_of headers.now)) }
    ensures { IfOk result (λ widths. widths.items ≡ all_widths (map header_of headers.now)) }
{
    let mut widths = Vec::new(alloc);
    for header in headers {
        append_fields(&mut widths, &header.fields)?;
    }
    Ok(widths)
}

/// How many bytes fields of these widths fill.
pub(crate) fn bytes(widths: &[u8]) -> u32
    requires { length widths.now ≤ 64 }
    ensures { result ≡ total widths.now / 8 }
{
    let mut bits = 0u32;
    for width in widths {
        bits = with_field(bits, *width);
    }
    bits / 8
}

/// The bits of some fields and of one more.
fn with_field(bits: u32, width: u8) -> u32
    requires { bits ≤ 2 ^ 16 }
    ensures sum { result ≡ bits + width }
    ensures bound { result ≤ bits + 255 }
{
    bits + u32::from(width)
}
