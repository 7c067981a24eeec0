//! The rules of widths.
ghost use Rattle.std.specs.Prelude.{◌≡◌, ◌%◌, map};
ghost use Rattle.cocoon_num.specs.Lists.{each};
ghost use Rattle.cocoon_num.specs.Packets.{total};
ghost use Rattle.cocoon_num.specs.Sorts as sorts;
ghost use Rattle.p4_ir.specs.P4Kinds as rules;
ghost use Rattle.p4_ir.specs.P4Tree.{field_widths};
ghost use Rattle.p4_ir.specs.Program.{field_of, header_of, program_of};
ghost use Rattle.p4_kinds.specs.Parts.{header_widths_fit};

use p4_ir::{P4Field, P4Header, Program};

fn is_declared_width(width: u8) -> bool
    ensures { result ≡ sorts.is_declared_width width }
{
    1 <= width && width <= 64
}

fn are_declared_widths(fields: &[P4Field]) -> bool
    ensures { result ≡ each sorts.is_declared_width (field_widths (map field_of fields.now)) }
{
    for field in fields {
        if !is_declared_width(field.width) {
            return false;
        }
    }
    true
}

/// How many bits the fields have over whole bytes.
fn spare_bits(fields: &[P4Field]) -> u8
    ensures { result ≡ total (field_widths (map field_of fields.now)) % 8 }
{
    let mut bits = 0;
    for field in fields {
        bits = (bits + field.width % 8) % 8;
    }
    bits
}

fn is_header_wide(header: &P4Header) -> bool
    ensures { result ≡ header_widths_fit (header_of header.now) }
{
    are_declared_widths(header.fields.items()) && spare_bits(header.fields.items()) == 0
}

fn are_headers_wide(headers: &[P4Header]) -> bool
    ensures { result ≡ each header_widths_fit (map header_of headers.now) }
{
    for header in headers {
        if !is_header_wide(header) {
            return false;
        }
    }
    true
}

pub(crate) fn widths_fit(program: &Program) -> bool
    ensures { result ≡ rules.widths_fit (program_of program.now) }
{
    are_headers_wide(program.headers.items()) && are_declared_widths(program.meta.items())
}
