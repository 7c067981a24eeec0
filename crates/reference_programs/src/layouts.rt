//! Widths of fields, header by header.
ghost use Rattle.std.specs.Prelude.{◌≡◌};
ghost use Rattle.cocoon_num.specs.Lists.{each};
ghost use Rattle.cocoon_num.specs.Packets as packets;
ghost use Rattle.cocoon_num.specs.Sorts.{is_declared_width};
ghost use Rattle.reference_programs.specs.Widths as spec;

use cocoon_num::List;

/// How many bits the fields have.
pub fn total(widths: &[u8]) -> u128
    ensures { result ≡ packets.total widths.now }
{
    let mut bits: u128 = 0;
    for width in widths {
        bits += u128::from(*width);
    }
    bits
}

/// Whether each header has fields of 1 to 64 bits that fill bytes.
pub fn is_layout(layout: &[List<u8>]) -> bool
    ensures { result ≡ spec.is_layout layout.now }
{
    for widths in layout {
        if !is_header(widths.items()) {
            return false;
        }
    }
    true
}

fn is_header(widths: &[u8]) -> bool
    ensures { result ≡ spec.is_header widths.now }
{
    are_widths(widths) && total(widths) % 8 == 0
}

fn are_widths(widths: &[u8]) -> bool
    ensures { result ≡ each is_declared_width widths.now }
{
    for width in widths {
        if *width < 1 || *width > 64 {
            return false;
        }
    }
    true
}
