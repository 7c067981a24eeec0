//! Numbers of a width.
use cocoon_num::Bits;

/// The number of this width, if there is such a one.
pub fn bits(width: u8, value: u128) -> Option<Bits> {
    if width == 128 {
        return Some(Bits::new(128, value));
    }
    if 1 <= width && width < 128 && value < 1 << width {
        Some(Bits::new(width, value))
    } else {
        None
    }
}
