//! Numbers of a width.
use case_files::{number, wide_number};
use cocoon_num::Bits;

/// A number below 256.
pub fn small(digits: &str) -> Option<u8> {
    u8::try_from(number(digits)?).ok()
}

/// The lowest bits of a number, if the width is from 1 to 128.
pub fn lowest(width: u8, number: u128) -> Option<Bits> {
    if width < 1 || width > 128 {
        return None;
    }
    Some(Bits::new(128, number).slice(width - 1, 0))
}

/// The number of these digits, if it fits the width.
pub fn sized(width: u8, digits: &str) -> Option<Bits> {
    let number = wide_number(digits)?;
    let bits = lowest(width, number)?;
    if bits.value == number {
        Some(bits)
    } else {
        None
    }
}

/// The number that a word `WIDTHwVALUE` is.
pub fn constant(word: &str) -> Option<Bits> {
    let (width, digits) = word.split_once('w')?;
    sized(small(width)?, digits)
}
