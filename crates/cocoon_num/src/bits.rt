//! Numbers of a width, as in P4-16's unsigned `bit<W>`.
ghost use Rattle.std.specs.Prelude.{◌≡◌, ◌≤◌, ◌<◌, ◌^◌};

/// A number with its width in bits: from 1 to 128, and a value below `2^width`.
#[derive(Clone, Copy, Debug, Drop, PartialEq, Eq)]
pub struct Bits {
    pub width: u8,
    pub value: u128,
    ghost wide: { 1 ≤ width },
    ghost narrow: { width ≤ 128 },
    ghost fits: { value < 2 ^ width },
}

impl Bits {
    /// The number `value` of the width `width`.
    pub fn new(width: u8, value: u128) -> Bits
        requires wide { 1 ≤ width }
        requires narrow { width ≤ 128 }
        requires fits { value < 2 ^ width }
        ensures width { result.width ≡ width }
        ensures value { result.value ≡ value }
    {
        Bits { width, value }
    }
}
