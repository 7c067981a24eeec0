//! The bits of an input.
ghost use Rattle.std.specs.Prelude.{◌≤◌, length};

use crate::bit::Bit;

/// The bits of an input, none if the goal does not have it.
#[derive(Drop)]
pub(crate) struct InputBits {
    pub(crate) width: u8,
    pub(crate) bits: Vec<Bit>,
    ghost wide: { 1 ≤ width },
    ghost narrow: { width ≤ 128 },
    ghost few: { length bits.items ≤ width },
}
