//! What expressions are resolved to.
ghost use Rattle.std.specs.Prelude.{◌≤◌};

use crate::expr_codes::{NumberCode, TruthCode};

/// An expression that gives a number, with the width of the number.
#[derive(Drop)]
pub struct SizedNumber {
    pub code: NumberCode,
    pub width: u8,
    ghost wide: { 1 ≤ width },
    ghost narrow: { width ≤ 128 },
}

/// An expression, resolved.
#[derive(Drop)]
pub enum Resolved {
    Number(SizedNumber),
    Truth(TruthCode),
}
