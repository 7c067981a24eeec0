//! Bits of terms.
ghost use Rattle.std.specs.Prelude.{if◌then◌else◌, ◌≡◌, ◌≢◌, ◌<◌, ◌≤◌, ◌^◌, pos, unsigned_abs};
ghost use Rattle.cnf_core.specs.Literals.{opposite};
ghost use Rattle.bit_blast.specs.Gates.{false_bit, true_bit};

use cnf_core::Lit;

/// A variable, or its opposite under a minus sign.
#[derive(Clone, Copy, Drop)]
pub(crate) struct Bit {
    number: i32,
    ghost named: { number ≢ pos 0 },
    ghost small: { unsigned_abs number < 2 ^ 31 },
}

impl Bit {
    pub(crate) fn constant(holds: bool) -> Bit
        ensures { result.number ≡ (if holds then true_bit else false_bit) }
    {
        Bit {
            number: if holds { 1 } else { -1 },
        }
    }

    pub(crate) fn variable(number: u32) -> Bit
        requires { (1 ≤ number) × (number < 2 ^ 31) }
        ensures { result.number ≡ pos number }
    {
        Bit {
            number: number as i32,
        }
    }

    pub(crate) fn opposite(self) -> Bit
        ensures { result.number ≡ opposite self.number }
    {
        Bit {
            number: -self.number,
        }
    }

    pub(crate) fn lit(self) -> Lit
        ensures { result.number ≡ self.number }
    {
        Lit {
            number: self.number,
        }
    }
}
