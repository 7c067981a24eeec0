//! Operations on numbers of a width. They give what the operators of the definitions give.
ghost use Rattle.std.specs.Prelude.{◌≡◌, ◌≤◌, ◌<◌, ◌+◌, ◌^◌, Some};
ghost use Rattle.cocoon_num.specs.BitsOf.{value_of};
ghost use Rattle.cocoon_num.specs.Values as values;
ghost use Rattle.cocoon_num.specs.Values.{apply_binary, apply_slice, apply_unary, truth};

use crate::bits::Bits;

/// Ones at the lowest places.
#[tactic(auto, using(crate::proofs::Widths::mask_is))]
fn mask(width: u8) -> u128
    requires wide { 1 ≤ width }
    requires narrow { width ≤ 128 }
    ensures { result + 1 ≡ 2 ^ width }
{
    u128::MAX >> (128 - width)
}

impl Bits {
    /// The sum, modulo `2^width`.
    #[tactic(auto, using(crate::proofs::Widths::low_places))]
    pub fn add(self, other: Bits) -> Bits
        requires { self.width ≡ other.width }
        ensures { apply_binary values.add (value_of self) (value_of other)
            ≡ Some (value_of result) }
    {
        Bits {
            width: self.width,
            value: self.value.wrapping_add(other.value) & mask(self.width),
        }
    }

    /// The difference, modulo `2^width`.
    #[tactic(auto, using(crate::proofs::Widths::difference))]
    pub fn sub(self, other: Bits) -> Bits
        requires { self.width ≡ other.width }
        ensures { apply_binary values.sub (value_of self) (value_of other)
            ≡ Some (value_of result) }
    {
        Bits {
            width: self.width,
            value: self.value.wrapping_sub(other.value) & mask(self.width),
        }
    }

    /// The bits that both have.
    pub fn and(self, other: Bits) -> Bits
        requires { self.width ≡ other.width }
        ensures { apply_binary values.bits_and (value_of self) (value_of other)
            ≡ Some (value_of result) }
    {
        Bits {
            width: self.width,
            value: self.value & other.value,
        }
    }

    /// The bits that one or both have.
    #[tactic(auto, using(std::proofs::lemmas::Nat::or_lt))]
    pub fn or(self, other: Bits) -> Bits
        requires { self.width ≡ other.width }
        ensures { apply_binary values.bits_or (value_of self) (value_of other)
            ≡ Some (value_of result) }
    {
        Bits {
            width: self.width,
            value: self.value | other.value,
        }
    }

    /// The bits that one alone has.
    #[tactic(auto, using(std::proofs::lemmas::Nat::xor_lt))]
    pub fn xor(self, other: Bits) -> Bits
        requires { self.width ≡ other.width }
        ensures { apply_binary values.bits_xor (value_of self) (value_of other)
            ≡ Some (value_of result) }
    {
        Bits {
            width: self.width,
            value: self.value ^ other.value,
        }
    }

    /// Each bit turned.
    pub fn not(self) -> Bits
        ensures { apply_unary values.flip (value_of self) ≡ Some (value_of result) }
    {
        Bits {
            width: self.width,
            value: mask(self.width) - self.value,
        }
    }

    /// Both one after another, this one in the more significant bits.
    #[tactic(auto, using(crate::proofs::Widths::joined_bits, crate::proofs::Widths::shifted_below))]
    pub fn concat(self, low: Bits) -> Bits
        requires { self.width + low.width ≤ 128 }
        ensures { apply_binary values.concat (value_of self) (value_of low)
            ≡ Some (value_of result) }
    {
        Bits {
            width: self.width + low.width,
            value: (self.value << low.width) | low.value,
        }
    }

    /// The bits from `high` down to `low`, both included and counted from 0.
    #[tactic(auto, using(crate::proofs::Widths::low_of))]
    pub fn slice(self, high: u8, low: u8) -> Bits
        requires ordered { low ≤ high }
        requires within { high < self.width }
        ensures { apply_slice (value_of self) high low ≡ Some (value_of result) }
    {
        let width = high - low + 1;
        Bits {
            width,
            value: (self.value >> low) & mask(width),
        }
    }

    /// Whether this number is less than the other.
    pub fn less(self, other: Bits) -> bool
        requires { self.width ≡ other.width }
        ensures { apply_binary values.less (value_of self) (value_of other) ≡ Some (truth result) }
    {
        self.value < other.value
    }

    /// Whether they are the same number.
    pub fn equal(self, other: Bits) -> bool
        requires { self.width ≡ other.width }
        ensures { apply_binary values.equal (value_of self) (value_of other) ≡ Some (truth result) }
    {
        self.value == other.value
    }
}
