//! The bits of terms, over those of their parts.
ghost use Rattle.std.specs.Prelude.{◌≡◌, ◌+◌, ◌-◌, ◌<◌, ◌≤◌, ◌∷◌, ◌++◌, [], IfOk, length, take, drop};
ghost use Rattle.bit_blast.specs.Gates as gates;
ghost use Rattle.bit_blast.specs.Clauses.{OperandsMatch, first_bit, joined};
ghost use Rattle.bit_blast.specs.Emitted.{AreGates, numbers};

use crate::bit::Bit;
use crate::joining::{BitGate, flipped};
use crate::made::Gates;
use bv_terms::TermOp;
use cocoon_num::NoMemory;
use std::alloc::Global;

/// The bits of a number.
pub(crate) fn constant_bits(alloc: Global, width: u8, value: u128) -> Result<Vec<Bit>, NoMemory>
    ensures { IfOk result (λ bits. numbers bits.items ≡ gates.constant_bits width value) }
{
    let mut bits = Vec::with_capacity(alloc, width as usize)?;
    let mut rest = value;
    while bits.len() < width as usize {
        bits.push(Bit::constant(rest % 2 == 1))?;
        rest /= 2;
    }
    Ok(bits)
}

/// Bit 0.
pub(crate) fn first(bits: &[Bit]) -> Bit
    requires { 0 < length bits.now }
    ensures { result.number ≡ first_bit (numbers bits.now) }
{
    bits[0]
}

/// The bits from the place `high` down to `low`.
pub(crate) fn slice_bits(
    alloc: Global,
    bits: &[Bit],
    high: u8,
    low: u8,
) -> Result<Vec<Bit>, NoMemory>
    requires ordered { low ≤ high }
    requires within { high < length bits.now }
    ensures { IfOk result (λ part. numbers part.items
        ≡ take (high - low + 1) (drop low (numbers bits.now))) }
{
    Ok(Vec::from_slice(alloc, &bits[low as usize..high as usize + 1])?)
}

/// The bits of both, the second in the more significant places.
fn concat_bits(alloc: Global, low: &[Bit], high: &[Bit]) -> Result<Vec<Bit>, NoMemory>
    ensures { IfOk result (λ bits. numbers bits.items ≡ numbers low.now ++ numbers high.now) }
{
    let mut bits = Vec::from_slice(alloc, low)?;
    bits.extend_from_slice(high)?;
    Ok(bits)
}

/// One bit as the bits of a term of width 1.
fn one_bit(alloc: Global, bit: Bit) -> Result<Vec<Bit>, NoMemory>
    ensures { IfOk result (λ bits. numbers bits.items ≡ bit.number ∷ []) }
{
    let mut bits = Vec::with_capacity(alloc, 1)?;
    bits.push(bit)?;
    Ok(bits)
}

impl Gates {
    /// The bits of a new input.
    pub(crate) fn input(&mut self, alloc: Global, width: u8) -> Result<Vec<Bit>, NoMemory>
        ensures { IfOk result (λ bits. AreGates self.old self.new
            (gates.plain (gates.fresh self.old.next width) (self.old.next + width))
            (numbers bits.items)) }
    {
        let mut bits = Vec::with_capacity(alloc, width as usize)?;
        while bits.len() < width as usize {
            bits.push(self.fresh()?)?;
        }
        Ok(bits)
    }

    /// Whether two numbers are equal.
    fn equals(&mut self, alloc: Global, a: &[Bit], b: &[Bit]) -> Result<Bit, NoMemory>
        requires lengths { length a.now ≡ length b.now }
        requires some { 0 < length a.now }
        ensures { IfOk result (λ g. AreGates self.old self.new
            (gates.equals self.old.next (numbers a.now) (numbers b.now)) (g.number ∷ [])) }
    {
        let first = self.same(alloc, a[0], b[0])?;
        self.equals_from(alloc, first, &a[1..], &b[1..])
    }

    /// The bits of two terms under an operator.
    pub(crate) fn joined(
        &mut self,
        alloc: Global,
        op: TermOp,
        a: &[Bit],
        b: &[Bit],
    ) -> Result<Vec<Bit>, NoMemory>
        requires widths { OperandsMatch op (length a.now) (length b.now) }
        requires some { 0 < length a.now }
        ensures { IfOk result (λ bits. AreGates self.old self.new
            (joined op self.old.next (numbers a.now) (numbers b.now)) (numbers bits.items)) }
    {
        match op {
            TermOp::Add => self.sums(alloc, Bit::constant(false), a, b),
            TermOp::Sub => self.sums(alloc, Bit::constant(true), a, &flipped(alloc, b)?),
            TermOp::And => self.bitwise(alloc, BitGate::And, a, b),
            TermOp::Or => self.bitwise(alloc, BitGate::Or, a, b),
            TermOp::Xor => self.bitwise(alloc, BitGate::Xor, a, b),
            TermOp::Concat => concat_bits(alloc, b, a),
            TermOp::Equal => one_bit(alloc, self.equals(alloc, a, b)?),
            TermOp::Less => one_bit(alloc, self.less_from(alloc, Bit::constant(false), a, b)?),
        }
    }
}
