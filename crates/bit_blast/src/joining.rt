//! Terms' bits by gates, from bit 0 on.
ghost use Rattle.std.specs.Prelude.{◌≡◌, ◌+◌, ◌++◌, ◌∷◌, [], pos, map, IfOk, length};
ghost use Rattle.cnf_core.specs.Literals.{opposite};
ghost use Rattle.bit_blast.specs.Gates as gates;
ghost use Rattle.bit_blast.specs.Emitted.{AreGates, IsGate, IsPair, IsSumBit, gate_of, numbers};

use crate::bit::Bit;
use crate::made::Gates;
use cocoon_num::NoMemory;
use std::alloc::Global;

/// A gate of two bits.
#[derive(Clone, Copy)]
pub(crate) enum BitGate {
    And,
    Or,
    Xor,
    /// The first where this bit is true, else the second.
    Choice(Bit),
}

/// The bits that are true where these are false.
pub(crate) fn flipped(alloc: Global, bits: &[Bit]) -> Result<Vec<Bit>, NoMemory>
    ensures { IfOk result (λ others. numbers others.items ≡ map opposite (numbers bits.now)) }
{
    let mut others = Vec::with_capacity(alloc, bits.len())?;
    for bit in bits {
        others.push(bit.opposite())?;
    }
    Ok(others)
}

impl Gates {
    fn gate(&mut self, alloc: Global, gate: BitGate, a: Bit, b: Bit) -> Result<Bit, NoMemory>
        ensures { IfOk result (λ g. IsGate self.old self.new
            (gate_of gate (pos self.old.next) a.number b.number) g.number) }
    {
        match gate {
            BitGate::And => self.and(alloc, a, b),
            BitGate::Or => self.or(alloc, a, b),
            BitGate::Xor => self.xor(alloc, a, b),
            BitGate::Choice(c) => self.choice(alloc, c, a, b),
        }
    }

    /// One gate a bit.
    pub(crate) fn bitwise(
        &mut self,
        alloc: Global,
        gate: BitGate,
        a: &[Bit],
        b: &[Bit],
    ) -> Result<Vec<Bit>, NoMemory>
        requires { length a.now ≡ length b.now }
        ensures { IfOk result (λ bits. AreGates self.old self.new
            (gates.bitwise (gate_of gate) self.old.next (numbers a.now) (numbers b.now))
            (numbers bits.items)) }
    {
        let mut bits = Vec::with_capacity(alloc, a.len())?;
        for (at, first) in a.iter().enumerate() {
            let bit = self.gate(alloc, gate, *first, b[at])?;
            bits.push(bit)?;
        }
        Ok(bits)
    }

    /// The sum of two bits and a carry, and the next carry.
    fn sum_bit(&mut self, alloc: Global, a: Bit, b: Bit, below: Bit) -> Result<(Bit, Bit), NoMemory>
        ensures { IfOk result (λ made. IsSumBit self.old self.new below.number a.number b.number
            made.0.number made.1.number) }
    {
        let differ = self.xor(alloc, a, b)?;
        let sum = self.xor(alloc, differ, below)?;
        let carry = self.carry(alloc, a, b, below)?;
        Ok((sum, carry))
    }

    /// The sum of two numbers and a first carry.
    pub(crate) fn sums(
        &mut self,
        alloc: Global,
        first: Bit,
        a: &[Bit],
        b: &[Bit],
    ) -> Result<Vec<Bit>, NoMemory>
        requires { length a.now ≡ length b.now }
        ensures { IfOk result (λ bits. AreGates self.old self.new
            (gates.sums self.old.next first.number (numbers a.now) (numbers b.now))
            (numbers bits.items)) }
    {
        let mut bits = Vec::with_capacity(alloc, a.len())?;
        let mut below = first;
        for (at, bit) in a.iter().enumerate() {
            let (sum, carry) = self.sum_bit(alloc, *bit, b[at], below)?;
            bits.push(sum)?;
            below = carry;
        }
        Ok(bits)
    }

    /// The chain so far, and whether these two bits are equal.
    fn equal_bit(&mut self, alloc: Global, chain: Bit, a: Bit, b: Bit) -> Result<Bit, NoMemory>
        ensures { IfOk result (λ g. IsPair self.old self.new
            (gates.same_gate (pos self.old.next) a.number b.number
            ++ gates.and_gate (pos (self.old.next + 1)) chain.number (pos self.old.next))
            g.number) }
    {
        let same = self.same(alloc, a, b)?;
        self.and(alloc, chain, same)
    }

    /// Whether the bits are equal from bit 1 on and `first` is true.
    pub(crate) fn equals_from(
        &mut self,
        alloc: Global,
        first: Bit,
        a: &[Bit],
        b: &[Bit],
    ) -> Result<Bit, NoMemory>
        requires { length a.now ≡ length b.now }
        ensures { IfOk result (λ g. AreGates self.old self.new
            (gates.equals_from self.old.next first.number (numbers a.now) (numbers b.now))
            (g.number ∷ [])) }
    {
        let mut chain = first;
        for (at, bit) in a.iter().enumerate() {
            chain = self.equal_bit(alloc, chain, *bit, b[at])?;
        }
        Ok(chain)
    }

    /// The answer below, or the second bit where the two differ.
    fn less_bit(&mut self, alloc: Global, below: Bit, a: Bit, b: Bit) -> Result<Bit, NoMemory>
        ensures { let n = self.old.next in IfOk result (λ g. IsPair self.old self.new
            (gates.xor_gate (pos n) a.number b.number
            ++ gates.choice_gate (pos n) (pos (n + 1)) b.number below.number)
            g.number) }
    {
        let differ = self.xor(alloc, a, b)?;
        self.choice(alloc, differ, b, below)
    }

    /// Whether the first number is less, where `first` says so of the bits below.
    pub(crate) fn less_from(
        &mut self,
        alloc: Global,
        first: Bit,
        a: &[Bit],
        b: &[Bit],
    ) -> Result<Bit, NoMemory>
        requires { length a.now ≡ length b.now }
        ensures { IfOk result (λ g. AreGates self.old self.new
            (gates.less_from self.old.next first.number (numbers a.now) (numbers b.now))
            (g.number ∷ [])) }
    {
        let mut below = first;
        for (at, bit) in a.iter().enumerate() {
            below = self.less_bit(alloc, below, *bit, b[at])?;
        }
        Ok(below)
    }
}
