//! Gates, each with its clauses.
ghost use Rattle.std.specs.Prelude.{◌≡◌, ◌<◌, ◌^◌, ◌++◌, ◌∷◌, ◌-◌, [], IfOk, OnOk, map, pos};
ghost use Rattle.cnf_core.specs.Clauses.{literals};
ghost use Rattle.bit_blast.specs.Gates as gates;
ghost use Rattle.bit_blast.specs.Emitted.{IsGate, listed, numbers};

use crate::bit::Bit;
use crate::made::Gates;
use cnf_core::{Clause, Cnf, Lit, Literals};
use cocoon_num::{List, NoMemory};
use std::alloc::Global;

/// The literals of so many bits as there are.
fn all_lits(alloc: Global, bits: &[Bit]) -> Result<Vec<Lit>, NoMemory>
    ensures { IfOk result (λ lits. map (λ l. l.number) lits.items ≡ numbers bits.now) }
{
    let mut lits = Vec::with_capacity(alloc, bits.len())?;
    for bit in bits {
        lits.push(bit.lit())?;
    }
    Ok(lits)
}

fn clause(alloc: Global, bits: &[Bit]) -> Result<Clause, NoMemory>
    ensures { IfOk result (λ clause. literals clause ≡ numbers bits.now) }
{
    let lits = match bits {
        [a] => Literals::one(a.lit()),
        [a, b] => Literals::two(a.lit(), b.lit()),
        [a, b, c] => Literals::three(a.lit(), b.lit(), c.lit()),
        _ => Literals::from(all_lits(alloc, bits)?),
    };
    Ok(Clause { lits })
}

impl Gates {
    /// No gate: the first variable is the constant.
    pub(crate) fn new(alloc: Global) -> Gates
        ensures clauses { result.clauses.items ≡ [] }
        ensures next { result.next ≡ 2 }
    {
        Gates {
            clauses: Vec::new(alloc),
            next: 2,
        }
    }

    /// These clauses over the variables used so far.
    pub(crate) fn into_cnf(self) -> Cnf
        ensures clauses { map literals result.clauses ≡ listed self }
        ensures vars { result.vars ≡ self.next - 1 }
        ensures small { result.vars < 2 ^ 31 }
    {
        Cnf {
            vars: self.next - 1,
            clauses: List::from(self.clauses),
        }
    }

    pub(crate) fn add(&mut self, alloc: Global, bits: &[Bit]) -> Result<(), NoMemory>
        ensures listed { OnOk result (listed self.new ≡ listed self.old ++ numbers bits.now ∷ []) }
        ensures next { self.new.next ≡ self.old.next }
    {
        self.clauses.push(clause(alloc, bits)?)?;
        Ok(())
    }

    /// The variable of a new gate, or of a new bit of an input.
    pub(crate) fn fresh(&mut self) -> Result<Bit, NoMemory>
        ensures { IfOk result (λ bit. IsGate self.old self.new [] bit.number) }
    {
        if self.next >= 1 << 31 {
            return Err(NoMemory);
        }
        let bit = Bit::variable(self.next);
        self.next += 1;
        Ok(bit)
    }

    pub(crate) fn and(&mut self, alloc: Global, a: Bit, b: Bit) -> Result<Bit, NoMemory>
        ensures { IfOk result (λ g. IsGate self.old self.new
            (gates.and_gate (pos self.old.next) a.number b.number) g.number) }
    {
        let g = self.fresh()?;
        self.add(alloc, &[g.opposite(), a])?;
        self.add(alloc, &[g.opposite(), b])?;
        self.add(alloc, &[g, a.opposite(), b.opposite()])?;
        Ok(g)
    }

    pub(crate) fn or(&mut self, alloc: Global, a: Bit, b: Bit) -> Result<Bit, NoMemory>
        ensures { IfOk result (λ g. IsGate self.old self.new
            (gates.or_gate (pos self.old.next) a.number b.number) g.number) }
    {
        let g = self.fresh()?;
        self.add(alloc, &[g, a.opposite()])?;
        self.add(alloc, &[g, b.opposite()])?;
        self.add(alloc, &[g.opposite(), a, b])?;
        Ok(g)
    }

    pub(crate) fn xor(&mut self, alloc: Global, a: Bit, b: Bit) -> Result<Bit, NoMemory>
        ensures { IfOk result (λ g. IsGate self.old self.new
            (gates.xor_gate (pos self.old.next) a.number b.number) g.number) }
    {
        let g = self.fresh()?;
        self.add(alloc, &[g.opposite(), a, b])?;
        self.add(alloc, &[g.opposite(), a.opposite(), b.opposite()])?;
        self.add(alloc, &[g, a.opposite(), b])?;
        self.add(alloc, &[g, a, b.opposite()])?;
        Ok(g)
    }

    /// Whether two bits are equal.
    pub(crate) fn same(&mut self, alloc: Global, a: Bit, b: Bit) -> Result<Bit, NoMemory>
        ensures { IfOk result (λ g. IsGate self.old self.new
            (gates.same_gate (pos self.old.next) a.number b.number) g.number) }
    {
        let g = self.fresh()?;
        self.add(alloc, &[g, a, b])?;
        self.add(alloc, &[g, a.opposite(), b.opposite()])?;
        self.add(alloc, &[g.opposite(), a.opposite(), b])?;
        self.add(alloc, &[g.opposite(), a, b.opposite()])?;
        Ok(g)
    }

    /// `a` where `c` is true, else `b`.
    pub(crate) fn choice(&mut self, alloc: Global, c: Bit, a: Bit, b: Bit) -> Result<Bit, NoMemory>
        ensures { IfOk result (λ g. IsGate self.old self.new
            (gates.choice_gate c.number (pos self.old.next) a.number b.number) g.number) }
    {
        let g = self.fresh()?;
        self.add(alloc, &[c.opposite(), a.opposite(), g])?;
        self.add(alloc, &[c.opposite(), a, g.opposite()])?;
        self.add(alloc, &[c, b.opposite(), g])?;
        self.add(alloc, &[c, b, g.opposite()])?;
        self.add(alloc, &[a.opposite(), b.opposite(), g])?;
        self.add(alloc, &[a, b, g.opposite()])?;
        Ok(g)
    }

    /// Whether two or three of the bits are true.
    pub(crate) fn carry(&mut self, alloc: Global, a: Bit, b: Bit, c: Bit) -> Result<Bit, NoMemory>
        ensures { IfOk result (λ g. IsGate self.old self.new
            (gates.carry_gate (pos self.old.next) a.number b.number c.number) g.number) }
    {
        let g = self.fresh()?;
        self.add(alloc, &[a.opposite(), b.opposite(), g])?;
        self.add(alloc, &[a.opposite(), c.opposite(), g])?;
        self.add(alloc, &[b.opposite(), c.opposite(), g])?;
        self.add(alloc, &[a, b, g.opposite()])?;
        self.add(alloc, &[a, c, g.opposite()])?;
        self.add(alloc, &[b, c, g.opposite()])?;
        Ok(g)
    }
}
