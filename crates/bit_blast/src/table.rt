//! The bits of the terms so far.
ghost use Rattle.std.specs.Prelude.{◌≡◌, IfOk};
ghost use Rattle.bit_blast.specs.Emitted.{AreGates, numbers};
ghost use Rattle.bit_blast.specs.Tables.{HasBits, bits_at, circuit_of_node};

use crate::bit::Bit;
use crate::joining::{BitGate, flipped};
use crate::made::Gates;
use crate::parts::{constant_bits, slice_bits};
use bv_terms::{Node, TermId};
use cocoon_num::NoMemory;
use std::alloc::Global;
use std::collections::BTreeMap;

/// The bits of each term that was made.
#[derive(Drop)]
pub(crate) struct Table {
    pub(crate) rows: BTreeMap<TermId, Vec<Bit>>,
}

impl Table {
    /// The bits of a term, none if it was not made.
    pub(crate) fn bits(&self, term: TermId) -> &[Bit]
        ensures { numbers result.now ≡ bits_at self.now term }
    {
        match self.rows.get(&term) {
            Some(bits) => bits,
            None => &[],
        }
    }
}

impl Gates {
    /// The bits of a node over those of its parts.
    pub(crate) fn node_bits(
        &mut self,
        alloc: Global,
        table: &Table,
        node: &Node,
    ) -> Result<Vec<Bit>, NoMemory>
        requires { HasBits table.now node.now }
        ensures { IfOk result (λ bits. AreGates self.old self.new
            (circuit_of_node (bits_at table.now) self.old.next node.now) (numbers bits.items)) }
    {
        match node {
            Node::Constant(value) => constant_bits(alloc, value.width, value.value),
            Node::Input(_, width) => self.input(alloc, *width),
            Node::Apply(_, _, _) => Ok(Vec::new(alloc)),
            Node::Not(a) => flipped(alloc, table.bits(*a)),
            Node::Binary(op, a, b) => self.joined(alloc, *op, table.bits(*a), table.bits(*b)),
            Node::Slice(a, high, low) => slice_bits(alloc, table.bits(*a), *high, *low),
            Node::Pick(c, a, b) => {
                let choice = BitGate::Choice(table.bits(*c)[0]);
                self.bitwise(alloc, choice, table.bits(*a), table.bits(*b))
            }
        }
    }
}
