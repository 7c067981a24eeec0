//! Nodes of terms.
ghost use Rattle.std.specs.Prelude.{◌≡◌, ◌<◌, Some, length, slice_get};
ghost use Rattle.bv_terms.specs.Arenas.{parts};

use cocoon_num::{Bits, List};

/// The number of a term in its arena.
pub type TermId = u32;

/// The number of an input in its arena.
pub type InputId = u32;

/// The number of a run-time function in its design.
pub type FunId = u32;

/// An operator of two terms. `Equal` and `Less` give truth, which is a number of width 1.
#[derive(Clone, Copy, Debug, Drop, PartialEq, Eq)]
pub enum TermOp {
    Add,
    Sub,
    And,
    Or,
    Xor,
    /// The first operand in the more significant bits.
    Concat,
    Equal,
    Less,
}

/// A term over terms with smaller numbers. A width is in bits.
#[derive(Drop)]
pub enum Node {
    Constant(Bits),
    /// An input, and its width.
    Input(InputId, u8),
    /// A function at arguments, and the width of its result.
    Apply(FunId, List<TermId>, u8),
    Not(TermId),
    Binary(TermOp, TermId, TermId),
    /// The bits from the first place down to the second, both included and counted from 0.
    Slice(TermId, u8, u8),
    /// The second term where the first is true, else the third.
    Pick(TermId, TermId, TermId),
}

impl Node {
    /// How many parts it has.
    pub fn part_count(&self) -> usize
        ensures { result ≡ length (parts self.now) }
    {
        match self {
            Node::Constant(_) | Node::Input(_, _) => 0,
            Node::Apply(_, args, _) => args.items().len(),
            Node::Not(_) | Node::Slice(_, _, _) => 1,
            Node::Binary(_, _, _) => 2,
            Node::Pick(_, _, _) => 3,
        }
    }

    /// A part by its place, counted from left to right and from 0.
    pub fn part(&self, place: usize) -> TermId
        requires { place < length (parts self.now) }
        ensures { slice_get (parts self.now) place ≡ Some result }
    {
        match self {
            Node::Constant(_) | Node::Input(_, _) => unreachable!(),
            Node::Apply(_, args, _) => args.items()[place],
            Node::Not(a) | Node::Slice(a, _, _) => *a,
            Node::Binary(_, a, b) => [*a, *b][place],
            Node::Pick(c, a, b) => [*c, *a, *b][place],
        }
    }
}
