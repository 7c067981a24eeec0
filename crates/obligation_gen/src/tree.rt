//! Trees, and why there is none.
use bv_terms::{InputId, TermId};
use cocoon_num::{List, NoMemory};
use declarations::RoleId;

/// Where a leaf leads: a role, the values of its parameters, and the fields of the packet, header by header.
#[derive(Drop)]
pub enum End {
    /// A role that is not new.
    Sent(RoleId, List<TermId>, List<TermId>),
    /// A new role, after as many bodies as are allowed.
    Inside(RoleId, List<TermId>, List<TermId>),
}

/// What must be true to go one way, which choices are taken on it, in their order, and where it leads.
#[derive(Drop)]
pub struct Leaf {
    pub cond: TermId,
    pub choices: List<InputId>,
    pub end: End,
}

/// The inputs that stand for the parameters of a role and for the fields of a packet, and the leaves. These come depth first, those
/// of the first branch of an `if` before those of the second. What is dropped has no leaf.
#[derive(Drop)]
pub struct Tree {
    pub args: List<InputId>,
    pub fields: List<InputId>,
    pub leaves: List<Leaf>,
}

/// Why there is no tree.
#[derive(Clone, Copy, Drop)]
pub enum InlineFault {
    /// It would have so many leaves, more than 4,096; of 2^64 or more, 2^64 - 1.
    Paths(u64),
    NoMemory,
}

impl From<NoMemory> for InlineFault {
    ghost use Rattle.std.specs.Prelude.{◌≡◌};
    ghost use Rattle.obligation_gen.specs.declared.tree.InlineFault.TheVariants.{NoMemory};

    ghost from_gives = { λ _ f. f ≡ NoMemory };

    fn from(_: NoMemory) -> InlineFault {
        InlineFault::NoMemory
    }
}
