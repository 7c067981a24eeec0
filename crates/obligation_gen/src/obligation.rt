//! What a refinement owes.
use crate::tree::Tree;
use bv_terms::TermId;
use declarations::RoleId;

/// What is owed of a leaf.
#[derive(Clone, Copy, Debug, Drop, PartialEq, Eq)]
pub enum Kind {
    /// The body above sends what the leaf sends.
    Contained,
    /// No run comes to the leaf.
    Bounded,
}

/// What is owed of one leaf of a refined role.
#[derive(Drop)]
pub struct Obligation {
    /// The level of the block.
    pub level: u32,
    pub role: RoleId,
    /// The number of the leaf in the role's tree, counted from 0.
    pub leaf: u32,
    pub kind: Kind,
    /// The term that is true where the leaf fails.
    pub formula: TermId,
    /// The parameters and fields of the role's tree; of its leaves this one alone.
    pub tree: Tree,
}
