//! Leaves that are counted before trees are made.
ghost use Rattle.std.specs.Prelude.{◌≡◌, ◌≤◌, ◌-◌, ℕ, IfErr, OnOk};
ghost use Rattle.cocoon_syntax.specs.TreeOf.{design_of, refine_of};
ghost use Rattle.cocoon_types.specs.Design.{last_level};
ghost use Rattle.cocoon_types.specs.Limits.{reported};
ghost use Rattle.obligation_gen.specs.CountedTrees.{TellsCount, most_leaves};
ghost use Rattle.obligation_gen.specs.Counted.{AreFew, TellsFirst, counts_behind, tree_counts};

use crate::counts::{body_leaf_count, leaf_count};
use crate::tree::InlineFault;
use cocoon_resolve::Checked;
use cocoon_syntax::Refine;
use std::alloc::Global;

/// More leaves are a fault.
const MOST_LEAVES: u64 = 4096;

/// Refuses a tree with so many leaves, if they are too many.
fn allow(leaves: u64) -> Result<(), InlineFault>
    ensures few { (count : ℕ) → leaves ≡ reported count → OnOk result (count ≤ most_leaves) }
    ensures told { (count : ℕ) → leaves ≡ reported count → IfErr result (TellsCount count) }
{
    if leaves > MOST_LEAVES {
        return Err(InlineFault::Paths(leaves));
    }
    Ok(())
}

/// Counts the leaves of the two trees of a role of a block: its own, and that of its body above.
fn count_role(
    alloc: Global,
    checked: &Checked,
    level: u32,
    block: &Refine,
    name: &[u8],
) -> Result<(), InlineFault>
    requires level { (1 ≤ level) × (level ≤ last_level (design_of checked.now)) }
    requires bodies { 1 ≤ block.now.within }
    ensures few { OnOk result (AreFew (tree_counts (level - 1) (design_of checked.now)
        (refine_of block.now) name.now)) }
    ensures told { IfErr result (TellsFirst (tree_counts (level - 1) (design_of checked.now)
        (refine_of block.now) name.now)) }
{
    let above = level - 1;
    let own = leaf_count(alloc, checked, above, name, block.within)?;
    allow(own)?;
    let body = body_leaf_count(checked, above, name);
    allow(body)
}

/// Counts the leaves of all trees of the block behind the level before this one, and tells the
/// first count that is too large.
pub(crate) fn count_leaves(alloc: Global, checked: &Checked, level: u32) -> Result<(), InlineFault>
    requires { (1 ≤ level) × (level ≤ last_level (design_of checked.now)) }
    ensures few { OnOk result (AreFew (counts_behind (level - 1) (design_of checked.now))) }
    ensures told { IfErr result (TellsFirst (counts_behind (level - 1) (design_of checked.now))) }
{
    let block = &checked.design().refines[(level - 1) as usize];
    for role in &block.roles {
        count_role(alloc, checked, level, block, role.text.bytes())?;
    }
    Ok(())
}
