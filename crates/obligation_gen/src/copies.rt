//! Copies of what an obligation keeps of a tree.
ghost use Rattle.std.specs.Prelude.{◌≡◌, ◌∷◌, [], IfOk};

use crate::tree::{End, Leaf, Tree};
use cocoon_num::{List, NoMemory};
use std::alloc::Global;

/// Numbers of inputs or of terms.
fn copied(alloc: Global, numbers: &[u32]) -> Result<List<u32>, NoMemory>
    ensures { IfOk result (λ copy. copy ≡ numbers.now) }
{
    Ok(List::from(Vec::from_slice(alloc, numbers)?))
}

fn copied_end(alloc: Global, end: &End) -> Result<End, NoMemory>
    ensures { IfOk result (λ copy. copy ≡ end.now) }
{
    Ok(match end {
        End::Sent(role, values, fields) => {
            let values = copied(alloc, values.items())?;
            End::Sent(*role, values, copied(alloc, fields.items())?)
        }
        End::Inside(role, values, fields) => {
            let values = copied(alloc, values.items())?;
            End::Inside(*role, values, copied(alloc, fields.items())?)
        }
    })
}

fn copied_leaf(alloc: Global, leaf: &Leaf) -> Result<Leaf, NoMemory>
    ensures { IfOk result (λ copy. copy ≡ leaf.now) }
{
    Ok(Leaf {
        cond: leaf.cond,
        choices: copied(alloc, leaf.choices.items())?,
        end: copied_end(alloc, &leaf.end)?,
    })
}

/// The tree with one leaf alone.
pub(crate) fn with_leaf(alloc: Global, tree: &Tree, leaf: &Leaf) -> Result<Tree, NoMemory>
    ensures { IfOk result (λ copy. copy ≡ record {
      args = tree.now.args;
      fields = tree.now.fields;
      leaves = leaf.now ∷ [];
    }) }
{
    let mut leaves = Vec::new(alloc);
    leaves.push(copied_leaf(alloc, leaf)?)?;
    Ok(Tree {
        args: copied(alloc, tree.args.items())?,
        fields: copied(alloc, tree.fields.items())?,
        leaves: List::from(leaves),
    })
}
