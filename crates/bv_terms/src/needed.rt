//! Which terms a term is made of.
ghost use Rattle.std.specs.Prelude.{◌≡◌, ◌<◌, ◌||◌, ℕ, IfOk, OnOk, length};
ghost use Rattle.std.specs.Ordering.{nat_cmp};
ghost use Rattle.std.specs.BTreeSet.{contains};
ghost use Rattle.bv_terms.specs.Arenas.{parts};
ghost use Rattle.bv_terms.specs.Needed.{AreNeeded, is_in};

use crate::arena::Terms;
use crate::node::{Node, TermId};
use cocoon_num::NoMemory;
use std::alloc::Global;
use std::collections::BTreeSet;

/// The parts of a node wait too.
fn await_parts(waiting: &mut BTreeSet<TermId>, node: &Node) -> Result<(), NoMemory>
    ensures { OnOk result ((q : ℕ) → contains nat_cmp waiting.new q
        ≡ (contains nat_cmp waiting.old q || is_in (parts node.now) q)) }
{
    for place in 0..node.part_count() {
        waiting.insert(node.part(place))?;
    }
    Ok(())
}

impl Terms {
    /// The numbers of the terms that a term is made of, itself too, each once and from the largest on.
    pub fn needed(&self, alloc: Global, id: TermId) -> Result<Vec<TermId>, NoMemory>
        requires { id < length self.now }
        ensures { IfOk result (λ ids. AreNeeded self.now id ids.items) }
    {
        let terms = self.count();
        prove!(id < terms);
        let mut ids = Vec::new(alloc);
        let mut waiting = BTreeSet::new(alloc);
        waiting.insert(id)?;
        while let Some(next) = waiting.pop_last() {
            ids.push(next)?;
            await_parts(&mut waiting, self.node(next))?;
        }
        Ok(ids)
    }
}
