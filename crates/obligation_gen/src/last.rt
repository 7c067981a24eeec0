//! What old terms became beside the last old leaf.
ghost use Rattle.std.specs.Prelude.{◌≡◌, IfOk, List, OnOk, true};
ghost use Rattle.bv_terms.specs.declared.node.Node.{Node as NodeOf};
ghost use Rattle.expr_terms.specs.Variables.{AreThere};
ghost use Rattle.obligation_gen.specs.Becoming.{Remembers};

use crate::known::Known;
use crate::replacing::Replacing;
use cocoon_num::NoMemory;
use std::alloc::Global;

/// What stood for inputs last, and what old terms became by that.
#[derive(Drop)]
pub(crate) struct Last {
    pub(crate) by: Replacing,
    pub(crate) known: Known,
}

/// The same terms stand for the same inputs.
fn are_same(one: &Replacing, other: &Replacing) -> bool
    ensures { result ≡ true → (one.now.inputs.items ≡ other.now.inputs.items)
        × (one.now.terms.items ≡ other.now.terms.items) }
{
    one.inputs == other.inputs && one.terms == other.terms
}

impl Last {
    /// Nothing stands for an input.
    pub(crate) fn new(alloc: Global) -> Result<Last, NoMemory>
        ensures { (nodes : List NodeOf) → IfOk result (λ last. Remembers nodes last) }
    {
        Ok(Last {
            by: Replacing {
                inputs: Vec::new(alloc),
                terms: Vec::new(alloc),
            },
            known: Known::new(alloc)?,
        })
    }

    /// Goes on with what stands for inputs now. If it is something else, what old terms became is
    /// forgotten.
    pub(crate) fn go_on(&mut self, alloc: Global, by: Replacing) -> Result<(), NoMemory>
        ensures by { OnOk result (self.new.by ≡ by) }
        ensures remembers { (nodes : List NodeOf) → Remembers nodes self.old
            → AreThere nodes by.terms.items → OnOk result (Remembers nodes self.new) }
    {
        if are_same(&self.by, &by) {
            self.by = by;
            return Ok(());
        }
        self.known = Known::new(alloc)?;
        self.by = by;
        Ok(())
    }
}
