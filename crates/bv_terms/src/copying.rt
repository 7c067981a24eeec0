//! Copies of terms.
ghost use Rattle.std.specs.Prelude.{◌≡◌, ◌<◌, ◌≤◌, ◌+◌, ◌++◌, IfOk, OnOk, Some, length};
ghost use Rattle.bv_terms.specs.Arenas.{IsPut, KeepsTerms, inputs_in, term_at};
ghost use Rattle.bv_terms.specs.Inputs.{AreApart, renamed};
ghost use Rattle.bv_terms.specs.Rebuilt.{name_in};
ghost use Rattle.bv_terms.specs.Copies.{AreInputs, new_name};
ghost use Rattle.bv_terms.specs.Copying.{CanCopy, copied_node, input_of};

use crate::arena::Terms;
use crate::node::{InputId, Node, TermId};
use crate::substitute::with_parts;
use crate::term_map::TermMap;
use cocoon_num::{List, NoMemory};
use std::alloc::Global;

/// The copy of a term.
#[derive(Drop)]
pub struct Copied {
    pub term: TermId,
    /// The inputs of the given term, in ascending order. Their copies are new inputs, in the same order.
    pub inputs: List<InputId>,
}

/// The copy of a node of this width, whose parts have these copies. An input is listed.
fn copy_node(
    alloc: Global,
    to: &mut Terms,
    ids: &TermMap<TermId>,
    inputs: &mut Vec<InputId>,
    node: &Node,
    width: u8,
) -> Result<TermId, NoMemory>
    requires { CanCopy to.old (name_in ids.now) node.now width }
    ensures put { IfOk result (λ id.
        IsPut to.old to.new (copied_node (inputs_in to.old) (name_in ids.now) node.now) id) }
    ensures listed { OnOk result
        (inputs.new.items ≡ inputs.old.items ++ input_of (Some node.now)) }
    ensures more { OnOk result
        (inputs_in to.new ≡ inputs_in to.old + length (input_of (Some node.now))) }
    ensures kept { KeepsTerms to.old to.new }
    ensures few { length to.new ≤ length to.old + 1 }
{
    if let Node::Input(input, width) = node {
        inputs.push(*input)?;
        return to.input(*width);
    }
    let node = with_parts(alloc, ids, node)?;
    to.put(node, width)
}

/// A copy of a term of one arena in another one, where each of its inputs becomes a new input. At most as many terms are put
/// in as stand up to this one, also without memory, and they stay.
pub fn copy(alloc: Global, from: &Terms, id: TermId, to: &mut Terms) -> Result<Copied, NoMemory>
    requires { id < length from.now }
    ensures there { IfOk result (λ c. c.term < length to.new) }
    ensures term { IfOk result (λ c. term_at to.new c.term
        ≡ renamed (new_name (inputs_in to.old) c.inputs) (term_at from.now id)) }
    ensures inputs { IfOk result (λ c. AreInputs (term_at from.now id) c.inputs) }
    ensures apart { IfOk result (λ c.
        AreApart (new_name (inputs_in to.old) c.inputs) (term_at from.now id)) }
    ensures more { IfOk result (λ c.
        inputs_in to.new ≡ inputs_in to.old + length c.inputs) }
    ensures kept { KeepsTerms to.old to.new }
    ensures few { length to.new ≤ length to.old + (id + 1) }
{
    let needed = from.needed(alloc, id)?;
    let mut inputs = Vec::new(alloc);
    let mut ids = TermMap::over(alloc, &needed)?;
    let mut at = needed.len();
    while at > 0 {
        at -= 1;
        let own = needed[at];
        let (node, width) = (from.node(own), from.width(own));
        let next = copy_node(alloc, to, &ids, &mut inputs, node, width)?;
        ids.set(own, next)?;
    }
    let term = ids.get(id).unwrap_or(id);
    Ok(Copied {
        term,
        inputs: List::from(inputs),
    })
}
