//! Terms in place of inputs.
ghost use Rattle.std.specs.Prelude.{◌≡◌, ◌<◌, ◌≤◌, ◌+◌, ◌-◌, All, IfOk, Some, length, map, slice_get};
ghost use Rattle.std.specs.List.{AllZip};
ghost use Rattle.bv_terms.specs.declared.node.Node.{Node as NodeOf};
ghost use Rattle.bv_terms.specs.Arenas.{GrowsBy, KeepsTerms, inputs_in, term_at};
ghost use Rattle.bv_terms.specs.Replacements.{HasWidthOf, beside, replaced};
ghost use Rattle.bv_terms.specs.Rebuilt.{AreReplacedFrom, CanRebuild, IsRebuilt, IsTable, StandsFrom, in_place_of, name_in, with_parts};

use crate::arena::Terms;
use crate::node::{InputId, Node, TermId};
use crate::term_map::TermMap;
use cocoon_num::{List, NoMemory};
use std::alloc::Global;
use std::collections::BTreeMap;

/// The number that stands in the place of a part.
fn renamed(ids: &TermMap<TermId>, part: TermId) -> TermId
    ensures { result ≡ name_in ids.now part }
{
    ids.get(part).unwrap_or(part)
}

fn all_renamed(
    alloc: Global,
    ids: &TermMap<TermId>,
    parts: &[TermId],
) -> Result<Vec<TermId>, NoMemory>
    ensures { IfOk result (λ others. others.items ≡ map (name_in ids.now) parts.now) }
{
    let mut others = Vec::with_capacity(alloc, parts.len())?;
    for part in parts {
        others.push(renamed(ids, *part))?;
    }
    Ok(others)
}

/// The node with other parts, each in the place of an old one. One that has no other stays.
pub fn with_parts(alloc: Global, ids: &TermMap<TermId>, node: &Node) -> Result<Node, NoMemory>
    ensures { IfOk result (λ other. other ≡ with_parts (name_in ids.now) node.now) }
{
    Ok(match node {
        Node::Constant(value) => Node::Constant(*value),
        Node::Input(input, width) => Node::Input(*input, *width),
        Node::Apply(function, args, width) => {
            let args = List::from(all_renamed(alloc, ids, args.items())?);
            Node::Apply(*function, args, *width)
        }
        Node::Not(a) => Node::Not(renamed(ids, *a)),
        Node::Binary(op, a, b) => Node::Binary(*op, renamed(ids, *a), renamed(ids, *b)),
        Node::Slice(a, high, low) => Node::Slice(renamed(ids, *a), *high, *low),
        Node::Pick(c, a, b) => Node::Pick(renamed(ids, *c), renamed(ids, *a), renamed(ids, *b)),
    })
}

/// The term for an input, if there is one, else its own.
fn in_place_of(table: &BTreeMap<InputId, TermId>, input: InputId, own: TermId) -> TermId
    ensures { result ≡ in_place_of table.now input own }
{
    table.get(&input).copied().unwrap_or(own)
}

/// For each input the first term that stands beside it.
fn replacements(
    alloc: Global,
    from: &[InputId],
    to: &[TermId],
) -> Result<BTreeMap<InputId, TermId>, NoMemory>
    requires { length from.now ≡ length to.now }
    ensures { IfOk result (λ table. IsTable from.now to.now table) }
{
    let mut table = BTreeMap::new(alloc);
    let mut at = from.len();
    while at > 0 {
        at -= 1;
        table.insert(from[at], to[at])?;
    }
    Ok(table)
}

impl Terms {
    /// What a term becomes whose parts have become these.
    fn rebuild(
        &mut self,
        alloc: Global,
        table: &BTreeMap<InputId, TermId>,
        ids: &TermMap<TermId>,
        own: TermId,
    ) -> Result<TermId, NoMemory>
        requires there { own < length self.old }
        requires can { (node : NodeOf) → slice_get self.old own ≡ Some node
            → CanRebuild self.old (name_in ids.now) node }
        ensures rebuilt { IfOk result (λ id. (node : NodeOf) → slice_get self.old own ≡ Some node
            → IsRebuilt self.old self.new table.now (name_in ids.now) own node id) }
        ensures kept { KeepsTerms self.old self.new }
        ensures few { GrowsBy 1 self.old self.new }
    {
        if let Node::Input(input, _) = self.node(own) {
            return Ok(in_place_of(table, *input, own));
        }
        let node = with_parts(alloc, ids, self.node(own))?;
        self.put(node, self.width(own))
    }

    /// The term in which each of these inputs is replaced by the term beside it. At most as many terms are put in as stand up
    /// to this one, and none is an input.
    pub fn substitute(
        &mut self,
        alloc: Global,
        id: TermId,
        from: &[InputId],
        to: &[TermId],
    ) -> Result<TermId, NoMemory>
        requires there { id < length self.old }
        requires inputs { All (λ i. i < inputs_in self.old) from.now }
        requires terms { All (λ t. t < length self.old) to.now }
        requires widths { AllZip (HasWidthOf self.old) from.now to.now }
        ensures there { IfOk result (λ new. new < length self.new) }
        ensures term { IfOk result (λ new. term_at self.new new
            ≡ replaced (beside from.now (map (term_at self.old) to.now)) (term_at self.old id)) }
        ensures kept { KeepsTerms self.old self.new }
        ensures few { GrowsBy (id + 1) self.old self.new }
    {
        let needed = self.needed(alloc, id)?;
        let table = replacements(alloc, from, to)?;
        let mut ids = TermMap::over(alloc, &needed)?;
        let mut at = needed.len();
        while at > 0 {
            at -= 1;
            let next = self.rebuild(alloc, &table, &ids, needed[at])?;
            ids.set(needed[at], next)?;
        }
        Ok(renamed(&ids, id))
    }

    /// The terms from a number on, in which each of these inputs is replaced by the term beside it, in their order. An input
    /// stands from that number on too.
    pub fn substitute_from(
        &mut self,
        alloc: Global,
        first: TermId,
        from: &[InputId],
        to: &[TermId],
    ) -> Result<Vec<TermId>, NoMemory>
        requires inputs { All (StandsFrom self.old first) from.now }
        requires terms { All (λ t. t < length self.old) to.now }
        requires widths { AllZip (HasWidthOf self.old) from.now to.now }
        ensures terms { IfOk result (λ ids. AreReplacedFrom self.old self.new
            (beside from.now (map (term_at self.old) to.now)) first ids.items) }
        ensures kept { KeepsTerms self.old self.new }
        ensures few { GrowsBy (length self.old - first) self.old self.new }
    {
        let last = self.count();
        let table = replacements(alloc, from, to)?;
        let mut ids = TermMap::new(alloc, first, last.saturating_sub(first) as usize)?;
        let mut all = Vec::new(alloc);
        for own in first..last {
            let next = self.rebuild(alloc, &table, &ids, own)?;
            ids.set(own, next)?;
            all.push(next)?;
        }
        Ok(all)
    }
}
