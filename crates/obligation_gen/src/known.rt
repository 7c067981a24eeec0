//! What old terms become, each once.
ghost use Rattle.std.specs.Prelude.{◌≡◌, ◌<◌, IfOk, IfSome, List, None, OnOk, Some, length, slice_get};
ghost use Rattle.bv_terms.specs.declared.node.Node.{Node as NodeOf};
ghost use Rattle.bv_terms.specs.Arenas.{term_at};
ghost use Rattle.bv_terms.specs.Rebuilt.{IsReplaced};
ghost use Rattle.bv_terms.specs.Replacements as formulas;
ghost use Rattle.bv_terms.specs.Replacements.{replaced};
ghost use Rattle.expr_terms.specs.Variables.{Keeps, Makes};
ghost use Rattle.obligation_gen.specs.Becoming.{AreKnown, Knows};
ghost use Rattle.obligation_gen.specs.Replacing.{StandFor, replacing_in};

use crate::replacing::Replacing;
use crate::standing::sent_at;
use bv_terms::{Node, TermId, TermMap, Terms, with_parts};
use cocoon_num::NoMemory;
use std::alloc::Global;

/// What old terms have become, with others in place of their inputs.
#[derive(Drop)]
pub(crate) struct Known {
    ids: TermMap<TermId>,
}

impl Known {
    /// No term has become another one.
    pub(crate) fn new(alloc: Global) -> Result<Known, NoMemory>
        ensures { (nodes : List NodeOf) (by_them : formulas.Replacing)
            → IfOk result (λ known. Knows nodes by_them known) }
    {
        Ok(Known {
            ids: TermMap::new(alloc, 0, 0)?,
        })
    }

    /// The first part of a term that is not known.
    fn unknown_part(&self, own: TermId, terms: &Terms) -> Option<TermId>
        requires { own < length terms.now }
        ensures part { IfSome result (λ p. p < own) }
        ensures none { result ≡ None → (node : NodeOf) → slice_get terms.now own ≡ Some node
            → AreKnown self.now node }
    {
        let node = terms.node(own);
        for place in 0..node.part_count() {
            let part = node.part(place);
            if self.ids.get(part).is_none() {
                return Some(part);
            }
        }
        None
    }

    /// What a term becomes whose parts are known.
    fn other(
        &self,
        alloc: Global,
        by: &Replacing,
        own: TermId,
        terms: &mut Terms,
    ) -> Result<TermId, NoMemory>
        requires there { own < length terms.old }
        requires stand { StandFor terms.old by.now }
        requires knows { Knows terms.old (replacing_in terms.old by.now) self.now }
        requires parts { (node : NodeOf) → slice_get terms.old own ≡ Some node
            → AreKnown self.now node }
        ensures becomes { IfOk result (λ id.
            IsReplaced terms.new terms.new (replacing_in terms.old by.now) own id) }
        ensures kept { Keeps terms.old terms.new }
    {
        if let Node::Input(input, _) = terms.node(own) {
            return Ok(sent_at(*input, &by.inputs, &by.terms).unwrap_or(own));
        }
        let node = with_parts(alloc, &self.ids, terms.node(own))?;
        terms.put(node, terms.width(own))
    }

    /// An old term, with its inputs replaced. Of what it is made of, each term that is not known yet
    /// is gone through once.
    pub(crate) fn replaced(
        &mut self,
        alloc: Global,
        by: &Replacing,
        old: TermId,
        terms: &mut Terms,
    ) -> Result<TermId, NoMemory>
        requires there { old < length terms.old }
        requires stand { StandFor terms.old by.now }
        requires knows { Knows terms.old (replacing_in terms.old by.now) self.old }
        ensures made { IfOk result (λ id. Makes terms.new id
            (replaced (replacing_in terms.old by.now) (term_at terms.old old))) }
        ensures knows { OnOk result
            (Knows terms.new (replacing_in terms.old by.now) self.new) }
        ensures kept { Keeps terms.old terms.new }
    {
        let mut waiting = Vec::new(alloc);
        waiting.push(old)?;
        // (in each turn a term comes to wait or becomes known: each of these once for each number up
        // to this one)
        for _ in 0..old.saturating_mul(2).saturating_add(2) {
            let Some(own) = waiting.pop() else {
                return Err(NoMemory);
            };
            if let Some(part) = self.unknown_part(own, terms) {
                waiting.push(own)?;
                waiting.push(part)?;
            } else {
                let id = self.other(alloc, by, own, terms)?;
                self.ids.set(own, id)?;
                if own == old {
                    return Ok(id);
                }
            }
        }
        Err(NoMemory)
    }
}
