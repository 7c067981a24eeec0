//! Old terms with others in place of their inputs.
ghost use Rattle.std.specs.Prelude.{◌≡◌, ◌<◌, IfOk, length, OnOk};
ghost use Rattle.bv_terms.specs.Arenas.{term_at, width_at};
ghost use Rattle.bv_terms.specs.Replacements as formulas;
ghost use Rattle.bv_terms.specs.Replacements.{replaced};
ghost use Rattle.bv_terms.specs.TermTrees.{binary, width};
ghost use Rattle.bv_terms.specs.declared.node.TermOp.TheVariants as op;
ghost use Rattle.expr_terms.specs.Variables.{AreThere, Keeps, Makes, terms_at};
ghost use Rattle.obligation_laws.specs.FormulaForms.{SameWidths};
ghost use Rattle.obligation_laws.specs.Formulas.{chain, equals};
ghost use Rattle.obligation_laws.specs.Leaves as laws;
ghost use Rattle.obligation_laws.specs.Leaves.{end_fields, end_values};
ghost use Rattle.obligation_gen.specs.Becoming.{Knows};
ghost use Rattle.obligation_gen.specs.Replacing.{CanJoin, Ready, StandFor, replacing_in};

use crate::known::Known;
use crate::standing::{fields, values};
use crate::tree::Leaf;
use bv_terms::{InputId, TermId, TermOp, Terms};
use cocoon_num::NoMemory;
use std::alloc::Global;

/// Inputs, with the terms that stand for them.
#[derive(Drop)]
pub(crate) struct Replacing {
    pub(crate) inputs: Vec<InputId>,
    pub(crate) terms: Vec<TermId>,
}

impl Replacing {
    /// An old term, with its inputs replaced, equals one that is sent.
    fn equal(
        &self,
        alloc: Global,
        known: &mut Known,
        old: TermId,
        sent: TermId,
        terms: &mut Terms,
    ) -> Result<TermId, NoMemory>
        requires there { (old < length terms.old) × (sent < length terms.old) }
        requires stand { StandFor terms.old self.now }
        requires knows { Knows terms.old (replacing_in terms.old self.now) known.old }
        requires widths { width (replaced (replacing_in terms.old self.now) (term_at terms.old old))
            ≡ width_at terms.old sent }
        ensures made { IfOk result (λ id. Makes terms.new id (binary op.Equal
            (replaced (replacing_in terms.old self.now) (term_at terms.old old))
            (term_at terms.old sent))) }
        ensures knows { OnOk result
            (Knows terms.new (replacing_in terms.old self.now) known.new) }
        ensures kept { Keeps terms.old terms.new }
    {
        let old = known.replaced(alloc, self, old, terms)?;
        terms.binary(TermOp::Equal, old, sent)
    }

    /// A condition, and that old terms, with their inputs replaced, equal those that are sent.
    pub(crate) fn and_equal(
        &self,
        alloc: Global,
        known: &mut Known,
        condition: TermId,
        old: &[TermId],
        sent: &[TermId],
        terms: &mut Terms,
    ) -> Result<TermId, NoMemory>
        requires condition { condition < length terms.old }
        requires truth { width_at terms.old condition ≡ 1 }
        requires there { AreThere terms.old old.now × AreThere terms.old sent.now }
        requires stand { StandFor terms.old self.now }
        requires knows { Knows terms.old (replacing_in terms.old self.now) known.old }
        requires widths { SameWidths (replacing_in terms.old self.now) (terms_at terms.old old.now)
            (terms_at terms.old sent.now) }
        ensures made { IfOk result (λ id. Makes terms.new id (chain op.And
            (term_at terms.old condition) (equals (replacing_in terms.old self.now)
            (terms_at terms.old old.now) (terms_at terms.old sent.now)))) }
        ensures knows { OnOk result
            (Knows terms.new (replacing_in terms.old self.now) known.new) }
        ensures kept { Keeps terms.old terms.new }
    {
        let mut all = condition;
        for at in 0..old.len() {
            let equal = self.equal(alloc, known, old[at], sent[at], terms)?;
            all = terms.binary(TermOp::And, all, equal)?;
        }
        Ok(all)
    }

    /// An old leaf is true, and sends what the leaf sends.
    pub(crate) fn part(
        &self,
        alloc: Global,
        known: &mut Known,
        old: &Leaf,
        leaf: &Leaf,
        terms: &mut Terms,
    ) -> Result<TermId, NoMemory>
        requires can { CanJoin terms.old self.now old.now leaf.now }
        requires knows { Knows terms.old (replacing_in terms.old self.now) known.old }
        ensures made { (by_them : formulas.Replacing) (old_of leaf_of : laws.Leaf)
            → Ready terms.old self.now old.now leaf.now by_them old_of leaf_of
            → IfOk result (λ id. Makes terms.new id (chain op.And
            (chain op.And (replaced by_them old_of.cond)
            (equals by_them (end_values old_of.end) (end_values leaf_of.end)))
            (equals by_them (end_fields old_of.end) (end_fields leaf_of.end)))) }
        ensures knows { OnOk result
            (Knows terms.new (replacing_in terms.old self.now) known.new) }
        ensures kept { Keeps terms.old terms.new }
    {
        let condition = known.replaced(alloc, self, old.cond, terms)?;
        let (from, to) = (values(&old.end), values(&leaf.end));
        let with_values = self.and_equal(alloc, known, condition, from, to, terms)?;
        let (from, to) = (fields(&old.end), fields(&leaf.end));
        self.and_equal(alloc, known, with_values, from, to, terms)
    }
}
