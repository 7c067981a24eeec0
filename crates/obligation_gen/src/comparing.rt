//! A leaf, compared with the leaves of an old tree.
ghost use Rattle.std.specs.Prelude.{◌≡◌, IfOk, IfSome, OnOk, option_map};
ghost use Rattle.cocoon_num.specs.Tree.{Design};
ghost use Rattle.bv_terms.specs.Arenas.{term_at};
ghost use Rattle.expr_terms.specs.Variables.{Keeps, Makes};
ghost use Rattle.obligation_laws.specs.Leaves as laws;
ghost use Rattle.obligation_laws.specs.Formulas as formulas;
ghost use Rattle.obligation_gen.specs.Becoming.{Remembers};
ghost use Rattle.obligation_gen.specs.Compared.{AreCompared, ArePaired, Compared, IsTruth, Paired};
ghost use Rattle.obligation_gen.specs.Parts.{either};
ghost use Rattle.obligation_gen.specs.Replacing.{Ready};
ghost use Rattle.obligation_gen.specs.Sent.{role_in};

use crate::last::Last;
use crate::replacing::Replacing;
use crate::standing::{leaf_inputs, stand_ins};
use crate::tree::{End, Leaf, Tree};
use bv_terms::{TermId, TermOp, Terms};
use cocoon_num::{Bits, NoMemory};
use declarations::RoleId;
use std::alloc::Global;

/// The role that is sent to.
fn role(end: &End) -> RoleId
    ensures { result ≡ role_in end.now }
{
    match end {
        End::Sent(role, _, _) => *role,
        End::Inside(role, _, _) => *role,
    }
}

/// What stands for the inputs of an old leaf.
fn replacing(
    alloc: Global,
    old_tree: &Tree,
    old: &Leaf,
    tree: &Tree,
    leaf: &Leaf,
    terms: &mut Terms,
) -> Result<Replacing, NoMemory>
    requires { Paired terms.old old_tree.now old.now tree.now leaf.now }
    ensures made { (d : Design) (old_tree_of of : laws.Tree) (old_of leaf_of : laws.Leaf)
        → ArePaired d terms.old old_tree.now old.now tree.now leaf.now old_tree_of old_of of leaf_of
        → IfOk result (λ r. Ready terms.new r old.now leaf.now
        (formulas.replacing old_tree_of old_of of leaf_of) old_of leaf_of) }
    ensures kept { Keeps terms.old terms.new }
{
    let _count = terms.count();
    let inputs = leaf_inputs(alloc, old_tree, old)?;
    let stand_ins = stand_ins(alloc, old, tree, leaf, terms)?;
    Ok(Replacing {
        inputs,
        terms: stand_ins,
    })
}

/// An old leaf is true, and sends what the leaf sends.
fn part(
    alloc: Global,
    old_tree: &Tree,
    old: &Leaf,
    tree: &Tree,
    leaf: &Leaf,
    last: &mut Last,
    terms: &mut Terms,
) -> Result<TermId, NoMemory>
    requires paired { Paired terms.old old_tree.now old.now tree.now leaf.now }
    requires remembers { Remembers terms.old last.old }
    ensures made { (d : Design) (old_tree_of of : laws.Tree) (old_of leaf_of : laws.Leaf)
        → ArePaired d terms.old old_tree.now old.now tree.now leaf.now old_tree_of old_of of leaf_of
        → IfOk result (λ id. Makes terms.new id
        (formulas.part old_tree_of old_of of leaf_of)) }
    ensures truth { IfOk result (IsTruth terms.new) }
    ensures remembers { OnOk result (Remembers terms.new last.new) }
    ensures kept { Keeps terms.old terms.new }
{
    let replacing = replacing(alloc, old_tree, old, tree, leaf, terms)?;
    last.go_on(alloc, replacing)?;
    last.by.part(alloc, &mut last.known, old, leaf, terms)
}

/// One of some parts is true.
fn either(any: Option<TermId>, part: TermId, terms: &mut Terms) -> Result<TermId, NoMemory>
    requires any { IfSome any (IsTruth terms.old) }
    requires part { IsTruth terms.old part }
    ensures made { IfOk result (λ id. Makes terms.new id
        (either (option_map (term_at terms.old) any) (term_at terms.old part))) }
    ensures truth { IfOk result (IsTruth terms.new) }
    ensures kept { Keeps terms.old terms.new }
{
    match any {
        Some(any) => terms.binary(TermOp::Or, any, part),
        None => Ok(part),
    }
}

/// One of the parts of the old leaves that send to the same role is true.
fn any_part(
    alloc: Global,
    old_tree: &Tree,
    tree: &Tree,
    leaf: &Leaf,
    terms: &mut Terms,
) -> Result<TermId, NoMemory>
    requires { Compared terms.old old_tree.now tree.now leaf.now }
    ensures made { (d : Design) (old_of of : laws.Tree) (leaf_of : laws.Leaf)
        → AreCompared d terms.old old_tree.now tree.now leaf.now old_of of leaf_of
        → IfOk result (λ id. Makes terms.new id
        (formulas.any_of (formulas.parts old_of of leaf_of))) }
    ensures truth { IfOk result (IsTruth terms.new) }
    ensures kept { Keeps terms.old terms.new }
{
    let mut any = None;
    let mut last = Last::new(alloc)?;
    for old in old_tree.leaves.items() {
        if role(&old.end) == role(&leaf.end) {
            let part = part(alloc, old_tree, old, tree, leaf, &mut last, terms)?;
            any = Some(either(any, part, terms)?);
        }
    }
    match any {
        Some(any) => Ok(any),
        None => terms.constant(Bits::new(1, 0)),
    }
}

/// The term that is true where a leaf of a tree fails beside an old tree. Old leaves that send to
/// the same role are rebuilt with all that they are made of, each term once as long as the same
/// stands for the inputs of these leaves. Time and memory are in proportion to this, and to what the
/// leaves send.
pub fn formula(
    alloc: Global,
    old_tree: &Tree,
    tree: &Tree,
    leaf: &Leaf,
    terms: &mut Terms,
) -> Result<TermId, NoMemory>
    requires { Compared terms.old old_tree.now tree.now leaf.now }
    ensures made { (d : Design) (old_of of : laws.Tree) (leaf_of : laws.Leaf)
        → AreCompared d terms.old old_tree.now tree.now leaf.now old_of of leaf_of
        → IfOk result (λ id. Makes terms.new id (formulas.formula old_of of leaf_of)) }
    ensures kept { Keeps terms.old terms.new }
{
    match &leaf.end {
        End::Sent(_, _, _) => {
            let any = any_part(alloc, old_tree, tree, leaf, terms)?;
            let none = terms.not(any)?;
            terms.binary(TermOp::And, leaf.cond, none)
        }
        End::Inside(_, _, _) => Ok(leaf.cond),
    }
}
