//! The parts of a goal, which is a chain of tests that all have to be true.
ghost use Rattle.std.specs.Prelude.{◌≡◌, ◌<◌, IfSome, Some, length, slice_get};
ghost use Rattle.bv_terms.specs.Arenas.{IsArena};

use bv_terms::{Node, TermId, TermOp, Terms};
use cocoon_num::NoMemory;
use std::alloc::Global;
use std::collections::BTreeSet;

/// The operands of a term that says of both that they are true.
pub(crate) fn operands(terms: &Terms, id: TermId) -> Option<(TermId, TermId)>
    requires { id < length terms.now }
    ensures node { IfSome result (λ both.
        slice_get terms.now id ≡ Some (Node.Binary TermOp.And both.0 both.1)) }
    ensures arena { IsArena terms.now }
{
    match terms.node(id) {
        Node::Binary(TermOp::And, before, last) => Some((*before, *last)),
        _ => None,
    }
}

/// Whether two numbers that differ are compared.
#[tactic(auto, using(crate::proofs::Parts::first_there, crate::proofs::Parts::second_there))]
fn are_unequal(terms: &Terms, test: TermId) -> bool
    requires { test < length terms.now }
{
    match terms.node(test) {
        Node::Binary(TermOp::Equal, a, b) => match (terms.node(*a), terms.node(*b)) {
            (Node::Constant(first), Node::Constant(second)) => first.value != second.value,
            _ => false,
        },
        _ => false,
    }
}

/// The same of one of the operands of a chain.
#[tactic(auto, using(crate::proofs::Parts::first_there, crate::proofs::Parts::second_there))]
fn has_unequal(terms: &Terms, chain: TermId) -> bool
    requires { chain < length terms.now }
{
    let mut rest = chain;
    for _ in 0..chain {
        let Some((before, last)) = operands(terms, rest) else {
            break;
        };
        if are_unequal(terms, last) {
            return true;
        }
        rest = before;
    }
    are_unequal(terms, rest)
}

/// Whether a part says of two applications that they agree, of which an argument is another number: it
/// is true then.
#[tactic(auto, using(crate::proofs::Parts::first_there, crate::proofs::Parts::only_there))]
fn is_idle(terms: &Terms, part: TermId) -> bool
    requires { part < length terms.now }
{
    match terms.node(part) {
        Node::Binary(TermOp::Or, differ, _) => match terms.node(*differ) {
            Node::Not(equal) => has_unequal(terms, *equal),
            _ => false,
        },
        _ => false,
    }
}

/// Which parts of a goal are meant.
#[derive(Clone, Copy, Drop, PartialEq)]
pub(crate) enum Which {
    All,
    /// Those of two applications of which an argument is another number.
    Idle,
}

/// Adds a part to some, if it is meant.
fn add(
    terms: &Terms,
    part: TermId,
    which: Which,
    parts: &mut BTreeSet<TermId>,
) -> Result<(), NoMemory>
    requires { part < length terms.now }
{
    if which == Which::All || is_idle(terms, part) {
        parts.insert(part)?;
    }
    Ok(())
}

/// These parts of a goal.
#[tactic(auto, using(crate::proofs::Parts::first_there, crate::proofs::Parts::second_there))]
pub(crate) fn parts_of(
    alloc: Global,
    terms: &Terms,
    goal: TermId,
    which: Which,
) -> Result<BTreeSet<TermId>, NoMemory>
    requires { goal < length terms.now }
{
    let mut parts = BTreeSet::new(alloc);
    let mut rest = goal;
    for _ in 0..goal {
        let Some((before, last)) = operands(terms, rest) else {
            break;
        };
        add(terms, last, which, &mut parts)?;
        rest = before;
    }
    add(terms, rest, which, &mut parts)?;
    Ok(parts)
}
