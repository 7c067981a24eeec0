//! Values of terms by `eval`.
ghost use Rattle.std.specs.Prelude.{◌<◌, IsTrue, length};
ghost use Rattle.bv_terms.specs.Arenas.{term_at};
ghost use Rattle.bv_terms.specs.Environments.{Covers};
ghost use Rattle.solver_tests.specs.Plain.{CoversNode, HasNumber};

use crate::drafts::Draft;
use bv_terms::{Env, Node, TermId, Terms};
use cocoon_num::{Bits, List};
use std::alloc::Global;

/// Whether there is a number of this index, and it has the width.
fn has_width(numbers: &[Bits], index: u32, width: u8) -> bool
    ensures { IsTrue result → HasNumber numbers.now index width }
{
    if index as usize >= numbers.len() {
        return false;
    }
    numbers[index as usize].width == width
}

/// Whether the environment has the input of a node, if it is one. Functions are not there.
fn covers_node(env: &Env, node: &Node) -> bool
    ensures { IsTrue result → CoversNode env.now node.now }
{
    match node {
        Node::Input(input, width) => has_width(env.inputs.items(), *input, *width),
        Node::Apply(_, _, _) => false,
        _ => true,
    }
}

/// Whether the environment has all inputs of the terms up to this number, and none is an application.
fn covers(terms: &Terms, env: &Env, last: TermId) -> bool
    requires { last < length terms.now }
    ensures { IsTrue result → Covers env.now (term_at terms.now last) }
{
    let mut at: u64 = 0;
    while at <= u64::from(last) {
        if !covers_node(env, terms.node(at as TermId)) {
            return false;
        }
        at += 1;
    }
    true
}

/// The value of a term where its inputs have the numbers that they are given.
pub(crate) fn evaluated(alloc: Global, draft: &Draft, term: TermId) -> Option<Bits> {
    let env = Env {
        inputs: List::from(Vec::from_slice(alloc, &draft.inputs).ok()?),
        tables: List::from(Vec::new(alloc)),
    };
    if term >= draft.terms.count() {
        return None;
    }
    if covers(&draft.terms, &env, term) {
        draft.terms.eval(alloc, term, &env).ok()
    } else {
        None
    }
}
