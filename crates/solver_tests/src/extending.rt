//! Assignments that are extended from the inputs along the clauses.
ghost use Rattle.std.specs.Prelude.{◌≡◌, length};
ghost use Rattle.bv_terms.specs.Arenas.{inputs_in};

use crate::building::{binary, blasted, read};
use crate::drafts::Draft;
use crate::evaluating::evaluated;
use crate::known::Known;
use bit_blast::InputMap;
use bv_terms::{TermId, TermOp};
use cnf_core::{Assignment, satisfies};
use cocoon_num::Bits;
use std::alloc::Global;

/// Whether the inputs are read back as the numbers that they are given.
fn reads_back(map: &InputMap, assignment: &Assignment, draft: &Draft) -> bool
    requires { length map.now ≡ inputs_in draft.now.terms }
{
    let mut at: u32 = 0;
    for input in &draft.inputs {
        if read(map, assignment, &draft.terms, at) != Some(*input) {
            return false;
        }
        at = at.saturating_add(1);
    }
    true
}

/// Whether the clauses of a goal hold where its inputs have the numbers that they are given. The walk has to meet the inputs in
/// the order of the words. There is no answer where the term is no goal, or where an input is not read back.
pub(crate) fn holds(alloc: Global, draft: &Draft, goal: TermId) -> Option<bool> {
    let (cnf, map) = blasted(alloc, &draft.terms, goal)?;
    let mut known = Known::new(alloc, cnf.vars)?;
    known.set_inputs(&draft.inputs);
    known.extend(&cnf);
    let assignment = known.assignment(alloc)?;
    if assignment.values.items().len() != cnf.vars as usize {
        return None;
    }
    if reads_back(&map, &assignment, draft) {
        Some(satisfies(&cnf, &assignment))
    } else {
        None
    }
}

/// Whether the clauses of "the term of these words is this number" hold.
fn can_be(alloc: Global, words: &str, blank: Bits, number: Bits) -> Option<bool> {
    let (mut draft, term) = Draft::read(alloc, words, Some(blank))?;
    let constant = draft.terms.constant(number).ok()?;
    let goal = binary(&mut draft.terms, TermOp::Equal, term, constant)?;
    holds(alloc, &draft, goal)
}

/// The value of the term of these words.
fn value(alloc: Global, words: &str, blank: Bits) -> Option<Bits> {
    let (draft, term) = Draft::read(alloc, words, Some(blank))?;
    evaluated(alloc, &draft, term)
}

/// Whether the term of these words is this number, by its value and by its clauses, and by these not the one with another bit 0.
pub(crate) fn is_number(alloc: Global, words: &str, blank: Bits, number: Bits) -> bool {
    let other = number.xor(Bits::new(128, 1).slice(number.width - 1, 0));
    value(alloc, words, blank) == Some(number)
        && can_be(alloc, words, blank, number) == Some(true)
        && can_be(alloc, words, blank, other) == Some(false)
}
