//! Goals without some of their parts.
ghost use Rattle.std.specs.Prelude.{IfOk, OnOk};
ghost use Rattle.bv_terms.specs.Arenas.{KeepsTerms};
ghost use Rattle.rounds.specs.Short.{IsPart};

use crate::goal_parts::operands;
use bv_terms::{TermId, TermOp, Terms};
use cocoon_num::NoMemory;
use std::collections::BTreeSet;

/// A goal with this part before it, unless it is left out.
fn with_part(
    terms: &mut Terms,
    part: TermId,
    goal: TermId,
    left_out: &BTreeSet<TermId>,
) -> Result<TermId, NoMemory>
    requires part { IsPart terms.old part }
    requires goal { IsPart terms.old goal }
    ensures made { IfOk result (λ id. IsPart terms.new id) }
    ensures kept { OnOk result (KeepsTerms terms.old terms.new) }
{
    if left_out.contains(&part) {
        return Ok(goal);
    }
    terms.binary(TermOp::And, part, goal)
}

/// A goal of the parts of this one that are not left out, and of another. Nothing is said of it but that
/// it is a goal of the arena: what is found with it is tried on the goal itself.
pub(crate) fn shortened(
    terms: &mut Terms,
    goal: TermId,
    left_out: &BTreeSet<TermId>,
    other: TermId,
) -> Result<TermId, NoMemory>
    requires goal { IsPart terms.old goal }
    requires other { IsPart terms.old other }
    ensures made { IfOk result (λ id. IsPart terms.new id) }
    ensures kept { OnOk result (KeepsTerms terms.old terms.new) }
{
    let mut short = other;
    let mut rest = goal;
    for _ in 0..goal {
        let Some((before, last)) = operands(terms, rest) else {
            break;
        };
        short = with_part(terms, last, short, left_out)?;
        rest = before;
    }
    with_part(terms, rest, short, left_out)
}
