//! Goals that say which values inputs have.
ghost use Rattle.std.specs.Prelude.{◌<◌, IfOk, IfSome, OnOk, length};
ghost use Rattle.bv_terms.specs.Arenas.{IsArena, KeepsTerms};
ghost use Rattle.rounds.specs.Short.{IsInput, IsPart};

use bv_terms::{Node, TermId, TermOp, Terms};
use cocoon_num::{Bits, NoMemory};

/// The value of a term, if it is an input that has one of its width.
fn value_of(terms: &Terms, id: TermId, values: &[Bits]) -> Option<Bits>
    requires { id < length terms.now }
    ensures input { IfSome result (IsInput terms.now id) }
    ensures arena { IsArena terms.now }
{
    let Node::Input(input, width) = terms.node(id) else {
        return None;
    };
    let value = values.get(*input as usize)?;
    if value.width == *width {
        Some(*value)
    } else {
        None
    }
}

/// A goal, and that a term has its value, if it is an input that has one.
fn with_pin(
    terms: &mut Terms,
    id: TermId,
    values: &[Bits],
    goal: TermId,
) -> Result<TermId, NoMemory>
    requires there { id < length terms.old }
    requires goal { IsPart terms.old goal }
    ensures made { IfOk result (λ id. IsPart terms.new id) }
    ensures kept { OnOk result (KeepsTerms terms.old terms.new) }
{
    let Some(value) = value_of(terms, id, values) else {
        return Ok(goal);
    };
    let number = terms.constant(value)?;
    let pin = terms.binary(TermOp::Equal, id, number)?;
    terms.binary(TermOp::And, pin, goal)
}

/// A goal of the arena: the first inputs have these values.
pub(crate) fn pinned(terms: &mut Terms, values: &[Bits]) -> Result<TermId, NoMemory>
    ensures made { IfOk result (λ id. IsPart terms.new id) }
    ensures kept { OnOk result (KeepsTerms terms.old terms.new) }
{
    let mut all = terms.constant(Bits::new(1, 1))?;
    for id in 0..terms.count() {
        all = with_pin(terms, id, values, all)?;
    }
    Ok(all)
}
