//! Which parts of a goal are true of an assignment.
ghost use Rattle.rounds.specs.Short.{IsReadable};

use crate::goal_parts::operands;
use bv_terms::{Env, Node, TermId, TermOp, Terms};
use cocoon_num::{Bits, NoMemory};
use std::alloc::Global;
use std::collections::{BTreeMap, BTreeSet};

/// The value of a term, which is evaluated once.
fn value(
    alloc: Global,
    terms: &Terms,
    id: TermId,
    env: &Env,
    values: &mut BTreeMap<TermId, Bits>,
) -> Result<Bits, NoMemory>
    requires { IsReadable env.now terms.now id }
{
    if let Some(value) = values.get(&id) {
        return Ok(*value);
    }
    let value = terms.eval(alloc, id, env)?;
    values.insert(id, value)?;
    Ok(value)
}

/// Whether a test is true; of a comparison, whether both values are equal.
#[tactic(auto, using(crate::proofs::Reading::first_readable, crate::proofs::Reading::second_readable))]
fn is_true(
    alloc: Global,
    terms: &Terms,
    test: TermId,
    env: &Env,
    values: &mut BTreeMap<TermId, Bits>,
) -> Result<bool, NoMemory>
    requires { IsReadable env.now terms.now test }
{
    match terms.node(test) {
        Node::Binary(TermOp::Equal, a, b) => {
            let first = value(alloc, terms, *a, env, values)?;
            Ok(first == value(alloc, terms, *b, env, values)?)
        }
        _ => Ok(value(alloc, terms, test, env, values)?.value == 1),
    }
}

/// Whether all operands of a chain are true.
#[tactic(auto, using(crate::proofs::Reading::first_readable, crate::proofs::Reading::second_readable))]
fn are_true(
    alloc: Global,
    terms: &Terms,
    chain: TermId,
    env: &Env,
    values: &mut BTreeMap<TermId, Bits>,
) -> Result<bool, NoMemory>
    requires { IsReadable env.now terms.now chain }
{
    let mut rest = chain;
    for _ in 0..chain {
        let Some((before, last)) = operands(terms, rest) else {
            break;
        };
        if !is_true(alloc, terms, last, env, values)? {
            return Ok(false);
        }
        rest = before;
    }
    is_true(alloc, terms, rest, env, values)
}

/// Whether a part of a goal is true. Most parts say of two applications that of equal arguments come
/// equal results, and their operands are those of others, too.
#[tactic(auto, using(crate::proofs::Reading::first_readable, crate::proofs::Reading::second_readable, crate::proofs::Reading::only_readable,))]
fn holds(
    alloc: Global,
    terms: &Terms,
    part: TermId,
    env: &Env,
    values: &mut BTreeMap<TermId, Bits>,
) -> Result<bool, NoMemory>
    requires { IsReadable env.now terms.now part }
{
    if let Node::Binary(TermOp::Or, differ, agree) = terms.node(part) {
        if let Node::Not(equal) = terms.node(*differ) {
            return Ok(
                !are_true(alloc, terms, *equal, env, values)?
                    || is_true(alloc, terms, *agree, env, values)?,
            );
        }
    }
    is_true(alloc, terms, part, env, values)
}

/// Takes a part out of those that are left out, if it is one of them and false, and returns whether it
/// did.
fn put_back(
    alloc: Global,
    terms: &Terms,
    part: TermId,
    env: &Env,
    values: &mut BTreeMap<TermId, Bits>,
    left_out: &mut BTreeSet<TermId>,
) -> Result<bool, NoMemory>
    requires { IsReadable env.now terms.now part }
{
    if !left_out.contains(&part) || holds(alloc, terms, part, env, values)? {
        return Ok(false);
    }
    Ok(left_out.remove(&part))
}

/// Takes the parts of a goal that are false out of those that are left out, and returns whether there
/// are such.
#[tactic(auto, using(crate::proofs::Reading::first_readable, crate::proofs::Reading::second_readable))]
pub(crate) fn put_back_false(
    alloc: Global,
    terms: &Terms,
    goal: TermId,
    env: &Env,
    left_out: &mut BTreeSet<TermId>,
) -> Result<bool, NoMemory>
    requires { IsReadable env.now terms.now goal }
{
    let mut values = BTreeMap::new(alloc);
    let mut is_more = false;
    let mut rest = goal;
    for _ in 0..goal {
        let Some((before, last)) = operands(terms, rest) else {
            break;
        };
        is_more |= put_back(alloc, terms, last, env, &mut values, left_out)?;
        rest = before;
    }
    Ok(put_back(alloc, terms, rest, env, &mut values, left_out)? || is_more)
}
