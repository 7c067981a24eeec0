//! Equal arguments have equal results.
ghost use Rattle.std.specs.Prelude.{◌≡◌, ◌<◌, [], All, IfOk, fold, length, map};
ghost use Rattle.bv_terms.specs.Arenas.{args_of, term_at, width_at};
ghost use Rattle.bv_terms.specs.TermTrees.{OperandsFit};
ghost use Rattle.bv_terms.specs.TermTrees as trees;
ghost use Rattle.flat_laws.specs.Flat as flat;
ghost use Rattle.bv_terms.specs.Chains.{chain};
ghost use Rattle.bv_terms.specs.Growth.{IsMade, OnlyGrows};
ghost use Rattle.flat_goals.specs.Agreeing.{AreAlike, CanAgree, IsPair, IsThere, agreement_of, agreements_with, all_agreements, at_place};

use crate::applied::Application;
use crate::groups::Groups;
use bv_terms::{TermId, TermOp, Terms};
use cocoon_num::{Bits, NoMemory};
use std::alloc::Global;

/// Two terms under an operator.
fn joined(terms: &mut Terms, op: TermOp, a: TermId, b: TermId) -> Result<TermId, NoMemory>
    requires operands { (a < length terms.old) × (b < length terms.old) }
    requires widths { OperandsFit op (width_at terms.old a) (width_at terms.old b) }
    ensures made { IfOk result (λ id.
        IsMade terms.new (trees.binary op (term_at terms.old a) (term_at terms.old b)) id) }
    ensures grown { OnlyGrows terms.old terms.new }
{
    terms.binary(op, a, b)
}

/// Whether arguments are equal, each to the other one at its place.
fn equal_args(terms: &mut Terms, args: &[TermId], others: &[TermId]) -> Result<TermId, NoMemory>
    requires args { All (λ a. a < length terms.old) args.now }
    requires others { All (λ a. a < length terms.old) others.now }
    requires widths { map (width_at terms.old) args.now ≡ map (width_at terms.old) others.now }
    ensures made { IfOk result (λ id. IsMade terms.new (chain TermOp.And (trees.constant 1 1)
        (flat.equal_args (args_of (term_at terms.old) args.now)
        (args_of (term_at terms.old) others.now))) id) }
    ensures narrow { IfOk result (λ id. width_at terms.new id ≡ 1) }
    ensures grown { OnlyGrows terms.old terms.new }
{
    if args.is_empty() {
        return terms.constant(Bits::new(1, 1));
    }
    let mut all = joined(terms, TermOp::Equal, args[0], others[0])?;
    let mut at = 1;
    while at < args.len() {
        let next = joined(terms, TermOp::Equal, args[at], others[at])?;
        all = joined(terms, TermOp::And, all, next)?;
        at += 1;
    }
    Ok(all)
}

/// Of two applications: some arguments differ, or the results are equal.
fn agreement(
    terms: &mut Terms,
    earlier: &Application,
    later: &Application,
) -> Result<TermId, NoMemory>
    requires earlier { IsThere terms.old earlier.now }
    requires later { IsThere terms.old later.now }
    requires alike { AreAlike (width_at terms.old) earlier.now later.now }
    ensures made { IfOk result (λ id.
        IsMade terms.new (agreement_of (term_at terms.old) earlier.now later.now) id) }
    ensures narrow { IfOk result (λ id. width_at terms.new id ≡ 1) }
    ensures grown { OnlyGrows terms.old terms.new }
{
    let (args, others) = (earlier.applied.args.items(), later.applied.args.items());
    let equal = equal_args(terms, args, others)?;
    let differ = terms.not(equal)?;
    let results = joined(terms, TermOp::Equal, earlier.term, later.term)?;
    joined(terms, TermOp::Or, differ, results)
}

/// The goal, and that an application agrees with each of some earlier ones of its function. They are known by their places.
fn with_agreements(
    terms: &mut Terms,
    goal: TermId,
    taken: &[Application],
    earlier: &[usize],
    later: usize,
) -> Result<TermId, NoMemory>
    requires goal { (goal < length terms.old) × (width_at terms.old goal ≡ 1) }
    requires agree { CanAgree terms.old taken.now }
    requires earlier { All (λ place. IsPair taken.now place later) earlier.now }
    requires later { later < length taken.now }
    ensures made { IfOk result (λ id. IsMade terms.new (fold (trees.binary TermOp.And)
        (term_at terms.old goal) (agreements_with (term_at terms.old)
        (map (at_place taken.now) earlier.now) (at_place taken.now later))) id) }
    ensures grown { OnlyGrows terms.old terms.new }
{
    let mut agreed = goal;
    for place in earlier {
        let next = agreement(terms, &taken[*place], &taken[later])?;
        agreed = joined(terms, TermOp::And, agreed, next)?;
    }
    Ok(agreed)
}

/// The goal, and that any two applications of a function agree.
pub(crate) fn with_all_agreements(
    alloc: Global,
    terms: &mut Terms,
    goal: TermId,
    taken: &[Application],
) -> Result<TermId, NoMemory>
    requires goal { (goal < length terms.old) × (width_at terms.old goal ≡ 1) }
    requires agree { CanAgree terms.old taken.now }
    ensures made { IfOk result (λ id. IsMade terms.new (fold (trees.binary TermOp.And)
        (term_at terms.old goal) (all_agreements (term_at terms.old) [] taken.now)) id) }
    ensures grown { OnlyGrows terms.old terms.new }
{
    let mut all = goal;
    let mut groups = Groups::new(alloc);
    for place in 0..taken.len() {
        let function = taken[place].applied.function;
        all = with_agreements(terms, all, taken, groups.of(function), place)?;
        groups.add(alloc, function, place)?;
    }
    Ok(all)
}
