//! Terms, made by calls whose conditions are tried first.
ghost use Rattle.std.specs.Prelude.{◌≡◌, ◌<◌, ◌≤◌, All, IfSome, IsFalse, IsTrue, length};
ghost use Rattle.bv_terms.specs.Arenas.{inputs_in, term_at, width_at};
ghost use Rattle.bv_terms.specs.TermTrees.{OperandsFit};
ghost use Rattle.solver_tests.specs.Plain.{CanBeGoal, NotApplied};
ghost use Rattle.bit_blast.specs.Goals.{IsUnapplied};
ghost use Rattle.cnf_core.specs.Satisfying.{WellNamed};

use bit_blast::{InputMap, blast};
use bv_terms::{Node, TermId, TermOp, Terms};
use cnf_core::{Assignment, Cnf};
use cocoon_num::Bits;
use std::alloc::Global;

/// A number of a width, if it fits.
pub(crate) fn bits(width: u8, value: u128) -> Option<Bits> {
    if width < 1 || width > 128 {
        return None;
    }
    let number = Bits::new(128, value).slice(width - 1, 0);
    if number.value == value {
        Some(number)
    } else {
        None
    }
}

/// Whether an operator has a value at operands of these widths.
fn fits(op: TermOp, first: u8, second: u8) -> bool
    ensures { IsTrue result → OperandsFit op first second }
{
    match op {
        TermOp::Concat => u32::from(first) + u32::from(second) <= 128,
        _ => first == second,
    }
}

pub(crate) fn input(terms: &mut Terms, width: u8) -> Option<TermId> {
    if width < 1 || width > 128 {
        return None;
    }
    terms.input(width).ok()
}

pub(crate) fn binary(terms: &mut Terms, op: TermOp, a: TermId, b: TermId) -> Option<TermId> {
    if a >= terms.count() || b >= terms.count() {
        return None;
    }
    if !fits(op, terms.width(a), terms.width(b)) {
        return None;
    }
    terms.binary(op, a, b).ok()
}

pub(crate) fn not(terms: &mut Terms, a: TermId) -> Option<TermId> {
    if a >= terms.count() {
        return None;
    }
    terms.not(a).ok()
}

/// The bits of a term from `high` down to `low`.
pub(crate) fn slice(terms: &mut Terms, a: TermId, high: u8, low: u8) -> Option<TermId> {
    if a >= terms.count() {
        return None;
    }
    if low > high || high >= terms.width(a) {
        return None;
    }
    terms.slice(a, high, low).ok()
}

pub(crate) fn pick(terms: &mut Terms, c: TermId, a: TermId, b: TermId) -> Option<TermId> {
    if c >= terms.count() || a >= terms.count() || b >= terms.count() {
        return None;
    }
    if terms.width(c) != 1 || terms.width(a) != terms.width(b) {
        return None;
    }
    terms.pick(c, a, b).ok()
}

/// Whether there are such terms, and each can be an argument.
fn are_args(terms: &Terms, args: &[TermId]) -> bool
    ensures there { IsTrue result → All (λ a. a < length terms.now) args.now }
    ensures narrow { IsTrue result → All (λ a. width_at terms.now a ≤ 64) args.now }
{
    for arg in args {
        if *arg >= terms.count() || terms.width(*arg) > 64 {
            return false;
        }
    }
    true
}

/// A function at arguments, of a width.
pub(crate) fn apply(
    terms: &mut Terms,
    function: u32,
    args: &[TermId],
    width: u8,
) -> Option<TermId> {
    if width < 1 || width > 128 || !are_args(terms, args) {
        return None;
    }
    terms.apply(function, args, width).ok()
}

/// A term with another one in the place of an input.
pub(crate) fn replaced(
    alloc: Global,
    terms: &mut Terms,
    term: TermId,
    input: u32,
    by: TermId,
) -> Option<TermId> {
    if term >= terms.count() || by >= terms.count() || input >= terms.input_count() {
        return None;
    }
    if terms.width(terms.input_term(input)) != terms.width(by) {
        return None;
    }
    terms.substitute(alloc, term, &[input], &[by]).ok()
}

/// The terms from a number on with another one in the place of an input, if the input stands from there on too.
pub(crate) fn all_replaced(
    alloc: Global,
    terms: &mut Terms,
    first: TermId,
    input: u32,
    by: TermId,
) -> Option<Vec<TermId>> {
    if by >= terms.count() || input >= terms.input_count() {
        return None;
    }
    let own = terms.input_term(input);
    if own < first {
        return None;
    }
    if terms.width(own) != terms.width(by) {
        return None;
    }
    terms.substitute_from(alloc, first, &[input], &[by]).ok()
}

/// The term of an input.
pub(crate) fn input_term(terms: &Terms, input: u32) -> Option<TermId> {
    if input < terms.input_count() {
        Some(terms.input_term(input))
    } else {
        None
    }
}

fn is_application(node: &Node) -> bool
    ensures { IsFalse result → NotApplied node.now }
{
    match node {
        Node::Apply(_, _, _) => true,
        _ => false,
    }
}

/// Whether no term up to this number is an application.
fn has_no_application(terms: &Terms, last: TermId) -> bool
    requires { last < length terms.now }
    ensures { IsTrue result → IsUnapplied (term_at terms.now last) }
{
    let mut at: u64 = 0;
    while at <= u64::from(last) {
        if is_application(terms.node(at as TermId)) {
            return false;
        }
        at += 1;
    }
    true
}

/// Whether a term can be a goal.
pub(crate) fn is_goal(terms: &Terms, term: TermId) -> bool
    ensures { IsTrue result → CanBeGoal terms.now term }
{
    if term >= terms.count() {
        return false;
    }
    if terms.width(term) != 1 {
        return false;
    }
    has_no_application(terms, term)
}

/// The clauses of a term, if it is a goal that has them.
pub(crate) fn blasted(alloc: Global, terms: &Terms, goal: TermId) -> Option<(Cnf, InputMap)>
    ensures named { IfSome result (λ made. WellNamed made.0) }
    ensures inputs { IfSome result (λ made. length made.1 ≡ inputs_in terms.now) }
{
    if is_goal(terms, goal) {
        blast(alloc, terms, goal).ok()
    } else {
        None
    }
}

/// The value of an input.
pub(crate) fn read(
    map: &InputMap,
    assignment: &Assignment,
    terms: &Terms,
    input: u32,
) -> Option<Bits>
    requires { length map.now ≡ inputs_in terms.now }
{
    if input < terms.input_count() {
        Some(map.read(assignment, input))
    } else {
        None
    }
}
