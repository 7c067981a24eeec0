//! Terms, made by calls whose conditions are tried first.
ghost use Rattle.std.specs.Prelude.{◌<◌, ◌≤◌, All, IsTrue, length};
ghost use Rattle.bv_terms.specs.Arenas.{width_at};
ghost use Rattle.bv_terms.specs.TermTrees.{OperandsFit};

use bv_terms::{FunId, TermId, TermOp, Terms};

/// Whether an operator has a value at operands of these widths.
fn fits(op: TermOp, first: u8, second: u8) -> bool
    ensures { IsTrue result → OperandsFit op first second }
{
    match op {
        TermOp::Concat => u32::from(first) + u32::from(second) <= 128,
        _ => first == second,
    }
}

pub(crate) fn input(terms: &mut Terms, width: u8) -> Option<TermId> {
    if width < 1 || width > 128 {
        return None;
    }
    terms.input(width).ok()
}

pub(crate) fn binary(terms: &mut Terms, op: TermOp, a: TermId, b: TermId) -> Option<TermId> {
    if a >= terms.count() || b >= terms.count() {
        return None;
    }
    if !fits(op, terms.width(a), terms.width(b)) {
        return None;
    }
    terms.binary(op, a, b).ok()
}

pub(crate) fn not(terms: &mut Terms, a: TermId) -> Option<TermId> {
    if a >= terms.count() {
        return None;
    }
    terms.not(a).ok()
}

/// The bits of a term from `high` down to `low`.
pub(crate) fn slice(terms: &mut Terms, a: TermId, high: u8, low: u8) -> Option<TermId> {
    if a >= terms.count() {
        return None;
    }
    if low > high || high >= terms.width(a) {
        return None;
    }
    terms.slice(a, high, low).ok()
}

pub(crate) fn pick(terms: &mut Terms, c: TermId, a: TermId, b: TermId) -> Option<TermId> {
    if c >= terms.count() || a >= terms.count() || b >= terms.count() {
        return None;
    }
    if terms.width(c) != 1 || terms.width(a) != terms.width(b) {
        return None;
    }
    terms.pick(c, a, b).ok()
}

fn is_argument(terms: &Terms, arg: TermId) -> bool
    ensures there { IsTrue result → arg < length terms.now }
    ensures narrow { IsTrue result → width_at terms.now arg ≤ 64 }
{
    if arg >= terms.count() {
        return false;
    }
    terms.width(arg) <= 64
}

/// Whether these terms can be arguments.
fn are_arguments(terms: &Terms, args: &[TermId]) -> bool
    ensures there { IsTrue result → All (λ a. a < length terms.now) args.now }
    ensures narrow { IsTrue result → All (λ a. width_at terms.now a ≤ 64) args.now }
{
    for arg in args {
        if !is_argument(terms, *arg) {
            return false;
        }
    }
    true
}

/// A function at arguments, of a width.
pub(crate) fn apply(
    terms: &mut Terms,
    function: FunId,
    args: &[TermId],
    width: u8,
) -> Option<TermId> {
    if width < 1 || width > 128 || !are_arguments(terms, args) {
        return None;
    }
    terms.apply(function, args, width).ok()
}
