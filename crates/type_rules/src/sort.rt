//! The types of expressions.
ghost use Rattle.std.specs.Prelude.{◌≡◌, ◌&&◌, is_some, option_map};
ghost use Rattle.std.specs.Option.{option_and_then};
ghost use Rattle.cocoon_num.specs.Sorts as sorts;
ghost use Rattle.cocoon_num.specs.Values.{concat, with_all, with_both};
ghost use Rattle.cocoon_syntax.specs.TreeOf.{binary_of, unary_of};
ghost use Rattle.cocoon_types.specs.TypeRules as rules;
ghost use Rattle.type_rules.specs.Typed.{operands_of, sort_of, sort_value};

use cocoon_syntax::{BinaryOp, UnaryOp};

/// A number of a width in bits, or a truth value.
#[derive(Clone, Copy, Drop)]
pub(crate) enum Sort {
    Bits(u32),
    Truth,
}

/// The token index of an expression, and its type where it has one.
#[derive(Clone, Copy, Drop)]
pub(crate) struct Typed {
    pub(crate) at: u32,
    pub(crate) sort: Option<Sort>,
}

/// Which operands an operator has: numbers of one width, two numbers that are put together, or truth values.
#[derive(Clone, Copy, Drop)]
pub(crate) enum Operands {
    Numbers,
    Joined,
    Truths,
}

// ---- tests

/// It has a type, which is not this one.
pub(crate) fn is_other(sort: Sort, found: Option<Sort>) -> bool
    ensures { result ≡ rules.is_other (sort_value sort) (sort_of found) }
{
    match (sort, found) {
        (_, None) => false,
        (Sort::Bits(width), Some(Sort::Bits(other))) => width != other,
        (Sort::Truth, Some(Sort::Truth)) => false,
        _ => true,
    }
}

/// It is a truth value.
pub(crate) fn is_truth(found: Option<Sort>) -> bool
    ensures { result ≡ sorts.has_sort sorts.truth_sort (sort_of found) }
{
    match found {
        Some(Sort::Truth) => true,
        _ => false,
    }
}

/// Both are numbers, of the same width.
pub(crate) fn are_like(first: Option<Sort>, second: Option<Sort>) -> bool
    ensures { result ≡ rules.are_like (sort_of first) (sort_of second) }
{
    match (first, second) {
        (Some(Sort::Bits(width)), Some(Sort::Bits(other))) => width == other,
        _ => false,
    }
}

/// Both have one type.
pub(crate) fn are_same(first: Option<Sort>, second: Option<Sort>) -> bool
    ensures { result ≡ sorts.are_same (sort_of first) (sort_of second) }
{
    match first {
        Some(sort) => second.is_some() && !is_other(sort, second),
        None => false,
    }
}

/// Both have types.
pub(crate) fn both_typed(first: Option<Sort>, second: Option<Sort>) -> bool
    ensures { result ≡ rules.both_typed (sort_of first) (sort_of second) }
{
    first.is_some() && second.is_some()
}

/// The condition and both values have types.
pub(crate) fn all_typed(condition: Option<Sort>, first: Option<Sort>, second: Option<Sort>) -> bool
    ensures { result
        ≡ (is_some (sort_of condition) && rules.both_typed (sort_of first) (sort_of second)) }
{
    condition.is_some() && both_typed(first, second)
}

/// Both are numbers, whose widths sum to more than 128.
pub(crate) fn too_wide(first: Option<Sort>, second: Option<Sort>) -> bool
    ensures { result ≡ rules.too_wide_sum (sort_of first) (sort_of second) }
{
    match (first, second) {
        (Some(Sort::Bits(width)), Some(Sort::Bits(other))) => u64::from(width) + u64::from(other)
            > 128,
        _ => false,
    }
}

/// It is a number, and the bounds of a slice lie outside of it.
pub(crate) fn bad_bounds(found: Option<Sort>, high: u32, low: u32) -> bool
    ensures { result ≡ rules.bad_bounds (sort_of found) high low }
{
    match found {
        Some(Sort::Bits(width)) => !(low <= high && high < width),
        _ => false,
    }
}

/// Which operands an operator has.
pub(crate) fn which_operands(op: BinaryOp) -> Operands
    ensures { result ≡ operands_of (binary_of op) }
{
    match op {
        BinaryOp::Concat => Operands::Joined,
        BinaryOp::And | BinaryOp::Or | BinaryOp::Implies => Operands::Truths,
        _ => Operands::Numbers,
    }
}

// ---- types

/// The type of a number of this width, if it has one.
pub(crate) fn bits(width: Option<u32>) -> Option<Sort>
    ensures { sort_of result ≡ option_map sorts.bits_sort width }
{
    match width {
        Some(width) => Some(Sort::Bits(width)),
        None => None,
    }
}

/// The type of an expression with one operand of this type.
pub(crate) fn unary_sort(op: UnaryOp, a: Option<Sort>) -> Option<Sort>
    ensures { sort_of result ≡ option_and_then (sorts.unary_sort (unary_of op)) (sort_of a) }
{
    match (op, a) {
        (UnaryOp::Flip, Some(Sort::Bits(width))) => Some(Sort::Bits(width)),
        (UnaryOp::Not, Some(Sort::Truth)) => Some(Sort::Truth),
        _ => None,
    }
}

/// The two numbers put together.
fn joined_sort(first: Option<Sort>, second: Option<Sort>) -> Option<Sort>
    ensures { sort_of result ≡
        with_both (sorts.binary_sort concat) (sort_of first) (sort_of second) }
{
    match (first, second) {
        (Some(Sort::Bits(width)), Some(Sort::Bits(other))) => {
            if u64::from(width) + u64::from(other) <= 128 {
                Some(Sort::Bits(width + other))
            } else {
                None
            }
        }
        _ => None,
    }
}

/// The type of an expression with two operands of these types.
pub(crate) fn binary_sort(op: BinaryOp, first: Option<Sort>, second: Option<Sort>) -> Option<Sort>
    ensures { sort_of result
        ≡ with_both (sorts.binary_sort (binary_of op)) (sort_of first) (sort_of second) }
{
    match op {
        BinaryOp::Concat => joined_sort(first, second),
        BinaryOp::Add | BinaryOp::Sub | BinaryOp::BitAnd | BinaryOp::BitOr | BinaryOp::BitXor => {
            if are_like(first, second) { first } else { None }
        }
        BinaryOp::And | BinaryOp::Or | BinaryOp::Implies => {
            if is_truth(first) && is_truth(second) {
                first
            } else {
                None
            }
        }
        _ => {
            if are_like(first, second) {
                Some(Sort::Truth)
            } else {
                None
            }
        }
    }
}

/// The type of a slice of a number of this type.
pub(crate) fn slice_sort(a: Option<Sort>, high: u32, low: u32) -> Option<Sort>
    ensures { sort_of result ≡ option_and_then (λ t. sorts.slice_sort t high low) (sort_of a) }
{
    match a {
        Some(Sort::Bits(width)) => {
            if low <= high && high < width {
                Some(Sort::Bits(high - low + 1))
            } else {
                None
            }
        }
        _ => None,
    }
}

/// The type of a choice between two values of these types.
pub(crate) fn pick_sort(
    condition: Option<Sort>,
    first: Option<Sort>,
    second: Option<Sort>,
) -> Option<Sort>
    ensures { sort_of result
        ≡ with_all sorts.pick_sort (sort_of condition) (sort_of first) (sort_of second) }
{
    if is_truth(condition) && are_same(first, second) {
        first
    } else {
        None
    }
}
