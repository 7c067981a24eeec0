//! The types of expressions.
ghost use Rattle.std.specs.Prelude.{◌≡◌, option_map, option_and_then};
ghost use Rattle.cocoon_num.specs.Sorts as sorts;
ghost use Rattle.cocoon_num.specs.Tokens.{kept_if};
ghost use Rattle.cocoon_num.specs.Values.{concat, with_all, with_both};
ghost use Rattle.p4_ir.specs.Program.{binary_of, unary_of};
ghost use Rattle.p4_kinds.specs.Typed.{are_alike, sort_of, sort_value};

use p4_ir::{P4Binary, P4Unary};

/// A number of a width in bits, or a truth value.
#[derive(Clone, Copy, Drop)]
pub enum Sort {
    Bits(u8),
    Truth,
}

/// Both are this type.
fn is_same(sort: Sort, other: Sort) -> bool
    ensures { result ≡ sorts.same_sort (sort_value sort) (sort_value other) }
{
    match (sort, other) {
        (Sort::Bits(width), Sort::Bits(other)) => width == other,
        (Sort::Truth, Sort::Truth) => true,
        _ => false,
    }
}

pub fn is_truth(found: Option<Sort>) -> bool
    ensures { result ≡ sorts.has_sort sorts.truth_sort (sort_of found) }
{
    match found {
        Some(Sort::Truth) => true,
        _ => false,
    }
}

/// It is a number of this width.
pub fn is_wide(found: Option<Sort>, width: u8) -> bool
    ensures { result ≡ sorts.has_sort (sorts.bits_sort width) (sort_of found) }
{
    match found {
        Some(Sort::Bits(other)) => width == other,
        _ => false,
    }
}

/// Both have one type.
pub fn are_same(first: Option<Sort>, second: Option<Sort>) -> bool
    ensures { result ≡ sorts.are_same (sort_of first) (sort_of second) }
{
    match (first, second) {
        (Some(sort), Some(other)) => is_same(sort, other),
        _ => false,
    }
}

/// The type of a number of this width, if it has one.
pub fn bits(width: Option<u8>) -> Option<Sort>
    ensures { sort_of result ≡ option_map sorts.bits_sort width }
{
    match width {
        Some(width) => Some(Sort::Bits(width)),
        None => None,
    }
}

/// The type, where it may stand.
pub fn where_allowed(allowed: bool, width: u8) -> Option<Sort>
    ensures { sort_of result ≡ kept_if allowed (sorts.bits_sort width) }
{
    if allowed {
        Some(Sort::Bits(width))
    } else {
        None
    }
}

/// The type of an expression with one operand of this type.
pub fn unary_sort(op: P4Unary, a: Option<Sort>) -> Option<Sort>
    ensures { sort_of result ≡ option_and_then (sorts.unary_sort (unary_of op)) (sort_of a) }
{
    match (op, a) {
        (P4Unary::Flip, Some(Sort::Bits(width))) => Some(Sort::Bits(width)),
        (P4Unary::Not, Some(Sort::Truth)) => Some(Sort::Truth),
        _ => None,
    }
}

/// The two numbers put together.
fn joined_sort(first: Option<Sort>, second: Option<Sort>) -> Option<Sort>
    ensures { sort_of result ≡
        with_both (sorts.binary_sort concat) (sort_of first) (sort_of second) }
{
    match (first, second) {
        (Some(Sort::Bits(width)), Some(Sort::Bits(other))) => {
            if u16::from(width) + u16::from(other) <= 128 {
                Some(Sort::Bits(width + other))
            } else {
                None
            }
        }
        _ => None,
    }
}

/// Both are numbers, of the same width.
fn are_like(first: Option<Sort>, second: Option<Sort>) -> bool
    ensures { result ≡ are_alike (sort_of first) (sort_of second) }
{
    match (first, second) {
        (Some(Sort::Bits(width)), Some(Sort::Bits(other))) => width == other,
        _ => false,
    }
}

/// The type of an expression with two operands of these types.
pub fn binary_sort(op: P4Binary, first: Option<Sort>, second: Option<Sort>) -> Option<Sort>
    ensures { sort_of result
        ≡ with_both (sorts.binary_sort (binary_of op)) (sort_of first) (sort_of second) }
{
    match op {
        P4Binary::Concat => joined_sort(first, second),
        P4Binary::Add | P4Binary::Sub | P4Binary::BitAnd | P4Binary::BitOr | P4Binary::BitXor => {
            if are_like(first, second) { first } else { None }
        }
        P4Binary::And | P4Binary::Or => {
            if is_truth(first) && is_truth(second) {
                first
            } else {
                None
            }
        }
        _ => {
            if are_like(first, second) {
                Some(Sort::Truth)
            } else {
                None
            }
        }
    }
}

/// The type of a slice of a number of this type.
pub fn slice_sort(a: Option<Sort>, high: u8, low: u8) -> Option<Sort>
    ensures { sort_of result ≡ option_and_then (λ t. sorts.slice_sort t high low) (sort_of a) }
{
    match a {
        Some(Sort::Bits(width)) => {
            if low <= high && high < width {
                Some(Sort::Bits(high - low + 1))
            } else {
                None
            }
        }
        _ => None,
    }
}

/// The type of a choice between two values of these types.
pub fn pick_sort(condition: Option<Sort>, first: Option<Sort>, second: Option<Sort>) -> Option<Sort>
    ensures { sort_of result
        ≡ with_all sorts.pick_sort (sort_of condition) (sort_of first) (sort_of second) }
{
    if is_truth(condition) && are_same(first, second) {
        first
    } else {
        None
    }
}
