//! Operators, with operands that are resolved.
ghost use Rattle.std.specs.Prelude.{◌≡◌, ◌+◌, ◌≤◌, ◌^◌, IfOk, true};
ghost use Rattle.cocoon_num.specs.Sorts.{bits_sort, pick_sort, slice_sort, truth_sort, unary_sort, work_sort};
ghost use Rattle.cocoon_num.specs.Values.{joins, work};
ghost use Rattle.p4_ir.specs.Program.{binary_of, unary_of};
ghost use Rattle.p4_run.specs.Operating.{comparing, Compares, computing, Computes, IsSorted, OfOne, OfSlice, OfThree, OfTwo, sort_of};
ghost use Rattle.p4_run.specs.declared.resolved.Resolved.TheVariants.{Number, Truth};

use crate::expr_codes::{NumberCode, Shift, TruthCode};
use crate::resolved::{Resolved, SizedNumber};
use cocoon_num::NoMemory;
use p4_ir::{P4Binary, P4Unary};
use std::alloc::Global;

/// Ones at the lowest places.
#[tactic(auto, using(cocoon_num::proofs::Widths::mask_is))]
fn mask(width: u8) -> u128
    requires wide { 1 ≤ width }
    requires narrow { width ≤ 128 }
    ensures { result + 1 ≡ 2 ^ width }
{
    u128::MAX >> (128 - width)
}

/// An operator with one operand.
pub(crate) fn unary(alloc: Global, op: P4Unary, a: Resolved) -> Result<Resolved, NoMemory>
    requires sort { IsSorted (unary_sort (unary_of op) (sort_of a)) }
    ensures { IfOk result (λ made. OfOne (unary_of op) a made) }
{
    match a {
        Resolved::Number(SizedNumber { code, width }) => {
            let code = NumberCode::Flip(Box::new(alloc, code)?, mask(width));
            Ok(Resolved::Number(SizedNumber { code, width }))
        }
        Resolved::Truth(code) => Ok(Resolved::Truth(TruthCode::Not(Box::new(alloc, code)?))),
    }
}

/// Two expressions, in boxes.
fn boxed(
    alloc: Global,
    a: NumberCode,
    b: NumberCode,
) -> Result<(Box<NumberCode>, Box<NumberCode>), NoMemory>
    ensures first { IfOk result (λ made. made.0.value ≡ a) }
    ensures second { IfOk result (λ made. made.1.value ≡ b) }
{
    let a = Box::new(alloc, a)?;
    let b = Box::new(alloc, b)?;
    Ok((a, b))
}

/// Whether an operator makes a number of two numbers of one width.
fn is_arithmetic(op: P4Binary) -> bool
    ensures { result ≡ computing (work (binary_of op)) }
{
    match op {
        P4Binary::Add => true,
        P4Binary::Sub => true,
        P4Binary::BitAnd => true,
        P4Binary::BitOr => true,
        P4Binary::BitXor => true,
        _ => false,
    }
}

/// Whether an operator makes a truth value of two numbers of one width.
fn is_comparison(op: P4Binary) -> bool
    ensures { result ≡ comparing (work (binary_of op)) }
{
    match op {
        P4Binary::Equal => true,
        P4Binary::Unequal => true,
        P4Binary::Less => true,
        P4Binary::LessEqual => true,
        P4Binary::Greater => true,
        P4Binary::GreaterEqual => true,
        _ => false,
    }
}

/// An operator that makes a number of two numbers of one width.
fn arithmetic(op: P4Binary, a: Box<NumberCode>, b: Box<NumberCode>, width: u8) -> NumberCode
    requires op { computing (work (binary_of op)) ≡ true }
    requires wide { 1 ≤ width }
    requires narrow { width ≤ 128 }
    ensures { Computes (work (binary_of op)) width a.value b.value result }
{
    match op {
        P4Binary::Add => NumberCode::Add(a, b, mask(width)),
        P4Binary::Sub => NumberCode::Sub(a, b, mask(width)),
        P4Binary::BitAnd => NumberCode::And(a, b),
        P4Binary::BitOr => NumberCode::Or(a, b),
        P4Binary::BitXor => NumberCode::Xor(a, b),
        _ => unreachable!(),
    }
}

/// An operator that makes a truth value of two numbers of one width.
fn comparison(op: P4Binary, a: Box<NumberCode>, b: Box<NumberCode>) -> TruthCode
    requires { comparing (work (binary_of op)) ≡ true }
    ensures { Compares (work (binary_of op)) a.value b.value result }
{
    match op {
        P4Binary::Equal => TruthCode::Equal(a, b),
        P4Binary::Unequal => TruthCode::Unequal(a, b),
        P4Binary::Less => TruthCode::Less(a, b),
        P4Binary::LessEqual => TruthCode::LessEqual(a, b),
        P4Binary::Greater => TruthCode::Less(b, a),
        P4Binary::GreaterEqual => TruthCode::LessEqual(b, a),
        _ => unreachable!(),
    }
}

/// Two numbers one after another.
fn joined(alloc: Global, a: SizedNumber, b: SizedNumber) -> Result<SizedNumber, NoMemory>
    requires { a.width + b.width ≤ 128 }
    ensures { IfOk result (λ made. OfTwo joins (Number a) (Number b) (Number made)) }
{
    let width = a.width + b.width;
    let shift = Shift { by: b.width };
    let (first, second) = boxed(alloc, a.code, b.code)?;
    Ok(SizedNumber {
        code: NumberCode::Join(first, second, shift),
        width,
    })
}

/// An operator with two numbers.
fn numbers(
    alloc: Global,
    op: P4Binary,
    a: SizedNumber,
    b: SizedNumber,
) -> Result<Resolved, NoMemory>
    requires { IsSorted (work_sort (work (binary_of op)) (bits_sort a.width)
        (bits_sort b.width)) }
    ensures { IfOk result (λ made. OfTwo (work (binary_of op)) (Number a) (Number b) made) }
{
    if is_arithmetic(op) {
        let width = b.width;
        let (first, second) = boxed(alloc, a.code, b.code)?;
        let code = arithmetic(op, first, second, width);
        Ok(Resolved::Number(SizedNumber { code, width }))
    } else if is_comparison(op) {
        let (first, second) = boxed(alloc, a.code, b.code)?;
        Ok(Resolved::Truth(comparison(op, first, second)))
    } else {
        Ok(Resolved::Number(joined(alloc, a, b)?))
    }
}

/// An operator with two truth values.
fn truths(alloc: Global, op: P4Binary, a: TruthCode, b: TruthCode) -> Result<Resolved, NoMemory>
    requires { IsSorted (work_sort (work (binary_of op)) truth_sort truth_sort) }
    ensures { IfOk result (λ made. OfTwo (work (binary_of op)) (Truth a) (Truth b) made) }
{
    let first = Box::new(alloc, a)?;
    let second = Box::new(alloc, b)?;
    match op {
        P4Binary::And => Ok(Resolved::Truth(TruthCode::Both(first, second))),
        P4Binary::Or => Ok(Resolved::Truth(TruthCode::Either(first, second))),
        _ => unreachable!(),
    }
}

/// An operator with two operands.
pub(crate) fn binary(
    alloc: Global,
    op: P4Binary,
    a: Resolved,
    b: Resolved,
) -> Result<Resolved, NoMemory>
    requires { IsSorted (work_sort (work (binary_of op)) (sort_of a) (sort_of b)) }
    ensures { IfOk result (λ made. OfTwo (work (binary_of op)) a b made) }
{
    match a {
        Resolved::Number(first) => match b {
            Resolved::Number(second) => numbers(alloc, op, first, second),
            Resolved::Truth(_) => unreachable!(),
        },
        Resolved::Truth(first) => match b {
            Resolved::Number(_) => unreachable!(),
            Resolved::Truth(second) => truths(alloc, op, first, second),
        },
    }
}

/// The bits from `high` down to `low`.
pub(crate) fn slice(alloc: Global, a: Resolved, high: u8, low: u8) -> Result<Resolved, NoMemory>
    requires { IsSorted (slice_sort (sort_of a) high low) }
    ensures { IfOk result (λ made. OfSlice high low a made) }
{
    match a {
        Resolved::Number(number) => {
            let width = high - low + 1;
            let first = Box::new(alloc, number.code)?;
            let code = NumberCode::Slice(first, Shift { by: low }, mask(width));
            Ok(Resolved::Number(SizedNumber { code, width }))
        }
        Resolved::Truth(_) => unreachable!(),
    }
}

/// One of two numbers.
fn picked_number(
    alloc: Global,
    condition: TruthCode,
    a: SizedNumber,
    b: SizedNumber,
) -> Result<SizedNumber, NoMemory>
    requires { a.width ≡ b.width }
    ensures { IfOk result (λ made. OfThree (Truth condition) (Number a) (Number b) (Number made)) }
{
    let width = a.width;
    let condition = Box::new(alloc, condition)?;
    let (first, second) = boxed(alloc, a.code, b.code)?;
    Ok(SizedNumber {
        code: NumberCode::Pick(condition, first, second),
        width,
    })
}

/// One of two truth values.
fn picked_truth(
    alloc: Global,
    condition: TruthCode,
    a: TruthCode,
    b: TruthCode,
) -> Result<TruthCode, NoMemory>
    ensures { IfOk result (λ made. OfThree (Truth condition) (Truth a) (Truth b) (Truth made)) }
{
    let condition = Box::new(alloc, condition)?;
    let first = Box::new(alloc, a)?;
    let second = Box::new(alloc, b)?;
    Ok(TruthCode::Choose(condition, first, second))
}

/// One of two, of which a condition decides.
pub(crate) fn pick(
    alloc: Global,
    condition: Resolved,
    a: Resolved,
    b: Resolved,
) -> Result<Resolved, NoMemory>
    requires { IsSorted (pick_sort (sort_of condition) (sort_of a) (sort_of b)) }
    ensures { IfOk result (λ made. OfThree condition a b made) }
{
    match condition {
        Resolved::Number(_) => unreachable!(),
        Resolved::Truth(condition) => match a {
            Resolved::Number(first) => match b {
                Resolved::Number(second) => {
                    Ok(Resolved::Number(picked_number(alloc, condition, first, second)?))
                }
                Resolved::Truth(_) => unreachable!(),
            },
            Resolved::Truth(first) => match b {
                Resolved::Number(_) => unreachable!(),
                Resolved::Truth(second) => {
                    Ok(Resolved::Truth(picked_truth(alloc, condition, first, second)?))
                }
            },
        },
    }
}
