//! The values of resolved expressions.
ghost use Rattle.std.specs.Prelude.{◌≡◌, get_or};
ghost use Rattle.p4_run.specs.Held.{held};
ghost use Rattle.p4_run.specs.Meaning.{number_by, truth_by};

use crate::expr_codes::{NumberCode, TruthCode};
use crate::registers::Registers;

/// The number at an index, or 0 where there is none.
#[inline(always)]
fn number_at(numbers: &[u64], index: usize) -> u128
    ensures { result ≡ get_or numbers.now index 0 }
{
    match numbers.get(index) {
        Some(number) => u128::from(*number),
        None => 0,
    }
}

/// The number that an expression gives.
#[cycle(evaluate)]
pub fn number(code: &NumberCode, registers: &Registers) -> u128
    ensures { result ≡ number_by code.now (held registers.now) }
{
    match code {
        NumberCode::Literal(number) => *number,
        NumberCode::Field(index) => number_at(&registers.fields, *index),
        NumberCode::Meta(index) => number_at(&registers.meta, *index),
        NumberCode::Own => u128::from(registers.own),
        NumberCode::Flip(a, mask) => mask.wrapping_sub(number(a, registers)),
        NumberCode::Add(a, b, mask) => {
            number(a, registers).wrapping_add(number(b, registers)) & *mask
        }
        NumberCode::Sub(a, b, mask) => {
            number(a, registers).wrapping_sub(number(b, registers)) & *mask
        }
        NumberCode::And(a, b) => number(a, registers) & number(b, registers),
        NumberCode::Or(a, b) => number(a, registers) | number(b, registers),
        NumberCode::Xor(a, b) => number(a, registers) ^ number(b, registers),
        NumberCode::Join(a, b, shift) => {
            (number(a, registers) << shift.by) | number(b, registers)
        }
        NumberCode::Slice(a, low, mask) => (number(a, registers) >> low.by) & *mask,
        NumberCode::Pick(condition, a, b) => {
            if truth(condition, registers) {
                number(a, registers)
            } else {
                number(b, registers)
            }
        }
    }
}

/// The truth value that an expression gives.
#[cycle(evaluate)]
pub fn truth(code: &TruthCode, registers: &Registers) -> bool
    ensures { result ≡ truth_by code.now (held registers.now) }
{
    match code {
        TruthCode::Constant(truth) => *truth,
        TruthCode::Not(a) => !truth(a, registers),
        TruthCode::Both(a, b) => truth(a, registers) && truth(b, registers),
        TruthCode::Either(a, b) => truth(a, registers) || truth(b, registers),
        TruthCode::Equal(a, b) => number(a, registers) == number(b, registers),
        TruthCode::Unequal(a, b) => number(a, registers) != number(b, registers),
        TruthCode::Less(a, b) => number(a, registers) < number(b, registers),
        TruthCode::LessEqual(a, b) => number(a, registers) <= number(b, registers),
        TruthCode::Choose(condition, a, b) => {
            if truth(condition, registers) {
                truth(a, registers)
            } else {
                truth(b, registers)
            }
        }
    }
}
