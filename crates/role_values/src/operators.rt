//! What operators make of their operands: none where these are not of the kind or of the widths that
//! the operator takes.
ghost use Rattle.std.specs.Prelude.{◌≡◌, ◌==◌, false, option_map, Some};
ghost use Rattle.cocoon_num.specs.BitsOf.{value_of};
ghost use Rattle.cocoon_num.specs.Values as values;
ghost use Rattle.cocoon_num.specs.Values.{apply_binary, apply_pick, apply_slice, apply_unary, number, truth};
ghost use Rattle.cocoon_syntax.specs.TreeOf.{binary_of, unary_of};
ghost use Rattle.role_values.specs.Meant.{meant};

use crate::value::Value;
use cocoon_num::Bits;
use cocoon_syntax::{BinaryOp, UnaryOp};

/// What an operator makes of one operand.
pub fn unary(op: UnaryOp, operand: Value) -> Option<Value>
    ensures { option_map meant result ≡ apply_unary (unary_of op) (meant operand) }
{
    match op {
        UnaryOp::Flip => match operand {
            Value::Number(bits) => Some(Value::Number(bits.not())),
            Value::Truth(_) => None,
        },
        UnaryOp::Not => match operand {
            Value::Number(_) => None,
            Value::Truth(truth) => Some(Value::Truth(!truth)),
        },
    }
}

/// Two numbers one after another, if they are not too wide together.
fn joined(high: Bits, low: Bits) -> Option<Value>
    ensures { option_map meant result ≡ apply_binary values.concat (value_of high) (value_of low) }
{
    if high.width <= 128 - low.width {
        Some(Value::Number(high.concat(low)))
    } else {
        None
    }
}

/// What an operator makes of two numbers of one width.
fn alike(op: BinaryOp, first: Bits, second: Bits) -> Option<Value>
    requires { first.width ≡ second.width }
    ensures { option_map meant result
        ≡ apply_binary (binary_of op) (value_of first) (value_of second) }
{
    match op {
        BinaryOp::Add => Some(Value::Number(first.add(second))),
        BinaryOp::Sub => Some(Value::Number(first.sub(second))),
        BinaryOp::BitAnd => Some(Value::Number(first.and(second))),
        BinaryOp::BitOr => Some(Value::Number(first.or(second))),
        BinaryOp::BitXor => Some(Value::Number(first.xor(second))),
        BinaryOp::Concat => joined(first, second),
        BinaryOp::Equal => Some(Value::Truth(first.value == second.value)),
        BinaryOp::Unequal => Some(Value::Truth(first.value != second.value)),
        BinaryOp::Less => Some(Value::Truth(first.value < second.value)),
        BinaryOp::LessEqual => Some(Value::Truth(first.value <= second.value)),
        BinaryOp::Greater => Some(Value::Truth(first.value > second.value)),
        BinaryOp::GreaterEqual => Some(Value::Truth(first.value >= second.value)),
        BinaryOp::And => None,
        BinaryOp::Or => None,
        BinaryOp::Implies => None,
    }
}

/// What an operator makes of two numbers of two widths.
fn unlike(op: BinaryOp, first: Bits, second: Bits) -> Option<Value>
    requires { (first.width == second.width) ≡ false }
    ensures { option_map meant result
        ≡ apply_binary (binary_of op) (value_of first) (value_of second) }
{
    match op {
        BinaryOp::Concat => joined(first, second),
        _ => None,
    }
}

/// What an operator makes of two numbers.
fn numbers(op: BinaryOp, first: Bits, second: Bits) -> Option<Value>
    ensures { option_map meant result
        ≡ apply_binary (binary_of op) (value_of first) (value_of second) }
{
    if first.width == second.width {
        alike(op, first, second)
    } else {
        unlike(op, first, second)
    }
}

/// What an operator makes of two truth values.
fn truths(op: BinaryOp, first: bool, second: bool) -> Option<Value>
    ensures { option_map meant result ≡ apply_binary (binary_of op) (truth first) (truth second) }
{
    match op {
        BinaryOp::And => Some(Value::Truth(first && second)),
        BinaryOp::Or => Some(Value::Truth(first || second)),
        BinaryOp::Implies => Some(Value::Truth(!first || second)),
        _ => None,
    }
}

/// What an operator makes of two operands.
pub fn binary(op: BinaryOp, first: Value, second: Value) -> Option<Value>
    ensures { option_map meant result ≡ apply_binary (binary_of op) (meant first) (meant second) }
{
    match first {
        Value::Number(a) => match second {
            Value::Number(b) => numbers(op, a, b),
            Value::Truth(_) => None,
        },
        Value::Truth(a) => match second {
            Value::Number(_) => None,
            Value::Truth(b) => truths(op, a, b),
        },
    }
}

/// The bits from `high` down to `low` of a number that has them.
pub fn slice(operand: Value, high: u32, low: u32) -> Option<Value>
    ensures { option_map meant result ≡ apply_slice (meant operand) high low }
{
    match operand {
        Value::Number(bits) => {
            if low <= high && high < u32::from(bits.width) {
                Some(Value::Number(bits.slice(high as u8, low as u8)))
            } else {
                None
            }
        }
        Value::Truth(_) => None,
    }
}

/// The first where the condition is true, else the second.
pub fn pick(condition: Value, first: Value, second: Value) -> Option<Value>
    ensures { option_map meant result ≡ apply_pick (meant condition) (meant first) (meant second) }
{
    match condition {
        Value::Number(_) => None,
        Value::Truth(true) => Some(first),
        Value::Truth(false) => Some(second),
    }
}
