//! Expressions over the lowered expressions of their parts.
ghost use Rattle.std.specs.Prelude.{◌≡◌, IfOk, option_map};
ghost use Rattle.cocoon_syntax.specs.TreeOf as tree;
ghost use Rattle.p4_ir.specs.P4Tree.{p_pick, p_slice, p_unary};
ghost use Rattle.p4_ir.specs.Program.{binary_of, expr_of};
ghost use Rattle.lowering.specs.Lower.{p_operation};
ghost use Rattle.lower_code.specs.Scopes.{IsOperator};

use cocoon_num::{NoMemory, both, three};
use cocoon_syntax::{BinaryOp, UnaryOp};
use p4_ir::{P4Binary, P4Expr, P4Unary};
use std::alloc::Global;

fn boxed(alloc: Global, expr: P4Expr) -> Result<Box<P4Expr>, NoMemory>
    ensures { IfOk result (λ e. expr_of e.value ≡ expr_of expr) }
{
    Ok(Box::new(alloc, expr)?)
}

pub(crate) fn unary(alloc: Global, op: UnaryOp, a: P4Expr) -> Result<P4Expr, NoMemory>
    ensures { IfOk result (λ e. expr_of e ≡ p_unary (tree.unary_of op) (expr_of a)) }
{
    let a = boxed(alloc, a)?;
    match op {
        UnaryOp::Flip => Ok(P4Expr::Unary(P4Unary::Flip, a)),
        UnaryOp::Not => Ok(P4Expr::Unary(P4Unary::Not, a)),
    }
}

/// The operator of a program; none for `implies`, which has none.
fn operator(op: BinaryOp) -> Option<P4Binary>
    ensures { IsOperator (tree.binary_of op) (option_map binary_of result) }
{
    match op {
        BinaryOp::Add => Some(P4Binary::Add),
        BinaryOp::Sub => Some(P4Binary::Sub),
        BinaryOp::BitAnd => Some(P4Binary::BitAnd),
        BinaryOp::BitOr => Some(P4Binary::BitOr),
        BinaryOp::BitXor => Some(P4Binary::BitXor),
        BinaryOp::Concat => Some(P4Binary::Concat),
        BinaryOp::Equal => Some(P4Binary::Equal),
        BinaryOp::Unequal => Some(P4Binary::Unequal),
        BinaryOp::Less => Some(P4Binary::Less),
        BinaryOp::LessEqual => Some(P4Binary::LessEqual),
        BinaryOp::Greater => Some(P4Binary::Greater),
        BinaryOp::GreaterEqual => Some(P4Binary::GreaterEqual),
        BinaryOp::And => Some(P4Binary::And),
        BinaryOp::Or => Some(P4Binary::Or),
        BinaryOp::Implies => None,
    }
}

/// A binary operator over both sides.
pub(crate) fn binary(alloc: Global, op: BinaryOp, a: P4Expr, b: P4Expr) -> Result<P4Expr, NoMemory>
    ensures { IfOk result (λ e. expr_of e
        ≡ p_operation (tree.binary_of op) (expr_of a) (expr_of b)) }
{
    match operator(op) {
        Some(op) => {
            let (a, b) = both(boxed(alloc, a), boxed(alloc, b))?;
            Ok(P4Expr::Binary(op, a, b))
        }
        None => {
            let a = unary(alloc, UnaryOp::Not, a)?;
            let (a, b) = both(boxed(alloc, a), boxed(alloc, b))?;
            Ok(P4Expr::Binary(P4Binary::Or, a, b))
        }
    }
}

fn byte(number: u32) -> Result<u8, NoMemory>
    ensures { IfOk result (λ n. n ≡ number) }
{
    u8::try_from(number).map_err(|_| NoMemory)
}

/// Some bits of a number. There is no memory where a bound does not fit a byte, which no bound of a typed design does.
pub(crate) fn slice(alloc: Global, a: P4Expr, high: u32, low: u32) -> Result<P4Expr, NoMemory>
    ensures { IfOk result (λ e. expr_of e ≡ p_slice (expr_of a) high low) }
{
    let a = boxed(alloc, a)?;
    let (high, low) = both(byte(high), byte(low))?;
    Ok(P4Expr::Slice(a, high, low))
}

/// One of two values, by a condition.
pub(crate) fn pick(
    alloc: Global,
    condition: P4Expr,
    a: P4Expr,
    b: P4Expr,
) -> Result<P4Expr, NoMemory>
    ensures { IfOk result (λ e. expr_of e ≡ p_pick (expr_of condition) (expr_of a) (expr_of b)) }
{
    let (condition, a, b) = three(boxed(alloc, condition), boxed(alloc, a), boxed(alloc, b))?;
    Ok(P4Expr::Pick(condition, a, b))
}
