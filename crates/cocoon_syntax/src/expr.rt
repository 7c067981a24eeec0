//! Expressions.
ghost use Rattle.std.specs.Prelude.{◌≡◌, IfOk, map};
ghost use Rattle.cocoon_syntax.specs.TreeOf.{expr_of, kind_of};

use crate::name::Name;
use cocoon_num::copies::Copied;
use cocoon_num::{Bits, NoMemory, Text, both, three};
use std::alloc::Global;

#[derive(Clone, Copy, Debug, Drop)]
pub enum UnaryOp {
    Flip,
    Not,
}

#[derive(Clone, Copy, Debug, Drop)]
pub enum BinaryOp {
    Add,
    Sub,
    BitAnd,
    BitOr,
    BitXor,
    Concat,
    Equal,
    Unequal,
    Less,
    LessEqual,
    Greater,
    GreaterEqual,
    And,
    Or,
    Implies,
}

/// An expression, and the index of its first token, brackets apart.
#[cycle(expr)]
#[derive(Drop)]
pub struct Expr {
    pub at: u32,
    pub kind: ExprKind,
}

#[cycle(expr)]
#[derive(Drop)]
pub enum ExprKind {
    /// A variable.
    Name(Text),
    /// The header, and its field.
    Field(Name, Name),
    Lit(Bits),
    Truth(bool),
    /// The function, and its arguments in order.
    Call(Name, Vec<Expr>),
    Unary(UnaryOp, Box<Expr>),
    /// The operator, its left side and its right side.
    Binary(BinaryOp, Box<Expr>, Box<Expr>),
    /// The number, its highest bit and its lowest bit.
    Slice(Box<Expr>, u32, u32),
    /// The condition, the value where it is true, and the value where it is false.
    Pick(Box<Expr>, Box<Expr>, Box<Expr>),
}

impl Expr {
    /// The same tree, in memory of its own.
    pub fn copy(&self, alloc: Global) -> Result<Expr, NoMemory>
        ensures { IfOk result (λ expr. expr_of expr ≡ expr_of self.now) }
    {
        copy_expr(alloc, self)
    }
}

#[cycle(copy)]
fn copy_expr(alloc: Global, expr: &Expr) -> Result<Expr, NoMemory>
    ensures { IfOk result (λ copy. expr_of copy ≡ expr_of expr.now) }
{
    Ok(Expr {
        at: expr.at,
        kind: copy_kind(alloc, &expr.kind)?,
    })
}

#[cycle(copy)]
fn copy_kind(alloc: Global, kind: &ExprKind) -> Result<ExprKind, NoMemory>
    ensures { IfOk result (λ copy. kind_of copy ≡ kind_of kind.now) }
{
    match kind {
        ExprKind::Name(text) => Ok(ExprKind::Name(Text::from(alloc, text.bytes())?)),
        ExprKind::Field(header, field) => {
            let (header, field) = both(header.copy(alloc), field.copy(alloc))?;
            Ok(ExprKind::Field(header, field))
        }
        ExprKind::Lit(bits) => Ok(ExprKind::Lit(*bits)),
        ExprKind::Truth(truth) => Ok(ExprKind::Truth(*truth)),
        ExprKind::Call(function, args) => {
            let (function, args) = both(function.copy(alloc), copy_exprs(alloc, args))?;
            Ok(ExprKind::Call(function, args))
        }
        ExprKind::Unary(op, a) => Ok(ExprKind::Unary(*op, copy_boxed(alloc, a)?)),
        ExprKind::Binary(op, left, right) => {
            let (left, right) = both(copy_boxed(alloc, left), copy_boxed(alloc, right))?;
            Ok(ExprKind::Binary(*op, left, right))
        }
        ExprKind::Slice(a, high, low) => Ok(ExprKind::Slice(copy_boxed(alloc, a)?, *high, *low)),
        ExprKind::Pick(condition, first, second) => {
            let (condition, first, second) = three(
                copy_boxed(alloc, condition),
                copy_boxed(alloc, first),
                copy_boxed(alloc, second),
            )?;
            Ok(ExprKind::Pick(condition, first, second))
        }
    }
}

#[cycle(copy)]
fn copy_boxed(alloc: Global, expr: &Expr) -> Result<Box<Expr>, NoMemory>
    ensures { IfOk result (λ copy. expr_of copy.value ≡ expr_of expr.now) }
{
    Ok(Box::new(alloc, copy_expr(alloc, expr)?)?)
}

#[cycle(copy)]
pub(crate) fn copy_exprs(alloc: Global, exprs: &[Expr]) -> Result<Vec<Expr>, NoMemory>
    ensures { IfOk result (λ copies. map expr_of copies.items ≡ map expr_of exprs.now) }
{
    let mut copies = Vec::new(alloc);
    for expr in exprs {
        copies.push(copy_expr(alloc, expr)?)?;
    }
    Ok(copies)
}
