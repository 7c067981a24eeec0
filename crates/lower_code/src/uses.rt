//! Whether a name is used in an expression or in statements.
ghost use Rattle.std.specs.Prelude.{◌≡◌, map};
ghost use Rattle.cocoon_syntax.specs.TreeOf.{block_of, expr_of, exprs_of, stmt_of};
ghost use Rattle.lowering.specs.LowerBlock.{in_block, in_expr, in_exprs, in_stmt};

use crate::places::is_same;
use cocoon_syntax::{Expr, ExprKind, Stmt, StmtKind};

#[cycle(expr)]
fn expr_uses(expr: &Expr, name: &[u8]) -> bool
    ensures { result ≡ in_expr name.now (expr_of expr.now) }
{
    match &expr.kind {
        ExprKind::Name(other) => is_same(name, other.bytes()),
        ExprKind::Field(_, _) => false,
        ExprKind::Lit(_) => false,
        ExprKind::Truth(_) => false,
        ExprKind::Call(_, args) => exprs_use(args, name),
        ExprKind::Unary(_, a) => expr_uses(a, name),
        ExprKind::Binary(_, a, b) => expr_uses(a, name) || expr_uses(b, name),
        ExprKind::Slice(a, _, _) => expr_uses(a, name),
        ExprKind::Pick(condition, a, b) => {
            expr_uses(condition, name) || expr_uses(a, name) || expr_uses(b, name)
        }
    }
}

#[cycle(expr)]
fn exprs_use(exprs: &[Expr], name: &[u8]) -> bool
    ensures { result ≡ in_exprs name.now (exprs_of (map expr_of exprs.now)) }
{
    for expr in exprs {
        if expr_uses(expr, name) {
            return true;
        }
    }
    false
}

#[cycle(stmt)]
fn stmt_uses(stmt: &Stmt, name: &[u8]) -> bool
    ensures { result ≡ in_stmt name.now (stmt_of stmt.now) }
{
    match &stmt.kind {
        StmtKind::Let(_, _, value) => expr_uses(value, name),
        StmtKind::SetField(_, _, value) => expr_uses(value, name),
        StmtKind::If(condition, first, second) => {
            expr_uses(condition, name) || block_uses(first, name) || block_uses(second, name)
        }
        StmtKind::Filter(condition) => expr_uses(condition, name),
        StmtKind::HavocVar(_, _) => false,
        StmtKind::HavocField(_, _) => false,
        StmtKind::Assume(condition) => expr_uses(condition, name),
        StmtKind::Fork(_, _, choice, body) => expr_uses(choice, name) || block_uses(body, name),
        StmtKind::Send(_, args) => exprs_use(args, name),
    }
}

/// Whether a name is used in some statements.
#[cycle(stmt)]
pub(crate) fn block_uses(stmts: &[Stmt], name: &[u8]) -> bool
    ensures { result ≡ in_block name.now (block_of (map stmt_of stmts.now)) }
{
    for stmt in stmts {
        if stmt_uses(stmt, name) {
            return true;
        }
    }
    false
}
