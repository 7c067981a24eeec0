//! Nodes of bodies.
ghost use Rattle.std.specs.Prelude.{◌≡◌, ◌+◌, List, map, reverse};
ghost use Rattle.cocoon_num.specs.Tree.{FunctionDecl};
ghost use Rattle.cocoon_syntax.specs.TreeOf.{block_of, expr_of, exprs_of, stmt_of};
ghost use Rattle.cocoon_types.specs.Limits.{block_nodes, expr_nodes, exprs_nodes, reported, stmt_nodes};
ghost use Rattle.cocoon_resolve.specs.Forms.{Knows};

use crate::forms::Known;
use crate::nodes::{Counting, weigh};
use cocoon_syntax::{Expr, Stmt, StmtKind};

/// The number of nodes of a block with its calls.
#[cycle(nodes)]
pub(crate) fn count_nodes(known: &[Known], stmts: &[Stmt]) -> u64
    ensures { (fs : List FunctionDecl) → Knows fs (reverse known.now)
        → result ≡ reported (block_nodes fs (block_of (map stmt_of stmts.now))) }
{
    let mut sum: u64 = 0;
    for stmt in stmts {
        sum = sum.saturating_add(stmt_count(known, stmt));
    }
    sum
}

#[cycle(nodes)]
fn stmt_count(known: &[Known], stmt: &Stmt) -> u64
    ensures { (fs : List FunctionDecl) → Knows fs (reverse known.now)
        → result ≡ reported (stmt_nodes fs (stmt_of stmt.now)) }
{
    match &stmt.kind {
        StmtKind::Let(_, _, value) => one_more(expr_count(known, value)),
        StmtKind::SetField(_, _, value) => one_more(expr_count(known, value)),
        StmtKind::If(condition, first, second) => one_more(expr_count(known, condition))
            .saturating_add(count_nodes(known, first))
            .saturating_add(count_nodes(known, second)),
        StmtKind::Filter(condition) => one_more(expr_count(known, condition)),
        StmtKind::HavocVar(_, _) => 1,
        StmtKind::HavocField(_, _) => 1,
        StmtKind::Assume(condition) => one_more(expr_count(known, condition)),
        StmtKind::Fork(_, _, condition, body) => {
            one_more(expr_count(known, condition)).saturating_add(count_nodes(known, body))
        }
        StmtKind::Send(_, args) => one_more(exprs_count(known, args)),
    }
}

fn one_more(count: u64) -> u64
    ensures { result ≡ reported (1 + count) }
{
    count.saturating_add(1)
}

fn exprs_count(known: &[Known], exprs: &[Expr]) -> u64
    ensures { (fs : List FunctionDecl) → Knows fs (reverse known.now)
        → result ≡ reported (exprs_nodes fs (exprs_of (map expr_of exprs.now))) }
{
    let mut sum: u64 = 0;
    for expr in exprs {
        sum = sum.saturating_add(expr_count(known, expr));
    }
    sum
}

fn expr_count(known: &[Known], expr: &Expr) -> u64
    ensures { (fs : List FunctionDecl) → Knows fs (reverse known.now)
        → result ≡ reported (expr_nodes fs (expr_of expr.now)) }
{
    weigh(
        &Counting {
            known,
            params: &[],
            slot: 0,
            one: 1,
        },
        expr,
    )
}
