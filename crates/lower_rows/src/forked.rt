//! Which functions stand under forks.
ghost use Rattle.std.specs.Prelude.{◌≡◌, map};
ghost use Rattle.cocoon_num.specs.Lists.{is_one_of};
ghost use Rattle.cocoon_num.specs.Names.{same_name};
ghost use Rattle.cocoon_syntax.specs.TreeOf.{block_of, design_of, expr_of, stmt_of};
ghost use Rattle.cocoon_types.specs.DefsRules.{fork_calls};
ghost use Rattle.cocoon_types.specs.LastLevel as last;
ghost use Rattle.runtime_defs.specs.Sets.{forks_in, forks_of, switch_forks};

use cocoon_resolve::Checked;
use cocoon_syntax::{Expr, ExprKind, Stmt, StmtKind};

/// The name of the function that a call names; no name where it is no call.
fn called(expr: &Expr) -> &[u8]
    ensures { result.now ≡ last.called (expr_of expr.now) }
{
    match &expr.kind {
        ExprKind::Call(function, _) => function.text.bytes(),
        _ => &[],
    }
}

pub(crate) fn is_same(a: &[u8], b: &[u8]) -> bool
    ensures { result ≡ same_name a.now b.now }
{
    a == b
}

#[cycle(forked)]
fn stmt_forks(stmt: &Stmt, name: &[u8]) -> bool
    ensures { result ≡ is_one_of (forks_of (stmt_of stmt.now)) name.now }
{
    match &stmt.kind {
        StmtKind::If(_, first, second) => block_forks(first, name) || block_forks(second, name),
        StmtKind::Fork(_, _, choice, body) => {
            is_same(called(choice), name) || block_forks(body, name)
        }
        StmtKind::Let(_, _, _) => false,
        StmtKind::SetField(_, _, _) => false,
        StmtKind::Filter(_) => false,
        StmtKind::HavocVar(_, _) => false,
        StmtKind::HavocField(_, _) => false,
        StmtKind::Assume(_) => false,
        StmtKind::Send(_, _) => false,
    }
}

/// Whether a fork of some statements is of the function of this name.
#[cycle(forked)]
fn block_forks(stmts: &[Stmt], name: &[u8]) -> bool
    ensures { result ≡ is_one_of (forks_in (block_of (map stmt_of stmts.now))) name.now }
{
    for stmt in stmts {
        if stmt_forks(stmt, name) {
            return true;
        }
    }
    false
}

/// The body of the ingress role at the last level; no statements where there is none.
fn ingress_body(checked: &Checked) -> &[Stmt]
    ensures { forks_in (block_of (map stmt_of result.now)) ≡ switch_forks (design_of checked.now) }
{
    let Some(switches) = checked.names().switch(checked.design()) else {
        return &[];
    };
    let last = checked.levels() - 1;
    let name = switches.into.text.bytes();
    let Some(role) = checked.names().role_at(checked.design(), name, last) else {
        return &[];
    };
    match &role.body {
        Some(body) => body,
        None => &[],
    }
}

/// Whether the function of this name stands under a fork of the last level.
pub(crate) fn is_forked(checked: &Checked, name: &[u8]) -> bool
    ensures { result ≡ is_one_of (fork_calls (design_of checked.now)) name.now }
{
    block_forks(ingress_body(checked), name)
}
