//! How many brackets are open, and how many operators have come, at the tokens of a program's text.
//! Statements and expressions are walked as they are printed.
ghost use Rattle.std.specs.Prelude.{◌≡◌, Some, map};
ghost use Rattle.p4_ir.specs.Program.{block_of, expr_of, stmt_of};
ghost use Rattle.p4_kinds.specs.Depths as spec;

use p4_ir::{P4Expr, P4Stmt};

/// What is open at a token: brackets, and operators since the last `;`, `{` or `}`.
#[derive(Clone, Copy, Drop)]
pub(crate) struct Depth {
    brackets: u32,
    operators: u32,
}

/// After `(` or `[`; none where it is deep.
fn opened(depth: Option<Depth>) -> Option<Depth>
    ensures { result ≡ spec.opened depth }
{
    match depth {
        Some(depth) => {
            if depth.brackets < 512 {
                Some(Depth {
                    brackets: depth.brackets + 1,
                    operators: depth.operators,
                })
            } else {
                None
            }
        }
        None => None,
    }
}

/// After `)` or `]`.
fn closed(depth: Option<Depth>) -> Option<Depth>
    ensures { result ≡ spec.closed depth }
{
    match depth {
        Some(depth) => Some(Depth {
            brackets: depth.brackets.saturating_sub(1),
            operators: depth.operators,
        }),
        None => None,
    }
}

/// After an operator; none where it is deep.
fn operated(depth: Option<Depth>) -> Option<Depth>
    ensures { result ≡ spec.operated depth }
{
    match depth {
        Some(depth) => {
            if depth.operators < 1024 {
                Some(Depth {
                    brackets: depth.brackets,
                    operators: depth.operators + 1,
                })
            } else {
                None
            }
        }
        None => None,
    }
}

/// After `;`, and after a brace.
fn ended(depth: Option<Depth>) -> Option<Depth>
    ensures { result ≡ spec.ended depth }
{
    match depth {
        Some(depth) => Some(Depth {
            brackets: depth.brackets,
            operators: 0,
        }),
        None => None,
    }
}

#[cycle(depths)]
#[tactic(auto, using(crate::proofs::Deep::no_implication))]
fn after_expr(depth: Option<Depth>, expr: &P4Expr) -> Option<Depth>
    ensures { result ≡ spec.after_expr (expr_of expr.now) depth }
{
    match expr {
        P4Expr::Lit(_) => depth,
        P4Expr::Truth(_) => depth,
        P4Expr::Meta(_) => depth,
        P4Expr::Field(_, _) => depth,
        P4Expr::Port => depth,
        P4Expr::Rid => depth,
        P4Expr::Unary(_, a) => closed(after_expr(operated(opened(depth)), a)),
        P4Expr::Binary(_, a, b) => {
            let first = after_expr(opened(depth), a);
            closed(after_expr(operated(first), b))
        }
        P4Expr::Slice(a, _, _) => closed(operated(operated(opened(after_expr(depth, a))))),
        P4Expr::Pick(condition, a, b) => {
            let condition = after_expr(opened(depth), condition);
            let first = after_expr(operated(condition), a);
            closed(after_expr(operated(first), b))
        }
    }
}

/// After a condition in parentheses, up to the brace.
fn after_condition(depth: Option<Depth>, condition: &P4Expr) -> Option<Depth>
    ensures { result ≡ spec.after_condition (expr_of condition.now) depth }
{
    closed(after_expr(opened(depth), condition))
}

#[cycle(blocks)]
fn after_stmt(depth: Option<Depth>, stmt: &P4Stmt) -> Option<Depth>
    ensures { result ≡ spec.after_stmt (stmt_of stmt.now) depth }
{
    match stmt {
        P4Stmt::SetMeta(_, value) => ended(after_expr(depth, value)),
        P4Stmt::SetField(_, _, value) => ended(after_expr(depth, value)),
        P4Stmt::Apply(_) => ended(closed(opened(depth))),
        P4Stmt::If(condition, first) => inside(after_condition(depth, condition), first),
        P4Stmt::IfElse(condition, first, second) => {
            inside(inside(after_condition(depth, condition), first), second)
        }
        P4Stmt::Verdict(_) => ended(depth),
        P4Stmt::EgressPort(port) => ended(after_expr(depth, port)),
        P4Stmt::Group(group) => ended(after_expr(depth, group)),
        P4Stmt::Return => ended(depth),
    }
}

/// After a block in braces.
#[cycle(blocks)]
fn inside(depth: Option<Depth>, stmts: &Vec<P4Stmt>) -> Option<Depth>
    ensures { result ≡ spec.after_braces (block_of (map stmt_of stmts.now.items)) depth }
{
    let mut inner = ended(opened(depth));
    for stmt in stmts {
        inner = after_stmt(inner, stmt);
    }
    ended(closed(inner))
}

/// No token of a control's body is deep.
pub(crate) fn is_shallow(stmts: &[P4Stmt]) -> bool
    ensures { result ≡ spec.is_shallow_body (block_of (map stmt_of stmts.now)) }
{
    let mut depth = Some(Depth {
        brackets: 2,
        operators: 0,
    });
    for stmt in stmts {
        depth = after_stmt(depth, stmt);
    }
    depth.is_some()
}
