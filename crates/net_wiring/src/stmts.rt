//! Statements of P4 programs compared as trees.
ghost use Rattle.std.specs.Prelude.{◌≡◌, map};
ghost use Rattle.p4_ir.specs.P4Tree.{apply_table, egress_port, group, set_header, set_meta, verdict};
ghost use Rattle.p4_ir.specs.Program.{block_of, expr_of, stmt_of};
ghost use Rattle.net_wiring.specs.SameTrees as spec;

use crate::exprs::same_expr;
use p4_ir::{P4Expr, P4Stmt};

fn same_set_meta(index: u32, value: &P4Expr, other: &P4Stmt) -> bool
    ensures { result ≡ spec.same_stmt (set_meta index (expr_of value.now)) (stmt_of other.now) }
{
    match other {
        P4Stmt::SetMeta(found, set) => index == *found && same_expr(value, set),
        _ => false,
    }
}

fn same_set_field(header: u32, field: u32, value: &P4Expr, other: &P4Stmt) -> bool
    ensures { result ≡ spec.same_stmt (set_header header field (expr_of value.now))
        (stmt_of other.now) }
{
    match other {
        P4Stmt::SetField(found, entry, set) => {
            header == *found && field == *entry && same_expr(value, set)
        }
        _ => false,
    }
}

fn same_apply(number: u32, other: &P4Stmt) -> bool
    ensures { result ≡ spec.same_stmt (apply_table number) (stmt_of other.now) }
{
    match other {
        P4Stmt::Apply(found) => number == *found,
        _ => false,
    }
}

fn same_verdict(number: u8, other: &P4Stmt) -> bool
    ensures { result ≡ spec.same_stmt (verdict number) (stmt_of other.now) }
{
    match other {
        P4Stmt::Verdict(found) => number == *found,
        _ => false,
    }
}

fn same_egress_port(port: &P4Expr, other: &P4Stmt) -> bool
    ensures { result ≡ spec.same_stmt (egress_port (expr_of port.now)) (stmt_of other.now) }
{
    match other {
        P4Stmt::EgressPort(found) => same_expr(port, found),
        _ => false,
    }
}

fn same_group(number: &P4Expr, other: &P4Stmt) -> bool
    ensures { result ≡ spec.same_stmt (group (expr_of number.now)) (stmt_of other.now) }
{
    match other {
        P4Stmt::Group(found) => same_expr(number, found),
        _ => false,
    }
}

#[cycle(same_stmts)]
fn same_stmt(stmt: &P4Stmt, other: &P4Stmt) -> bool
    ensures { result ≡ spec.same_stmt (stmt_of stmt.now) (stmt_of other.now) }
{
    match stmt {
        P4Stmt::SetMeta(index, value) => same_set_meta(*index, value, other),
        P4Stmt::SetField(header, field, value) => same_set_field(*header, *field, value, other),
        P4Stmt::Apply(number) => same_apply(*number, other),
        P4Stmt::If(condition, first) => match other {
            P4Stmt::If(found, block) => same_expr(condition, found) && same_stmts(first, block),
            _ => false,
        },
        P4Stmt::IfElse(condition, first, second) => match other {
            P4Stmt::IfElse(found, block, rest) => {
                same_expr(condition, found) && same_stmts(first, block) && same_stmts(second, rest)
            }
            _ => false,
        },
        P4Stmt::Verdict(number) => same_verdict(*number, other),
        P4Stmt::EgressPort(port) => same_egress_port(port, other),
        P4Stmt::Group(number) => same_group(number, other),
        P4Stmt::Return => match other {
            P4Stmt::Return => true,
            _ => false,
        },
    }
}

/// Whether the statements are the same trees, one by one.
#[cycle(same_stmts)]
pub(crate) fn same_stmts(stmts: &[P4Stmt], others: &[P4Stmt]) -> bool
    ensures { result ≡ spec.same_block (block_of (map stmt_of stmts.now))
        (block_of (map stmt_of others.now)) }
{
    let mut rest = others;
    for stmt in stmts {
        match rest.split_first() {
            None => return false,
            Some((other, more)) => {
                if !same_stmt(stmt, other) {
                    return false;
                }
                rest = more;
            }
        }
    }
    rest.is_empty()
}
