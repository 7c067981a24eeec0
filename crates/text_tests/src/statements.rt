//! Statements as they are written in cases, and blocks of them in braces.
use crate::expressions::{put_expr, put_exprs};
use crate::pieces::{close, put_field, put_name, put_token_index, put_typed};
use case_files::Printer;
use cocoon_syntax::{Stmt, StmtKind};

fn kind_name(kind: &StmtKind) -> &'static str {
    match kind {
        StmtKind::Let(..) => "(let",
        StmtKind::SetField(..) => "(set",
        StmtKind::If(..) => "(if",
        StmtKind::Filter(_) => "(filter",
        StmtKind::HavocVar(..) | StmtKind::HavocField(..) => "(havoc",
        StmtKind::Assume(_) => "(assume",
        StmtKind::Fork(..) => "(fork",
        StmtKind::Send(..) => "(send",
    }
}

#[cycle(stmts)]
fn put_stmt(out: &mut Printer, stmt: &Stmt) {
    out.put(kind_name(&stmt.kind));
    put_token_index(out, stmt.at);
    match &stmt.kind {
        StmtKind::Let(name, width, value) => {
            put_typed(out, name, *width);
            put_expr(out, value);
        }
        StmtKind::SetField(header, field, value) => {
            put_field(out, header, field);
            put_expr(out, value);
        }
        StmtKind::If(condition, first, second) => {
            put_expr(out, condition);
            put_block(out, first);
            put_block(out, second);
        }
        StmtKind::HavocVar(name, width) => put_typed(out, name, *width),
        StmtKind::HavocField(header, field) => put_field(out, header, field),
        StmtKind::Filter(condition) | StmtKind::Assume(condition) => put_expr(out, condition),
        StmtKind::Fork(name, width, condition, body) => {
            put_typed(out, name, *width);
            put_expr(out, condition);
            put_block(out, body);
        }
        StmtKind::Send(role, args) => {
            put_name(out, role);
            put_exprs(out, args);
        }
    }
    close(out);
}

#[cycle(stmts)]
pub fn put_block(out: &mut Printer, stmts: &[Stmt]) {
    out.put(" {");
    for stmt in stmts {
        put_stmt(out, stmt);
    }
    out.put("}");
}
