//! Expressions as they are written in cases, each behind a blank.
use crate::pieces::{
    close, open, open_operator, put_bits, put_field, put_name, put_number, put_text,
    put_token_index,
};
use case_files::Printer;
use cocoon_syntax::{Expr, ExprKind};

#[cycle(exprs)]
pub fn put_expr(out: &mut Printer, expr: &Expr) {
    match &expr.kind {
        ExprKind::Name(text) => {
            out.put(" ");
            put_text(out, text, expr.at);
        }
        ExprKind::Lit(bits) => {
            out.put(" ");
            put_bits(out, bits);
            put_token_index(out, expr.at);
        }
        ExprKind::Truth(truth) => {
            out.put(" ");
            out.put_debug(truth);
            put_token_index(out, expr.at);
        }
        _ => put_node(out, expr.at, &expr.kind),
    }
}

/// An expression of several tokens.
#[cycle(exprs)]
fn put_node(out: &mut Printer, index: u32, kind: &ExprKind) {
    match kind {
        ExprKind::Field(header, field) => {
            open(out, "pkt", index);
            put_field(out, header, field);
        }
        ExprKind::Call(function, args) => {
            open(out, "call", index);
            put_name(out, function);
            put_exprs(out, args);
        }
        ExprKind::Unary(op, a) => {
            open_operator(out, op, index);
            put_expr(out, a);
        }
        ExprKind::Binary(op, left, right) => {
            open_operator(out, op, index);
            put_expr(out, left);
            put_expr(out, right);
        }
        ExprKind::Slice(a, high, low) => {
            open(out, "slice", index);
            put_expr(out, a);
            out.put(" ");
            put_number(out, *high);
            out.put(" ");
            put_number(out, *low);
        }
        ExprKind::Pick(condition, first, second) => {
            open(out, "pick", index);
            put_expr(out, condition);
            put_expr(out, first);
            put_expr(out, second);
        }
        _ => {}
    }
    close(out);
}

#[cycle(exprs)]
pub fn put_exprs(out: &mut Printer, exprs: &[Expr]) {
    for expr in exprs {
        put_expr(out, expr);
    }
}
