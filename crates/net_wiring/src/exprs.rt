//! Expressions of P4 programs compared as trees.
ghost use Rattle.std.specs.Prelude.{◌≡◌};
ghost use Rattle.p4_ir.specs.P4Tree.{p_field, p_lit, p_meta, p_port, p_rid, p_slice, p_truth, p_unary};
ghost use Rattle.p4_ir.specs.Program.{binary_of, expr_of, unary_of};
ghost use Rattle.net_wiring.specs.SameTrees as spec;

use cocoon_num::Bits;
use p4_ir::{P4Binary, P4Expr, P4Unary};

fn is_truth(truth: bool, other: bool) -> bool
    ensures { result ≡ spec.same_truth truth other }
{
    truth == other
}

fn is_unary(op: P4Unary, other: P4Unary) -> bool
    ensures { result ≡ spec.same_unary (unary_of op) (unary_of other) }
{
    match op {
        P4Unary::Flip => match other {
            P4Unary::Flip => true,
            P4Unary::Not => false,
        },
        P4Unary::Not => match other {
            P4Unary::Flip => false,
            P4Unary::Not => true,
        },
    }
}

fn code(op: P4Binary) -> u32
    ensures { result ≡ spec.code_of (binary_of op) }
{
    match op {
        P4Binary::Add => 0,
        P4Binary::Sub => 1,
        P4Binary::BitAnd => 2,
        P4Binary::BitOr => 3,
        P4Binary::BitXor => 4,
        P4Binary::Concat => 5,
        P4Binary::Equal => 6,
        P4Binary::Unequal => 7,
        P4Binary::Less => 8,
        P4Binary::LessEqual => 9,
        P4Binary::Greater => 10,
        P4Binary::GreaterEqual => 11,
        P4Binary::And => 12,
        P4Binary::Or => 13,
    }
}

fn is_binary(op: P4Binary, other: P4Binary) -> bool
    ensures { result ≡ spec.same_binary (binary_of op) (binary_of other) }
{
    code(op) == code(other)
}

fn same_literal(bits: Bits, other: &P4Expr) -> bool
    ensures { result ≡ spec.same_expr (p_lit bits.width bits.value) (expr_of other.now) }
{
    match other {
        P4Expr::Lit(found) => bits.width == found.width && bits.value == found.value,
        _ => false,
    }
}

fn same_constant(truth: bool, other: &P4Expr) -> bool
    ensures { result ≡ spec.same_expr (p_truth truth) (expr_of other.now) }
{
    match other {
        P4Expr::Truth(found) => is_truth(truth, *found),
        _ => false,
    }
}

fn same_meta(index: u32, other: &P4Expr) -> bool
    ensures { result ≡ spec.same_expr (p_meta index) (expr_of other.now) }
{
    match other {
        P4Expr::Meta(found) => index == *found,
        _ => false,
    }
}

fn is_port(expr: &P4Expr) -> bool
    ensures { result ≡ spec.same_expr p_port (expr_of expr.now) }
{
    match expr {
        P4Expr::Port => true,
        _ => false,
    }
}

fn is_rid(expr: &P4Expr) -> bool
    ensures { result ≡ spec.same_expr p_rid (expr_of expr.now) }
{
    match expr {
        P4Expr::Rid => true,
        _ => false,
    }
}

fn same_field(header: u32, field: u32, other: &P4Expr) -> bool
    ensures { result ≡ spec.same_expr (p_field header field) (expr_of other.now) }
{
    match other {
        P4Expr::Field(found, entry) => header == *found && field == *entry,
        _ => false,
    }
}

/// Whether the expressions are the same tree.
#[cycle(same)]
pub(crate) fn same_expr(expr: &P4Expr, other: &P4Expr) -> bool
    ensures { result ≡ spec.same_expr (expr_of expr.now) (expr_of other.now) }
{
    match expr {
        P4Expr::Lit(bits) => same_literal(*bits, other),
        P4Expr::Truth(truth) => same_constant(*truth, other),
        P4Expr::Meta(index) => same_meta(*index, other),
        P4Expr::Field(header, field) => same_field(*header, *field, other),
        P4Expr::Port => is_port(other),
        P4Expr::Rid => is_rid(other),
        P4Expr::Unary(op, a) => same_unary(*op, a, other),
        P4Expr::Binary(op, left, right) => match other {
            P4Expr::Binary(found, a, b) => {
                is_binary(*op, *found) && same_expr(left, a) && same_expr(right, b)
            }
            _ => false,
        },
        P4Expr::Slice(a, high, low) => same_slice(a, *high, *low, other),
        P4Expr::Pick(condition, first, second) => match other {
            P4Expr::Pick(c, a, b) => {
                same_expr(condition, c) && same_expr(first, a) && same_expr(second, b)
            }
            _ => false,
        },
    }
}

#[cycle(same)]
fn same_unary(op: P4Unary, a: &P4Expr, other: &P4Expr) -> bool
    ensures { result ≡ spec.same_expr (p_unary (unary_of op) (expr_of a.now)) (expr_of other.now) }
{
    match other {
        P4Expr::Unary(found, b) => is_unary(op, *found) && same_expr(a, b),
        _ => false,
    }
}

#[cycle(same)]
fn same_slice(a: &P4Expr, high: u8, low: u8, other: &P4Expr) -> bool
    ensures { result ≡ spec.same_expr (p_slice (expr_of a.now) high low) (expr_of other.now) }
{
    match other {
        P4Expr::Slice(b, top, bottom) => same_expr(a, b) && high == *top && low == *bottom,
        _ => false,
    }
}
