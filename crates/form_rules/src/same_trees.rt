//! Expressions and parameters that are the same as trees, token indices aside.
ghost use Rattle.std.specs.Prelude.{◌≡◌, ◌==◌, ◌&&◌, map};
ghost use Rattle.cocoon_num.specs.Names.{same_name};
ghost use Rattle.cocoon_num.specs.Reads.{operator};
ghost use Rattle.cocoon_num.specs.Tokens.{same_kind};
ghost use Rattle.cocoon_num.specs.Tree as tree;
ghost use Rattle.cocoon_syntax.specs.TreeOf.{binary_of, expr_of, exprs_of, name_of, param_of, unary_of};
ghost use Rattle.cocoon_types.specs.SameTrees as spec;
ghost use Rattle.form_rules.specs.Operators.{code_of};

use cocoon_num::Bits;
use cocoon_syntax::{BinaryOp, Expr, ExprKind, Name, Param, UnaryOp};

/// Whether two names have the same bytes.
pub(crate) fn is_named(name: &[u8], other: &[u8]) -> bool
    ensures { result ≡ same_name name.now other.now }
{
    name == other
}

/// Whether two truth values are one.
pub(crate) fn is_truth(truth: bool, other: bool) -> bool
    ensures { result ≡ spec.same_truth truth other }
{
    truth == other
}

fn is_unary(op: UnaryOp, other: UnaryOp) -> bool
    ensures { result ≡ spec.same_unary (unary_of op) (unary_of other) }
{
    match op {
        UnaryOp::Flip => match other {
            UnaryOp::Flip => true,
            UnaryOp::Not => false,
        },
        UnaryOp::Not => match other {
            UnaryOp::Flip => false,
            UnaryOp::Not => true,
        },
    }
}

fn code(op: BinaryOp) -> u32
    ensures { result ≡ code_of (binary_of op) }
{
    match op {
        BinaryOp::Add => 0,
        BinaryOp::Sub => 1,
        BinaryOp::BitAnd => 2,
        BinaryOp::BitOr => 3,
        BinaryOp::BitXor => 4,
        BinaryOp::Concat => 5,
        BinaryOp::Equal => 6,
        BinaryOp::Unequal => 7,
        BinaryOp::Less => 8,
        BinaryOp::LessEqual => 9,
        BinaryOp::Greater => 10,
        BinaryOp::GreaterEqual => 11,
        BinaryOp::And => 12,
        BinaryOp::Or => 13,
        BinaryOp::Implies => 14,
    }
}

/// Whether two operators are one.
pub(crate) fn is_binary(op: BinaryOp, other: BinaryOp) -> bool
    ensures { result ≡ same_kind (operator (binary_of op)) (operator (binary_of other)) }
{
    code(op) == code(other)
}

fn same_variable(name: &[u8], other: &Expr) -> bool
    ensures { result ≡ spec.same_expr (tree.name 0 name.now) (expr_of other.now) }
{
    match &other.kind {
        ExprKind::Name(text) => is_named(name, text.bytes()),
        _ => false,
    }
}

fn same_field(header: &Name, field: &Name, other: &Expr) -> bool
    ensures { result ≡ spec.same_expr (tree.field 0 (name_of header.now) (name_of field.now))
        (expr_of other.now) }
{
    match &other.kind {
        ExprKind::Field(other_header, other_field) => {
            is_named(header.text.bytes(), other_header.text.bytes())
                && is_named(field.text.bytes(), other_field.text.bytes())
        }
        _ => false,
    }
}

fn same_number(bits: Bits, other: &Expr) -> bool
    ensures { result ≡ spec.same_expr (tree.lit 0 bits.width bits.value) (expr_of other.now) }
{
    match &other.kind {
        ExprKind::Lit(number) => bits.width == number.width && bits.value == number.value,
        _ => false,
    }
}

fn same_constant(truth: bool, other: &Expr) -> bool
    ensures { result ≡ spec.same_expr (tree.true_or_false 0 truth) (expr_of other.now) }
{
    match &other.kind {
        ExprKind::Truth(value) => is_truth(truth, *value),
        _ => false,
    }
}

/// Whether two expressions are the same as trees.
#[cycle(same)]
pub(crate) fn is_same(expr: &Expr, other: &Expr) -> bool
    ensures { result ≡ spec.same_expr (expr_of expr.now) (expr_of other.now) }
{
    match &expr.kind {
        ExprKind::Name(name) => same_variable(name.bytes(), other),
        ExprKind::Field(header, field) => same_field(header, field, other),
        ExprKind::Lit(bits) => same_number(*bits, other),
        ExprKind::Truth(truth) => same_constant(*truth, other),
        ExprKind::Call(function, args) => same_call(function, args, other),
        ExprKind::Unary(op, a) => same_unary(*op, a, other),
        ExprKind::Binary(op, left, right) => match &other.kind {
            ExprKind::Binary(other_op, a, b) => {
                is_binary(*op, *other_op) && is_same(left, a) && is_same(right, b)
            }
            _ => false,
        },
        ExprKind::Slice(a, high, low) => same_slice(a, *high, *low, other),
        ExprKind::Pick(condition, first, second) => match &other.kind {
            ExprKind::Pick(c, a, b) => {
                is_same(condition, c) && is_same(first, a) && is_same(second, b)
            }
            _ => false,
        },
    }
}

#[cycle(same)]
fn same_call(function: &Name, args: &[Expr], other: &Expr) -> bool
    ensures { result ≡ spec.same_expr
        (tree.call 0 (name_of function.now) (exprs_of (map expr_of args.now))) (expr_of other.now) }
{
    match &other.kind {
        ExprKind::Call(called, others) => {
            is_named(function.text.bytes(), called.text.bytes()) && are_same(args, others)
        }
        _ => false,
    }
}

#[cycle(same)]
fn same_unary(op: UnaryOp, a: &Expr, other: &Expr) -> bool
    ensures { result ≡ spec.same_expr (tree.unary 0 (unary_of op) (expr_of a.now))
        (expr_of other.now) }
{
    match &other.kind {
        ExprKind::Unary(other_op, b) => is_unary(op, *other_op) && is_same(a, b),
        _ => false,
    }
}

#[cycle(same)]
fn same_slice(a: &Expr, high: u32, low: u32, other: &Expr) -> bool
    ensures { result ≡ spec.same_expr (tree.slice 0 (expr_of a.now) high low) (expr_of other.now) }
{
    match &other.kind {
        ExprKind::Slice(b, other_high, other_low) => {
            is_same(a, b) && high == *other_high && low == *other_low
        }
        _ => false,
    }
}

/// Whether two lists have the same expressions, one by one.
#[cycle(same)]
fn are_same(exprs: &[Expr], others: &[Expr]) -> bool
    ensures { result ≡ spec.same_exprs (exprs_of (map expr_of exprs.now))
        (exprs_of (map expr_of others.now)) }
{
    let mut rest = others;
    for expr in exprs {
        match rest.split_first() {
            None => return false,
            Some((other, more)) => {
                if !is_same(expr, other) {
                    return false;
                }
                rest = more;
            }
        }
    }
    rest.is_empty()
}

fn is_param(param: &Param, other: &Param) -> bool
    ensures { result ≡ (same_name param.now.name.text other.now.name.text
        && (param.now.width == other.now.width)) }
{
    is_named(param.name.text.bytes(), other.name.text.bytes()) && param.width == other.width
}

/// Whether two lists have the same parameters, one by one.
pub(crate) fn same_params(params: &[Param], others: &[Param]) -> bool
    ensures { result ≡ spec.same_params (map param_of params.now) (map param_of others.now) }
{
    let mut rest = others;
    for param in params {
        match rest.split_first() {
            None => return false,
            Some((other, more)) => {
                if !is_param(param, other) {
                    return false;
                }
                rest = more;
            }
        }
    }
    rest.is_empty()
}
