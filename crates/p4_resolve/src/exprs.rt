//! Expressions: what each means, with its type, and how many tokens it has.
ghost use Rattle.std.specs.Prelude.{◌≡◌, ◌+◌, IfOk};
ghost use Rattle.p4_ir.specs.P4Kinds as rules;
ghost use Rattle.p4_ir.specs.P4Kinds.{Within};
ghost use Rattle.p4_ir.specs.P4Tree as tree;
ghost use Rattle.p4_ir.specs.Program as ir;
ghost use Rattle.p4_kinds.specs.Typed.{sort_of};
ghost use Rattle.p4_texts.specs.Meant as meant;
ghost use Rattle.p4_texts.specs.Meant.{expr_meant};
ghost use Rattle.p4_resolve.specs.Judged.{index};
ghost use Rattle.p4_resolve.specs.Scopes.{Knows};
ghost use Rattle.p4_resolve.specs.Typed.{Means, expr_count};
ghost use Rattle.p4_texts.specs.Written as written;
ghost use Rattle.p4_texts.specs.Written.{ProgramText};
ghost use Rattle.p4_texts.specs.TreeOf.{expr_of};

use crate::pieces::after;
use crate::scope::Scope;
use cocoon_num::{Bits, NoMemory};
use p4_ir::{P4Binary, P4Expr, P4Unary};
use p4_kinds::sort::{Sort, binary_sort, pick_sort, slice_sort, unary_sort, where_allowed};
use p4_texts::written::WrittenExpr;
use std::alloc::Global;

/// An expression with its type.
#[derive(Drop)]
pub(crate) struct Typed {
    pub expr: P4Expr,
    pub sort: Sort,
}

/// The expression with its type, if it has one.
fn with_sort(expr: P4Expr, sort: Option<Sort>) -> Option<Typed>
    ensures { (c : Within) (e : tree.P4Expr) → ir.expr_of expr ≡ e
        → sort_of sort ≡ rules.p4_sort c e → Means c e result }
{
    match sort {
        Some(sort) => Some(Typed { expr, sort }),
        None => None,
    }
}

fn unary_expr(alloc: Global, op: P4Unary, a: P4Expr) -> Result<P4Expr, NoMemory>
    ensures { IfOk result (λ made.
        ir.expr_of made ≡ tree.p_unary (ir.unary_of op) (ir.expr_of a)) }
{
    Ok(P4Expr::Unary(op, Box::new(alloc, a)?))
}

fn binary_expr(alloc: Global, op: P4Binary, a: P4Expr, b: P4Expr) -> Result<P4Expr, NoMemory>
    ensures { IfOk result (λ made.
        ir.expr_of made ≡ tree.p_binary (ir.binary_of op) (ir.expr_of a) (ir.expr_of b)) }
{
    let first = Box::new(alloc, a)?;
    let second = Box::new(alloc, b)?;
    Ok(P4Expr::Binary(op, first, second))
}

fn slice_expr(alloc: Global, a: P4Expr, high: u8, low: u8) -> Result<P4Expr, NoMemory>
    ensures { IfOk result (λ made. ir.expr_of made ≡ tree.p_slice (ir.expr_of a) high low) }
{
    Ok(P4Expr::Slice(Box::new(alloc, a)?, high, low))
}

fn pick_expr(alloc: Global, c: P4Expr, a: P4Expr, b: P4Expr) -> Result<P4Expr, NoMemory>
    ensures { IfOk result (λ made.
        ir.expr_of made ≡ tree.p_pick (ir.expr_of c) (ir.expr_of a) (ir.expr_of b)) }
{
    let condition = Box::new(alloc, c)?;
    let first = Box::new(alloc, a)?;
    let second = Box::new(alloc, b)?;
    Ok(P4Expr::Pick(condition, first, second))
}

fn literal(bits: Bits) -> Option<Typed>
    ensures { (c : Within) → Means c (tree.p_lit bits.width bits.value) result }
{
    with_sort(P4Expr::Lit(bits), Some(Sort::Bits(bits.width)))
}

fn truth(is_true: bool) -> Option<Typed>
    ensures { (c : Within) → Means c (tree.p_truth is_true) result }
{
    with_sort(P4Expr::Truth(is_true), Some(Sort::Truth))
}

/// The port at which a packet entered, in ingress.
fn port(in_ingress: bool) -> Option<Typed>
    ensures { (c : Within) → in_ingress ≡ c.in_ingress → Means c tree.p_port result }
{
    with_sort(P4Expr::Port, where_allowed(in_ingress, 16))
}

/// The number of a copy, in egress.
fn rid(in_ingress: bool) -> Option<Typed>
    ensures { (c : Within) → in_ingress ≡ c.in_ingress → Means c tree.p_rid result }
{
    with_sort(P4Expr::Rid, where_allowed(!in_ingress, 64))
}

fn unary(alloc: Global, op: P4Unary, a: Option<Typed>) -> Result<Option<Typed>, NoMemory>
    ensures { (c : Within) (e : tree.P4Expr) → Means c e a
        → IfOk result (Means c (tree.p_unary (ir.unary_of op) e)) }
{
    match a {
        Some(a) => {
            let sort = unary_sort(op, Some(a.sort));
            let expr = unary_expr(alloc, op, a.expr)?;
            Ok(with_sort(expr, sort))
        }
        None => Ok(None),
    }
}

fn binary(
    alloc: Global,
    op: P4Binary,
    a: Option<Typed>,
    b: Option<Typed>,
) -> Result<Option<Typed>, NoMemory>
    ensures { (c : Within) (d e : tree.P4Expr) → Means c d a → Means c e b
        → IfOk result (Means c (tree.p_binary (ir.binary_of op) d e)) }
{
    match (a, b) {
        (Some(a), Some(b)) => {
            let sort = binary_sort(op, Some(a.sort), Some(b.sort));
            let expr = binary_expr(alloc, op, a.expr, b.expr)?;
            Ok(with_sort(expr, sort))
        }
        _ => Ok(None),
    }
}

/// A slice of which a bound has more than eight bits has no type: no number is so wide.
fn slice(alloc: Global, a: Option<Typed>, high: u32, low: u32) -> Result<Option<Typed>, NoMemory>
    ensures { (c : Within) (e : tree.P4Expr) → Means c e a
        → IfOk result (Means c (tree.p_slice e high low)) }
{
    if high > 255 || low > 255 {
        return Ok(None);
    }
    let (high, low) = (high as u8, low as u8);
    match a {
        Some(a) => {
            let sort = slice_sort(Some(a.sort), high, low);
            let expr = slice_expr(alloc, a.expr, high, low)?;
            Ok(with_sort(expr, sort))
        }
        None => Ok(None),
    }
}

fn pick(
    alloc: Global,
    condition: Option<Typed>,
    a: Option<Typed>,
    b: Option<Typed>,
) -> Result<Option<Typed>, NoMemory>
    ensures { (c : Within) (i d e : tree.P4Expr) → Means c i condition → Means c d a → Means c e b
        → IfOk result (Means c (tree.p_pick i d e)) }
{
    match (condition, a, b) {
        (Some(condition), Some(a), Some(b)) => {
            let sort = pick_sort(Some(condition.sort), Some(a.sort), Some(b.sort));
            let expr = pick_expr(alloc, condition.expr, a.expr, b.expr)?;
            Ok(with_sort(expr, sort))
        }
        _ => Ok(None),
    }
}

fn meta(scope: &Scope, name: &[u8]) -> Option<Typed>
    ensures { (t : ProgramText) (c : Within) → Knows scope.now t c
        → Means c (tree.p_meta (meant.meta_at t name.now)) result }
{
    let index = scope.meta(name);
    with_sort(P4Expr::Meta(index), scope.meta_sort(index))
}

fn field(scope: &Scope, header: &[u8], field: &[u8]) -> Option<Typed>
    ensures { (t : ProgramText) (c : Within) → Knows scope.now t c
        → Means c (expr_meant t (written.w_field header.now field.now)) result }
{
    let header = scope.header(header);
    let field = scope.field(header, field);
    with_sort(
        P4Expr::Field(header, field),
        scope.field_sort(header, field),
    )
}

/// What an expression means, with its type, if it has one.
pub(crate) fn meaning(
    alloc: Global,
    scope: &Scope,
    expr: &WrittenExpr,
) -> Result<Option<Typed>, NoMemory>
    ensures { (t : ProgramText) (c : Within) → Knows scope.now t c
        → IfOk result (Means c (expr_meant t (expr_of expr.now))) }
{
    match expr {
        WrittenExpr::Lit(bits) => Ok(literal(*bits)),
        WrittenExpr::Truth(is_true) => Ok(truth(*is_true)),
        WrittenExpr::Meta(name) => Ok(meta(scope, name.bytes())),
        WrittenExpr::Field(header, name) => Ok(field(scope, header.bytes(), name.bytes())),
        WrittenExpr::Port => Ok(port(scope.in_ingress)),
        WrittenExpr::Rid => Ok(rid(scope.in_ingress)),
        WrittenExpr::Unary(op, a) => unary(alloc, *op, meaning(alloc, scope, a)?),
        WrittenExpr::Binary(op, a, b) => {
            let first = meaning(alloc, scope, a)?;
            let second = meaning(alloc, scope, b)?;
            binary(alloc, *op, first, second)
        }
        WrittenExpr::Slice(a, high, low) => slice(alloc, meaning(alloc, scope, a)?, *high, *low),
        WrittenExpr::Pick(condition, a, b) => {
            let condition = meaning(alloc, scope, condition)?;
            let first = meaning(alloc, scope, a)?;
            let second = meaning(alloc, scope, b)?;
            pick(alloc, condition, first, second)
        }
    }
}

/// The token after an expression that begins at this one.
pub(crate) fn after_expr(at: u32, expr: &WrittenExpr) -> u32
    ensures { result ≡ index (at + expr_count (expr_of expr.now)) }
{
    match expr {
        WrittenExpr::Lit(_) => after(at, 1),
        WrittenExpr::Truth(_) => after(at, 1),
        WrittenExpr::Meta(_) => after(at, 3),
        WrittenExpr::Field(_, _) => after(at, 5),
        WrittenExpr::Port => after(at, 1),
        WrittenExpr::Rid => after(at, 1),
        WrittenExpr::Unary(_, a) => after(after_expr(at, a), 3),
        WrittenExpr::Binary(_, a, b) => after(after_expr(after_expr(at, a), b), 3),
        WrittenExpr::Slice(a, _, _) => after(after_expr(at, a), 5),
        WrittenExpr::Pick(condition, a, b) => {
            let condition = after_expr(at, condition);
            after(after_expr(after_expr(condition, a), b), 4)
        }
    }
}
