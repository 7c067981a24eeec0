//! Expressions. Each operation stands in brackets of its own.
ghost use Rattle.std.specs.Prelude.{◌≡◌, ◌+◌, ◌<◌, ◌≤◌, [], ◌∷◌, None, codes, false, length, slice_get, true, IfOk, IsSome, ◌^◌};
ghost use Rattle.cocoon_num.specs.Tokens.{mark as the_kind};
ghost use Rattle.p4_parse.specs.Kinds.{mark_text};
ghost use Rattle.p4_ir.specs.Program.{unary_of};
ghost use Rattle.p4_texts.specs.Machine.{an_expr, to_close, to_colon};
ghost use Rattle.p4_texts.specs.Written as written;
ghost use Rattle.p4_texts.specs.Written.{expr_then};
ghost use Rattle.p4_texts.specs.TreeOf.{expr_of};
ghost use Rattle.p4_parse.specs.Phrases.{ExprAt, OpenedAt, Phrase, dotted_goals, dotted_then, is_mark, literal_in, mark_in, operator_at, path_goals, path_then, range_goals, range_then, sides_goals, sides_of, sides_then};
ghost use Rattle.parsing.specs.Joins.{Makes};

use crate::Mark;
use crate::joins::then;
use crate::source::{Source, operation};
use cocoon_num::Text;
use p4_ir::{P4Binary, P4Unary};
use p4_texts::written::WrittenExpr;
use parsing::{Stop, both};
use std::alloc::Global;

/// An expression, with all slices.
#[cycle(expr)]
pub fn expr(alloc: Global, source: &Source, pos: usize) -> Result<(WrittenExpr, usize), Stop>
    requires { pos ≤ length source.now }
    ensures is { ExprAt source.now pos result }
    ensures whole { IfOk result (λ r. is_mark (codes "[") (slice_get source.now r.1) ≡ false) }
{
    let (mut expr, mut next) = primary(alloc, source, pos)?;
    'slices: while source.is_mark(next, Mark::OpenBracket) {
        let ((high, low), after) = range(source, next)?;
        expr = WrittenExpr::Slice(Box::new(alloc, expr)?, high, low);
        next = after;
    }
    Ok((expr, next))
}

/// What an expression begins with, up to its slices.
#[cycle(expr)]
fn primary(alloc: Global, source: &Source, pos: usize) -> Result<(WrittenExpr, usize), Stop>
    requires { pos ≤ length source.now }
    ensures { ExprAt source.now pos result }
{
    if let Some(bits) = source.literal(pos) {
        return Ok((WrittenExpr::Lit(bits), pos + 1));
    }
    if source.is_mark(pos, Mark::OpenParen) {
        return bracketed(alloc, source, pos + 1);
    }
    leaf(alloc, source, pos)
}

/// What stands in brackets, up to and with `)`.
#[cycle(expr)]
fn bracketed(alloc: Global, source: &Source, pos: usize) -> Result<(WrittenExpr, usize), Stop>
    requires { pos ≤ length source.now }
    ensures { OpenedAt source.now pos result }
{
    if source.is_mark(pos, Mark::Flip) {
        return unary(alloc, P4Unary::Flip, operand(alloc, source, pos + 1));
    }
    if source.is_mark(pos, Mark::Not) {
        return unary(alloc, P4Unary::Not, operand(alloc, source, pos + 1));
    }
    let (left, next) = expr(alloc, source, pos)?;
    match operator(source, next) {
        Some(op) => binary(alloc, op, left, operand(alloc, source, next + 1)),
        None => pick(alloc, left, sides(alloc, source, next)),
    }
}

/// An expression and `)`.
#[cycle(expr)]
pub fn operand(alloc: Global, source: &Source, pos: usize) -> Result<(WrittenExpr, usize), Stop>
    requires { pos ≤ length source.now }
    ensures { Phrase (an_expr to_close ∷ []) (λ e ks. expr_then (expr_of e)
        (the_kind (codes ")") ∷ ks)) source.now pos result }
{
    then(source, expr(alloc, source, pos), Mark::CloseParen)
}

/// An expression and `:`.
#[cycle(expr)]
fn choice(alloc: Global, source: &Source, pos: usize) -> Result<(WrittenExpr, usize), Stop>
    requires { pos ≤ length source.now }
    ensures { Phrase (an_expr to_colon ∷ []) (λ e ks. expr_then (expr_of e)
        (the_kind (codes ":") ∷ ks)) source.now pos result }
{
    then(source, expr(alloc, source, pos), Mark::Colon)
}

/// `? A : B)`
#[cycle(expr)]
fn sides(
    alloc: Global,
    source: &Source,
    pos: usize,
) -> Result<((WrittenExpr, WrittenExpr), usize), Stop>
    requires { pos ≤ length source.now }
    ensures { Phrase sides_goals sides_then source.now pos result }
{
    let start = source.expect(pos, Mark::Question)?;
    let (first, colon) = choice(alloc, source, start)?;
    both(first, operand(alloc, source, colon))
}

/// The operator at a token index.
fn operator(source: &Source, pos: usize) -> Option<P4Binary>
    ensures is { result ≡ operator_at (mark_in (slice_get source.now pos)) }
    ensures within { IsSome result → (pos < length source.now) × (length source.now ≤ 2 ^ 32) }
{
    match source.mark(pos) {
        Some(mark) => operation(mark),
        None => None,
    }
}

/// `[H:L]`
fn range(source: &Source, pos: usize) -> Result<((u32, u32), usize), Stop>
    requires { pos ≤ length source.now }
    ensures { Phrase range_goals range_then source.now pos result }
{
    let open = source.expect(pos, Mark::OpenBracket)?;
    let (high, after_high) = source.number(open)?;
    let colon = source.expect(after_high, Mark::Colon)?;
    let (low, after_low) = source.number(colon)?;
    let end = source.expect(after_low, Mark::CloseBracket)?;
    Ok(((high, low), end))
}

/// A truth value, `port`, `rid`, a meta field or a field of a header.
fn leaf(alloc: Global, source: &Source, pos: usize) -> Result<(WrittenExpr, usize), Stop>
    requires within { pos ≤ length source.now }
    requires no_literal { literal_in (slice_get source.now pos) ≡ None }
    requires no_bracket { is_mark (codes "(") (slice_get source.now pos) ≡ false }
    ensures { ExprAt source.now pos result }
{
    if source.is_word(pos, "true") {
        return Ok((WrittenExpr::Truth(true), pos + 1));
    }
    if source.is_word(pos, "false") {
        return Ok((WrittenExpr::Truth(false), pos + 1));
    }
    if source.is_word(pos, "port") {
        return Ok((WrittenExpr::Port, pos + 1));
    }
    if source.is_word(pos, "rid") {
        return Ok((WrittenExpr::Rid, pos + 1));
    }
    if source.is_word(pos, "m") {
        let (name, end) = dotted(alloc, source, pos + 1)?;
        return Ok((WrittenExpr::Meta(name), end));
    }
    if source.is_word(pos, "h") {
        let ((header, field), end) = path(alloc, source, pos + 1)?;
        return Ok((WrittenExpr::Field(header, field), end));
    }
    Err(Stop::Unexpected(pos))
}

/// `.NAME`
pub fn dotted(alloc: Global, source: &Source, pos: usize) -> Result<(Text, usize), Stop>
    requires { pos ≤ length source.now }
    ensures { Phrase dotted_goals dotted_then source.now pos result }
{
    let dot = source.expect(pos, Mark::Dot)?;
    source.name(alloc, dot)
}

/// `.NAME.NAME`
pub fn path(alloc: Global, source: &Source, pos: usize) -> Result<((Text, Text), usize), Stop>
    requires { pos ≤ length source.now }
    ensures { Phrase path_goals path_then source.now pos result }
{
    let (first, next) = dotted(alloc, source, pos)?;
    both(first, dotted(alloc, source, next))
}

fn unary(
    alloc: Global,
    op: P4Unary,
    operand: Result<(WrittenExpr, usize), Stop>,
) -> Result<(WrittenExpr, usize), Stop>
    ensures { Makes expr_of expr_of (λ a. written.w_unary (unary_of op) a) operand result }
{
    let (operand, end) = operand?;
    Ok((WrittenExpr::Unary(op, Box::new(alloc, operand)?), end))
}

fn binary(
    alloc: Global,
    op: P4Binary,
    left: WrittenExpr,
    right: Result<(WrittenExpr, usize), Stop>,
) -> Result<(WrittenExpr, usize), Stop>
    ensures { Makes expr_of expr_of (λ b. written.w_binary op (expr_of left) b) right result }
{
    let (right, end) = right?;
    let left = Box::new(alloc, left)?;
    Ok((WrittenExpr::Binary(op, left, Box::new(alloc, right)?), end))
}

fn pick(
    alloc: Global,
    condition: WrittenExpr,
    sides: Result<((WrittenExpr, WrittenExpr), usize), Stop>,
) -> Result<(WrittenExpr, usize), Stop>
    ensures { Makes sides_of expr_of
        (λ p. written.w_pick (expr_of condition) p.first p.second) sides result }
{
    let ((first, second), end) = sides?;
    let condition = Box::new(alloc, condition)?;
    let first = Box::new(alloc, first)?;
    Ok((
        WrittenExpr::Pick(condition, first, Box::new(alloc, second)?),
        end,
    ))
}
