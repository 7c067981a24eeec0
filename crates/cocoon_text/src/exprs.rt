//! Expressions, by how tightly their operators bind.
ghost use Rattle.std.specs.Prelude.{◌≡◌, ◌+◌, ◌<◌, ◌≤◌, ◌^◌, IfOk, length, map};
ghost use Rattle.cocoon_num.specs.Reads.{of_expr, of_unary, of_post, of_prim, of_cmp};
ghost use Rattle.cocoon_num.specs.Tree as tree;
ghost use Rattle.cocoon_text.specs.Kinds.{mark_text};
ghost use Rattle.cocoon_syntax.specs.TreeOf.{binary_of, expr_of, exprs_of, kind_of, name_of, unary_of};
ghost use Rattle.cocoon_text.specs.ExprPhrases.{RangeAt, leaf_from, level_of, name_or_call, part_of, sides_from, sides_of, then_mark};
ghost use Rattle.parsing.specs.PlainParser as parser;
ghost use Rattle.cocoon_text.specs.Agrees.{Moves, Agrees, AgreesDeep};
ghost use Rattle.parsing.specs.Joins.{Makes};

use crate::joins::then;
use crate::names::path;
use crate::operators::Chain;
use crate::source::Source;
use crate::token::{Keyword, Mark};
use cocoon_num::{NoMemory, Text};
use cocoon_syntax::{BinaryOp, Expr, ExprKind, Name, UnaryOp};
use parsing::{Stop, both};
use std::alloc::Global;

/// An expression of any form: `a => b`, or what binds tighter.
#[cycle(expr)]
pub fn expr(alloc: Global, source: &Source, pos: usize) -> Result<(Expr, usize), Stop>
    ensures agrees { AgreesDeep (λ n. parser.expr_from source.now n of_expr pos) expr_of result }
    ensures moves { Moves pos (length source.now) result }
{
    let (left, next) = chain(alloc, source, Chain::Or, pos)?;
    match source.implied(next) {
        Some(op) => binary(alloc, op, left, expr(alloc, source, next + 1)),
        None => Ok((left, next)),
    }
}

/// Parts with operators of one level between, grouped to the left.
#[cycle(expr)]
fn chain(alloc: Global, source: &Source, level: Chain, pos: usize) -> Result<(Expr, usize), Stop>
    ensures agrees { AgreesDeep
        (λ n. parser.expr_from source.now n (level_of level) pos) expr_of result }
    ensures moves { Moves pos (length source.now) result }
{
    let (mut left, mut next) = part(alloc, source, level, pos)?;
    'chain: while let Some(op) = source.chained(next, level) {
        let right = part(alloc, source, level, next + 1);
        let (both, after) = binary(alloc, op, left, right)?;
        left = both;
        next = after;
    }
    Ok((left, next))
}

/// A part of a chain.
#[cycle(expr)]
fn part(alloc: Global, source: &Source, level: Chain, pos: usize) -> Result<(Expr, usize), Stop>
    ensures agrees { AgreesDeep
        (λ n. parser.expr_from source.now n (part_of level) pos) expr_of result }
    ensures moves { Moves pos (length source.now) result }
{
    match level {
        Chain::Or => chain(alloc, source, Chain::And, pos),
        Chain::And => comparison(alloc, source, pos),
        Chain::Concat => chain(alloc, source, Chain::Bits, pos),
        Chain::Bits => chain(alloc, source, Chain::Sum, pos),
        Chain::Sum => unary(alloc, source, pos),
    }
}

/// One comparison at most.
#[cycle(expr)]
fn comparison(alloc: Global, source: &Source, pos: usize) -> Result<(Expr, usize), Stop>
    ensures agrees { AgreesDeep (λ n. parser.expr_from source.now n of_cmp pos) expr_of result }
    ensures moves { Moves pos (length source.now) result }
{
    let (left, next) = chain(alloc, source, Chain::Concat, pos)?;
    match source.compared(next) {
        Some(op) => binary(
            alloc,
            op,
            left,
            chain(alloc, source, Chain::Concat, next + 1),
        ),
        None => Ok((left, next)),
    }
}

/// `~a`, `not a`, or what binds tighter.
#[cycle(expr)]
fn unary(alloc: Global, source: &Source, pos: usize) -> Result<(Expr, usize), Stop>
    ensures agrees { AgreesDeep (λ n. parser.expr_from source.now n of_unary pos) expr_of result }
    ensures moves { Moves pos (length source.now) result }
{
    if source.is_mark(pos, Mark::Flip) {
        let inner = unary(alloc, source, pos + 1);
        return with_unary(alloc, source.token_index(pos), UnaryOp::Flip, inner);
    }
    if source.is_keyword(pos, Keyword::Not) {
        let inner = unary(alloc, source, pos + 1);
        return with_unary(alloc, source.token_index(pos), UnaryOp::Not, inner);
    }
    sliced(alloc, source, pos)
}

/// A primary, and slices of it: `a[high:low]`.
#[cycle(expr)]
fn sliced(alloc: Global, source: &Source, pos: usize) -> Result<(Expr, usize), Stop>
    ensures agrees { AgreesDeep (λ n. parser.expr_from source.now n of_post pos) expr_of result }
    ensures moves { Moves pos (length source.now) result }
{
    let (mut number, mut next) = primary(alloc, source, pos)?;
    'slices: while source.is_mark(next, Mark::OpenBracket) {
        let (high, low) = range(source, next)?;
        number = slice(alloc, number, high, low)?;
        next += 5;
    }
    Ok((number, next))
}

/// A name, a call, a field, a literal, a truth value, or an expression in brackets.
#[cycle(expr)]
fn primary(alloc: Global, source: &Source, pos: usize) -> Result<(Expr, usize), Stop>
    ensures agrees { AgreesDeep (λ n. parser.expr_from source.now n of_prim pos) expr_of result }
    ensures moves { Moves pos (length source.now) result }
{
    if source.is_mark(pos, Mark::OpenParen) {
        return bracketed(alloc, source, pos);
    }
    if source.is_name(pos) {
        return variable_or_call(alloc, source, pos);
    }
    leaf(alloc, source, pos)
}

/// An expression in brackets, or `(a ? b : c)`, from the open bracket on.
#[cycle(expr)]
fn bracketed(alloc: Global, source: &Source, pos: usize) -> Result<(Expr, usize), Stop>
    requires small { pos < 2 ^ 32 }
    requires within { pos < length source.now }
    ensures agrees { AgreesDeep (λ n. parser.after (parser.expr_from source.now n of_expr (pos + 1))
        (parser.bracketed source.now (parser.expr_from source.now n of_expr))) expr_of result }
    ensures moves { Moves pos (length source.now) result }
{
    let (first, next) = expr(alloc, source, pos + 1)?;
    if source.is_mark(next, Mark::Question) {
        return picked(alloc, source, first, next);
    }
    then(source, Ok((first, next)), Mark::CloseParen)
}

/// What follows the condition of a choice, from the question mark on.
#[cycle(expr)]
fn picked(
    alloc: Global,
    source: &Source,
    condition: Expr,
    pos: usize,
) -> Result<(Expr, usize), Stop>
    requires small { pos < 2 ^ 32 }
    requires within { pos < length source.now }
    ensures agrees { AgreesDeep (λ n. parser.after (parser.expr_from source.now n of_expr (pos + 1))
        (parser.picked source.now (parser.expr_from source.now n of_expr) (expr_of condition)))
        expr_of result }
    ensures moves { Moves pos (length source.now) result }
{
    pick(alloc, condition, sides(alloc, source, pos + 1))
}

/// `a : b)`: both sides of a choice.
#[cycle(expr)]
fn sides(alloc: Global, source: &Source, pos: usize) -> Result<((Expr, Expr), usize), Stop>
    ensures agrees { AgreesDeep
        (λ n. sides_from source.now (parser.expr_from source.now n of_expr) pos) sides_of result }
    ensures moves { Moves pos (length source.now) result }
{
    let (first, next) = expr_then(alloc, source, pos, Mark::Colon)?;
    both(first, expr_then(alloc, source, next, Mark::CloseParen))
}

/// An expression, and this mark after it.
#[cycle(expr)]
pub fn expr_then(
    alloc: Global,
    source: &Source,
    pos: usize,
    mark: Mark,
) -> Result<(Expr, usize), Stop>
    ensures agrees { AgreesDeep
        (λ n. then_mark source.now (mark_text mark) (parser.expr_from source.now n of_expr pos))
        expr_of result }
    ensures moves { Moves pos (length source.now) result }
{
    then(source, expr(alloc, source, pos), mark)
}

/// A variable, or a call: `f(a, ..)`.
#[cycle(expr)]
fn variable_or_call(alloc: Global, source: &Source, pos: usize) -> Result<(Expr, usize), Stop>
    ensures agrees { AgreesDeep (λ n. parser.named source.now
        pos (name_or_call source.now (parser.exprs_from source.now n) pos)) expr_of result }
    ensures moves { Moves pos (length source.now) result }
{
    let name = source.name(alloc, pos)?;
    let at = source.token_index(pos);
    if !source.is_mark(pos + 1, Mark::OpenParen) {
        return Ok((variable(at, name.text), pos + 1));
    }
    let args = exprs(alloc, source, pos + 2);
    call(at, name, then(source, args, Mark::CloseParen))
}

/// One or more expressions with commas between.
#[cycle(expr)]
pub fn exprs(alloc: Global, source: &Source, pos: usize) -> Result<(Vec<Expr>, usize), Stop>
    ensures agrees { AgreesDeep
        (λ n. parser.exprs_from source.now n pos) (λ v. exprs_of (map expr_of v.items)) result }
    ensures moves { Moves pos (length source.now) result }
{
    let mut exprs = Vec::new(alloc);
    let (first, mut next) = expr(alloc, source, pos)?;
    exprs.push(first)?;
    'exprs: while source.is_mark(next, Mark::Comma) {
        let (expr, after) = expr(alloc, source, next + 1)?;
        exprs.push(expr)?;
        next = after;
    }
    Ok((exprs, next))
}

/// A literal, a truth value, or a field.
#[tactic(auto, unfolding(parsing::specs::PlainParser::after, parsing::specs::PlainParser::path_from, parsing::specs::PlainParser::reserved))]
fn leaf(alloc: Global, source: &Source, pos: usize) -> Result<(Expr, usize), Stop>
    ensures agrees { Agrees (leaf_from source.now pos) expr_of result }
    ensures moves { Moves pos (length source.now) result }
{
    if let Some(bits) = source.literal(pos) {
        return Ok((
            leaf_at(source.token_index(pos), ExprKind::Lit(bits)),
            pos + 1,
        ));
    }
    if source.is_keyword(pos, Keyword::True) {
        return Ok((
            leaf_at(source.token_index(pos), ExprKind::Truth(true)),
            pos + 1,
        ));
    }
    if source.is_keyword(pos, Keyword::False) {
        return Ok((
            leaf_at(source.token_index(pos), ExprKind::Truth(false)),
            pos + 1,
        ));
    }
    let ((header, field), next) = path(alloc, source, pos)?;
    Ok((
        leaf_at(source.token_index(pos), ExprKind::Field(header, field)),
        next,
    ))
}

fn leaf_at(at: u32, kind: ExprKind) -> Expr
    ensures { expr_of result ≡ kind_of kind at }
{
    Expr { at, kind }
}

/// `[high:low]`, from the open bracket on: the highest bit and the lowest.
#[tactic(auto, unfolding(parsing::specs::PlainParser::numbered, parsing::specs::PlainParser::marked))]
fn range(source: &Source, pos: usize) -> Result<(u32, u32), Stop>
    requires { pos < 2 ^ 32 }
    ensures agrees { RangeAt source.now pos result }
    ensures within { IfOk
        result (λ _. (pos + 5 ≤ length source.now) × (length source.now ≤ 2 ^ 32)) }
{
    let high = source.number(pos + 1)?;
    source.expect(pos + 2, Mark::Colon)?;
    let low = source.number(pos + 3)?;
    source.expect(pos + 4, Mark::CloseBracket)?;
    Ok((high, low))
}

// ---- nodes

fn variable(at: u32, name: Text) -> Expr
    ensures { expr_of result ≡ tree.name at name }
{
    Expr {
        at,
        kind: ExprKind::Name(name),
    }
}

fn call(
    at: u32,
    function: Name,
    args: Result<(Vec<Expr>, usize), Stop>,
) -> Result<(Expr, usize), Stop>
    ensures { Makes (λ v. exprs_of (map expr_of v.items)) expr_of
        (λ xs. tree.call at (name_of function) xs) args result }
{
    let (args, end) = args?;
    let kind = ExprKind::Call(function, args);
    Ok((Expr { at, kind }, end))
}

fn binary(
    alloc: Global,
    op: BinaryOp,
    left: Expr,
    right: Result<(Expr, usize), Stop>,
) -> Result<(Expr, usize), Stop>
    ensures { Makes expr_of expr_of (λ b. tree.binary
        (tree.token_index (expr_of left)) (binary_of op) (expr_of left) b) right result }
{
    let (right, end) = right?;
    let at = left.at;
    let (left, right) = boxed(alloc, left, right)?;
    let kind = ExprKind::Binary(op, left, right);
    Ok((Expr { at, kind }, end))
}

/// Two expressions, each in a box.
fn boxed(alloc: Global, first: Expr, second: Expr) -> Result<(Box<Expr>, Box<Expr>), NoMemory>
    ensures { IfOk result (λ both. (both.0.value ≡ first) × (both.1.value ≡ second)) }
{
    let first = Box::new(alloc, first)?;
    let second = Box::new(alloc, second)?;
    Ok((first, second))
}

fn with_unary(
    alloc: Global,
    at: u32,
    op: UnaryOp,
    inner: Result<(Expr, usize), Stop>,
) -> Result<(Expr, usize), Stop>
    ensures { Makes expr_of expr_of (λ a. tree.unary at (unary_of op) a) inner result }
{
    let (inner, end) = inner?;
    let kind = ExprKind::Unary(op, Box::new(alloc, inner)?);
    Ok((Expr { at, kind }, end))
}

fn slice(alloc: Global, number: Expr, high: u32, low: u32) -> Result<Expr, NoMemory>
    ensures { IfOk result (λ e. expr_of e ≡
        tree.slice (tree.token_index (expr_of number)) (expr_of number) high low) }
{
    let at = number.at;
    let kind = ExprKind::Slice(Box::new(alloc, number)?, high, low);
    Ok(Expr { at, kind })
}

fn pick(
    alloc: Global,
    condition: Expr,
    sides: Result<((Expr, Expr), usize), Stop>,
) -> Result<(Expr, usize), Stop>
    ensures { Makes sides_of expr_of (λ p. tree.pick
        (tree.token_index (expr_of condition)) (expr_of condition) p.first p.second) sides result }
{
    let ((first, second), end) = sides?;
    let at = condition.at;
    let condition = Box::new(alloc, condition)?;
    let (first, second) = boxed(alloc, first, second)?;
    let kind = ExprKind::Pick(condition, first, second);
    Ok((Expr { at, kind }, end))
}
