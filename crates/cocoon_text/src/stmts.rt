//! Statements and blocks.
ghost use Rattle.std.specs.Prelude.{◌+◌, ◌<◌, ◌≤◌, ◌^◌, length, map};
ghost use Rattle.cocoon_num.specs.Reads.{of_expr};
ghost use Rattle.cocoon_num.specs.Tree as tree;
ghost use Rattle.cocoon_syntax.specs.TreeOf.{block_of, expr_of, exprs_of, name_of, param_of, stmt_of};
ghost use Rattle.cocoon_text.specs.Phrases.{assigned_from, choosing_from, choosing_of, guarded_from, guarded_of, havoc_field_from, havoc_variable_from, otherwise_from, tested_from};
ghost use Rattle.parsing.specs.PlainParser as parser;
ghost use Rattle.cocoon_text.specs.Agrees.{Advances, Moves, Agrees, AgreesDeep, path_of};
ghost use Rattle.parsing.specs.Joins.{Makes};

use crate::exprs::{expr, expr_then, exprs};
use crate::joins::then;
use crate::names::{param, path};
use crate::source::Source;
use crate::token::{Keyword, Mark};
use cocoon_syntax::{Expr, Name, Param, Stmt, StmtKind};
use parsing::{Stop, both};
use std::alloc::Global;

/// One statement.
#[cycle(stmt)]
fn stmt(alloc: Global, source: &Source, pos: usize) -> Result<(Stmt, usize), Stop>
    ensures agrees { AgreesDeep (λ n. parser.stmt_from source.now n pos) stmt_of result }
    ensures moves { Moves pos (length source.now) result }
{
    if source.is_keyword(pos, Keyword::Let) {
        return binding(alloc, source, pos);
    }
    if source.is_keyword(pos, Keyword::Pkt) {
        return setting(alloc, source, pos);
    }
    if source.is_keyword(pos, Keyword::If) {
        return conditional(alloc, source, pos);
    }
    if source.is_keyword(pos, Keyword::Filter) {
        return filter(alloc, source, pos);
    }
    if source.is_keyword(pos, Keyword::Havoc) {
        return havoc(alloc, source, pos);
    }
    if source.is_keyword(pos, Keyword::Assume) {
        return assume(alloc, source, pos);
    }
    if source.is_keyword(pos, Keyword::Fork) {
        return fork(alloc, source, pos);
    }
    if source.is_keyword(pos, Keyword::Send) {
        return send(alloc, source, pos);
    }
    Err(Stop::Unexpected(pos))
}

/// `{ .. }`.
#[cycle(stmt)]
pub fn block(alloc: Global, source: &Source, pos: usize) -> Result<(Vec<Stmt>, usize), Stop>
    ensures agrees { AgreesDeep
        (λ n. parser.block_from source.now n pos) (λ v. block_of (map stmt_of v.items)) result }
    ensures moves { Moves pos (length source.now) result }
{
    source.expect(pos, Mark::OpenBrace)?;
    then(source, stmts(alloc, source, pos + 1), Mark::CloseBrace)
}

/// Statements up to a closing brace.
#[cycle(stmt)]
fn stmts(alloc: Global, source: &Source, pos: usize) -> Result<(Vec<Stmt>, usize), Stop>
    requires { pos ≤ length source.now }
    ensures agrees { AgreesDeep
        (λ n. parser.stmts_from source.now n pos) (λ v. block_of (map stmt_of v.items)) result }
    ensures moves { Advances pos (length source.now) result }
{
    let mut stmts = Vec::new(alloc);
    let mut next = pos;
    'stmts: while !source.is_mark(next, Mark::CloseBrace) {
        let (stmt, after) = stmt(alloc, source, next)?;
        stmts.push(stmt)?;
        next = after;
    }
    Ok((stmts, next))
}

/// `if (a) { .. }`, with `else { .. }` or without, from its first token on.
#[cycle(stmt)]
fn conditional(alloc: Global, source: &Source, pos: usize) -> Result<(Stmt, usize), Stop>
    requires small { pos < 2 ^ 32 }
    requires within { pos < length source.now }
    ensures agrees { AgreesDeep
        (λ n. parser.if_from source.now (parser.expr_from source.now n of_expr)
        (parser.block_from source.now n) pos) stmt_of result }
    ensures moves { Moves pos (length source.now) result }
{
    let ((condition, first), next) = guarded(alloc, source, pos + 1)?;
    let second = otherwise(alloc, source, next);
    if_node(source.token_index(pos), condition, first, second)
}

/// `(a) { .. }`: a condition and its block.
#[cycle(stmt)]
fn guarded(alloc: Global, source: &Source, pos: usize) -> Result<((Expr, Vec<Stmt>), usize), Stop>
    ensures agrees { AgreesDeep (λ n. guarded_from source.now
        (parser.expr_from source.now n of_expr) (parser.block_from source.now n) pos)
        guarded_of result }
    ensures moves { Moves pos (length source.now) result }
{
    let (condition, open) = tested(alloc, source, pos)?;
    both(condition, block(alloc, source, open))
}

/// `else { .. }`, or nothing.
#[cycle(stmt)]
fn otherwise(alloc: Global, source: &Source, pos: usize) -> Result<(Vec<Stmt>, usize), Stop>
    requires { pos ≤ length source.now }
    ensures agrees { AgreesDeep
        (λ n. otherwise_from source.now (parser.block_from source.now n) pos)
        (λ v. block_of (map stmt_of v.items)) result }
    ensures moves { Advances pos (length source.now) result }
{
    if source.is_keyword(pos, Keyword::Else) {
        return block(alloc, source, pos + 1);
    }
    Ok((Vec::new(alloc), pos))
}

/// `fork (x: bit<N> | a) { .. }`, from its first token on.
#[cycle(stmt)]
fn fork(alloc: Global, source: &Source, pos: usize) -> Result<(Stmt, usize), Stop>
    requires small { pos < 2 ^ 32 }
    requires within { pos < length source.now }
    ensures agrees { AgreesDeep
        (λ n. parser.fork_from source.now (parser.expr_from source.now n of_expr)
        (parser.block_from source.now n) pos) stmt_of result }
    ensures moves { Moves pos (length source.now) result }
{
    let ((variable, condition), open) = choosing(alloc, source, pos + 1)?;
    let body = block(alloc, source, open);
    fork_node(source.token_index(pos), variable, condition, body)
}

/// `(x: bit<N> | a)`.
fn choosing(alloc: Global, source: &Source, pos: usize) -> Result<((Param, Expr), usize), Stop>
    ensures agrees { AgreesDeep (λ n. choosing_from source.now
        (parser.expr_from source.now n of_expr) pos) choosing_of result }
    ensures moves { Moves pos (length source.now) result }
{
    source.expect(pos, Mark::OpenParen)?;
    let (variable, next) = then(source, param(alloc, source, pos + 1), Mark::Or)?;
    both(variable, expr_then(alloc, source, next, Mark::CloseParen))
}

/// `(a)`: a condition.
fn tested(alloc: Global, source: &Source, pos: usize) -> Result<(Expr, usize), Stop>
    ensures agrees { AgreesDeep
        (λ n. tested_from source.now (parser.expr_from source.now n of_expr) pos) expr_of result }
    ensures moves { Moves pos (length source.now) result }
{
    source.expect(pos, Mark::OpenParen)?;
    expr_then(alloc, source, pos + 1, Mark::CloseParen)
}

/// `let x: bit<N> = a;`, from its first token on.
fn binding(alloc: Global, source: &Source, pos: usize) -> Result<(Stmt, usize), Stop>
    requires small { pos < 2 ^ 32 }
    requires within { pos < length source.now }
    ensures agrees { AgreesDeep
        (λ n. parser.let_from source.now (parser.expr_from source.now n of_expr) pos)
        stmt_of result }
    ensures moves { Moves pos (length source.now) result }
{
    let (variable, next) = param(alloc, source, pos + 1)?;
    let value = assigned(alloc, source, next);
    let_node(source.token_index(pos), variable, value)
}

/// `pkt.h.f = a;`.
fn setting(alloc: Global, source: &Source, pos: usize) -> Result<(Stmt, usize), Stop>
    requires { pos < length source.now }
    ensures agrees { AgreesDeep
        (λ n. parser.setting_from source.now (parser.expr_from source.now n of_expr) pos)
        stmt_of result }
    ensures moves { Moves pos (length source.now) result }
{
    let ((header, field), next) = path(alloc, source, pos)?;
    let value = assigned(alloc, source, next);
    set_node(source.token_index(pos), header, field, value)
}

/// `= a;`: what is set.
pub fn assigned(alloc: Global, source: &Source, pos: usize) -> Result<(Expr, usize), Stop>
    ensures agrees { AgreesDeep
        (λ n. assigned_from source.now (parser.expr_from source.now n of_expr) pos) expr_of result }
    ensures moves { Moves pos (length source.now) result }
{
    source.expect(pos, Mark::Assign)?;
    expr_then(alloc, source, pos + 1, Mark::Semicolon)
}

/// `filter a;`, from its first token on.
fn filter(alloc: Global, source: &Source, pos: usize) -> Result<(Stmt, usize), Stop>
    requires small { pos < 2 ^ 32 }
    requires within { pos < length source.now }
    ensures agrees { AgreesDeep (λ n. parser.ended source.now
        (parser.expr_from source.now n of_expr) (pos + 1) (λ x. tree.filter pos x)) stmt_of result }
    ensures moves { Moves pos (length source.now) result }
{
    let condition = expr_then(alloc, source, pos + 1, Mark::Semicolon);
    filter_node(source.token_index(pos), condition)
}

/// `assume a;`, from its first token on.
fn assume(alloc: Global, source: &Source, pos: usize) -> Result<(Stmt, usize), Stop>
    requires small { pos < 2 ^ 32 }
    requires within { pos < length source.now }
    ensures agrees { AgreesDeep (λ n. parser.ended source.now
        (parser.expr_from source.now n of_expr) (pos + 1) (λ x. tree.assume pos x)) stmt_of result }
    ensures moves { Moves pos (length source.now) result }
{
    let condition = expr_then(alloc, source, pos + 1, Mark::Semicolon);
    assume_node(source.token_index(pos), condition)
}

/// `havoc x: bit<N>;` or `havoc pkt.h.f;`, from its first token on.
fn havoc(alloc: Global, source: &Source, pos: usize) -> Result<(Stmt, usize), Stop>
    requires small { pos < 2 ^ 32 }
    requires within { pos < length source.now }
    ensures agrees { Agrees (parser.havoc_from source.now pos) stmt_of result }
    ensures moves { Moves pos (length source.now) result }
{
    if source.is_keyword(pos + 1, Keyword::Pkt) {
        return havoc_field(alloc, source, pos);
    }
    havoc_variable(alloc, source, pos)
}

fn havoc_field(alloc: Global, source: &Source, pos: usize) -> Result<(Stmt, usize), Stop>
    requires small { pos < 2 ^ 32 }
    requires within { pos < length source.now }
    ensures agrees { Agrees (havoc_field_from source.now pos) stmt_of result }
    ensures moves { Moves pos (length source.now) result }
{
    let field = then(source, path(alloc, source, pos + 1), Mark::Semicolon);
    havoc_field_node(source.token_index(pos), field)
}

fn havoc_variable(alloc: Global, source: &Source, pos: usize) -> Result<(Stmt, usize), Stop>
    requires small { pos < 2 ^ 32 }
    requires within { pos < length source.now }
    ensures agrees { Agrees (havoc_variable_from source.now pos) stmt_of result }
    ensures moves { Moves pos (length source.now) result }
{
    let variable = then(source, param(alloc, source, pos + 1), Mark::Semicolon);
    havoc_variable_node(source.token_index(pos), variable)
}

/// `send r[a, ..];`, from its first token on.
fn send(alloc: Global, source: &Source, pos: usize) -> Result<(Stmt, usize), Stop>
    requires small { pos < 2 ^ 32 }
    requires within { pos < length source.now }
    ensures agrees { AgreesDeep
        (λ n. parser.send_from source.now (parser.exprs_from source.now n) pos) stmt_of result }
    ensures moves { Moves pos (length source.now) result }
{
    let role = source.name(alloc, pos + 1)?;
    source.expect(pos + 2, Mark::OpenBracket)?;
    let args = then(source, exprs(alloc, source, pos + 3), Mark::CloseBracket);
    let args = then(source, args, Mark::Semicolon);
    send_node(source.token_index(pos), role, args)
}

// ---- nodes

fn havoc_field_node(
    at: u32,
    field: Result<((Name, Name), usize), Stop>,
) -> Result<(Stmt, usize), Stop>
    ensures { Makes path_of stmt_of (λ p. tree.havoc_field at p.header p.field) field result }
{
    let ((header, field), end) = field?;
    let kind = StmtKind::HavocField(header, field);
    Ok((Stmt { at, kind }, end))
}

fn havoc_variable_node(
    at: u32,
    variable: Result<(Param, usize), Stop>,
) -> Result<(Stmt, usize), Stop>
    ensures { Makes param_of stmt_of (λ p. tree.havoc_var at p.name p.width) variable result }
{
    let (variable, end) = variable?;
    let kind = StmtKind::HavocVar(variable.name, variable.width);
    Ok((Stmt { at, kind }, end))
}

fn let_node(
    at: u32,
    variable: Param,
    value: Result<(Expr, usize), Stop>,
) -> Result<(Stmt, usize), Stop>
    ensures { Makes expr_of stmt_of
        (λ x. tree.let_ at (name_of variable.name) variable.width x) value result }
{
    let (value, end) = value?;
    let kind = StmtKind::Let(variable.name, variable.width, value);
    Ok((Stmt { at, kind }, end))
}

fn set_node(
    at: u32,
    header: Name,
    field: Name,
    value: Result<(Expr, usize), Stop>,
) -> Result<(Stmt, usize), Stop>
    ensures { Makes expr_of stmt_of
        (λ x. tree.set_field at (name_of header) (name_of field) x) value result }
{
    let (value, end) = value?;
    let kind = StmtKind::SetField(header, field, value);
    Ok((Stmt { at, kind }, end))
}

fn filter_node(at: u32, condition: Result<(Expr, usize), Stop>) -> Result<(Stmt, usize), Stop>
    ensures { Makes expr_of stmt_of (λ x. tree.filter at x) condition result }
{
    let (condition, end) = condition?;
    let kind = StmtKind::Filter(condition);
    Ok((Stmt { at, kind }, end))
}

fn assume_node(at: u32, condition: Result<(Expr, usize), Stop>) -> Result<(Stmt, usize), Stop>
    ensures { Makes expr_of stmt_of (λ x. tree.assume at x) condition result }
{
    let (condition, end) = condition?;
    let kind = StmtKind::Assume(condition);
    Ok((Stmt { at, kind }, end))
}

fn if_node(
    at: u32,
    condition: Expr,
    first: Vec<Stmt>,
    second: Result<(Vec<Stmt>, usize), Stop>,
) -> Result<(Stmt, usize), Stop>
    ensures { Makes (λ v. block_of (map stmt_of v.items)) stmt_of
        (λ b. tree.if_ at (expr_of condition) (block_of (map stmt_of first.items)) b)
        second result }
{
    let (second, end) = second?;
    let kind = StmtKind::If(condition, first, second);
    Ok((Stmt { at, kind }, end))
}

fn fork_node(
    at: u32,
    variable: Param,
    condition: Expr,
    body: Result<(Vec<Stmt>, usize), Stop>,
) -> Result<(Stmt, usize), Stop>
    ensures { Makes (λ v. block_of (map stmt_of v.items)) stmt_of
        (λ b. tree.fork at (name_of variable.name) variable.width (expr_of condition) b)
        body result }
{
    let (body, end) = body?;
    let kind = StmtKind::Fork(variable.name, variable.width, condition, body);
    Ok((Stmt { at, kind }, end))
}

fn send_node(
    at: u32,
    role: Name,
    args: Result<(Vec<Expr>, usize), Stop>,
) -> Result<(Stmt, usize), Stop>
    ensures { Makes (λ v. exprs_of (map expr_of v.items)) stmt_of
        (λ xs. tree.send at (name_of role) xs) args result }
{
    let (args, end) = args?;
    let kind = StmtKind::Send(role, args);
    Ok((Stmt { at, kind }, end))
}
