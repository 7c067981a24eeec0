//! How many tables and forks the code of a body has, and how large it is, without the code: functions with bodies can call one
//! another so often that no memory would hold it.
ghost use Rattle.std.specs.Prelude.{◌≡◌, ◌<◌, ◌+◌, ◌*◌, IfOk, IfSome, map, slice_get, Some};
ghost use Rattle.cocoon_num.specs.Tree.{FunctionDecl as Function};
ghost use Rattle.cocoon_syntax.specs.TreeOf.{block_of, expr_of, exprs_of, stmt_of};
ghost use Rattle.cocoon_types.specs.Design.{functions};
ghost use Rattle.lowering.specs.LowerBlock.{fork_args, fork_function};
ghost use Rattle.lowering.specs.Counting as spec;
ghost use Rattle.lower_code.specs.Scopes.{called_count, design_in, function_count as spec_count, functions_in, KnowsCounts, SeesFunctions};

use crate::blocks::choice_parts;
use crate::functions::{Scope, find};
use cocoon_num::NoMemory;
use cocoon_syntax::{Expr, ExprKind, Stmt, StmtKind};
use declarations::FunId;
use std::alloc::Global;

/// How many bytes of a program's text a part of an expression has at least.
const BYTES_OF_PART: u64 = 2;

/// The parts of the line that sets the field of an argument.
const ARGUMENT_PARTS: u64 = 3;

/// Those of the lines of the value's field and the parameter's, in a call of a function with a body.
const VALUE_PARTS: u64 = 9;

const PARAMETER_PARTS: u64 = 5;

fn plus(a: u64, b: u64) -> Result<u64, NoMemory>
    ensures { IfOk result (λ n. n ≡ a + b) }
{
    a.checked_add(b).ok_or(NoMemory)
}

fn sum(a: u64, b: u64, c: u64) -> Result<u64, NoMemory>
    ensures { IfOk result (λ n. n ≡ a + (b + c)) }
{
    plus(a, plus(b, c)?)
}

fn times(a: u64, b: u64) -> Result<u64, NoMemory>
    ensures { IfOk result (λ n. n ≡ a * b) }
{
    a.checked_mul(b).ok_or(NoMemory)
}

/// What each part of the arguments of a call counts, where the call counts so much.
fn printed_part(part: u64, called: u64) -> u64
    ensures { result ≡ spec.printed_part part called }
{
    if called == 0 { 0 } else { part }
}

/// The tables of an expression, with so many more for each of its own parts, and for each in the functions that it calls.
#[cycle(count)]
fn expr_count(
    scope: &Scope<'_>,
    known: &[Option<u64>],
    part: u64,
    own: u64,
    expr: &Expr,
) -> Result<u64, NoMemory>
    requires functions { SeesFunctions scope.now }
    requires known { KnowsCounts part (design_in scope.now) known.now }
    ensures { IfOk result (λ n. n
        ≡ spec.expr_count own (called_count part scope.now) (expr_of expr.now)) }
{
    match &expr.kind {
        ExprKind::Name(_) => Ok(own),
        ExprKind::Field(_, _) => Ok(own),
        ExprKind::Lit(_) => Ok(own),
        ExprKind::Truth(_) => Ok(own),
        ExprKind::Call(function, args) => {
            let called = call_count(scope, known, part, function.text.bytes())?;
            let shown = printed_part(own, called);
            let count = exprs_count(scope, known, part, shown, args)?;
            plus(count, called)
        }
        ExprKind::Unary(_, a) => plus(own, expr_count(scope, known, part, own, a)?),
        ExprKind::Binary(_, a, b) => {
            let first = expr_count(scope, known, part, own, a)?;
            sum(own, first, expr_count(scope, known, part, own, b)?)
        }
        ExprKind::Slice(a, _, _) => plus(own, expr_count(scope, known, part, own, a)?),
        ExprKind::Pick(condition, a, b) => {
            let condition = expr_count(scope, known, part, own, condition)?;
            let first = expr_count(scope, known, part, own, a)?;
            let second = expr_count(scope, known, part, own, b)?;
            plus(own, sum(condition, first, second)?)
        }
    }
}

#[cycle(count)]
fn exprs_count(
    scope: &Scope<'_>,
    known: &[Option<u64>],
    part: u64,
    own: u64,
    exprs: &[Expr],
) -> Result<u64, NoMemory>
    requires functions { SeesFunctions scope.now }
    requires known { KnowsCounts part (design_in scope.now) known.now }
    ensures { IfOk result (λ n. n
        ≡ spec.exprs_count own (called_count part scope.now) (exprs_of (map expr_of exprs.now))) }
{
    let mut count = 0;
    let line = times(own, ARGUMENT_PARTS)?;
    for expr in exprs {
        let argument = plus(line, expr_count(scope, known, part, own, expr)?)?;
        count = plus(count, argument)?;
    }
    Ok(count)
}

/// Those of a call of the function of this name.
fn call_count(
    scope: &Scope<'_>,
    known: &[Option<u64>],
    part: u64,
    name: &[u8],
) -> Result<u64, NoMemory>
    requires functions { SeesFunctions scope.now }
    requires known { KnowsCounts part (design_in scope.now) known.now }
    ensures { IfOk result (λ n. n ≡ called_count part scope.now name.now) }
{
    match find(scope, name) {
        Some(number) => match known_at(known, number as usize) {
            Some(count) => Ok(count),
            None => Err(NoMemory),
        },
        None => Ok(0),
    }
}

/// The count that is kept at an index.
fn known_at(known: &[Option<u64>], index: usize) -> Option<u64>
    ensures { IfSome result (λ n. slice_get known.now index ≡ Some (Some n)) }
{
    match known.get(index) {
        Some(count) => *count,
        None => None,
    }
}

/// Those of a call of the function of this number, which sees the functions before it; none where they are too many to be
/// counted.
fn function_count(scope: &Scope<'_>, known: &[Option<u64>], part: u64, number: FunId) -> Option<u64>
    requires functions { SeesFunctions scope.now }
    requires within { number < scope.now.before }
    requires known { KnowsCounts part (design_in scope.now) known.now }
    ensures { (g : Function) → slice_get (functions (design_in scope.now)) number ≡ Some g
        → IfSome result (λ n. n ≡ spec_count part (design_in scope.now) number g) }
{
    let function = scope.checked.function(number);
    match &function.body {
        Some(body) => body_count(scope, known, part, number, function.params.len(), body).ok(),
        None => Some(1),
    }
}

/// Those of a call of a function with so many parameters, by those of its body.
fn closed_count(part: u64, params: usize, body: u64) -> Result<u64, NoMemory>
    ensures { IfOk result (λ n. n ≡ spec.closed_count part params body) }
{
    let fields = plus(VALUE_PARTS, times(PARAMETER_PARTS, params as u64)?)?;
    plus(times(part, fields)?, body)
}

/// Those of a call of the function of this number, which has this body over so many parameters and sees the functions before it.
fn body_count(
    scope: &Scope<'_>,
    known: &[Option<u64>],
    part: u64,
    number: FunId,
    params: usize,
    body: &Expr,
) -> Result<u64, NoMemory>
    requires functions { SeesFunctions scope.now }
    requires within { number < scope.now.before }
    requires known { KnowsCounts part (design_in scope.now) known.now }
    ensures { IfOk result (λ n. n ≡ spec.closed_count part params (spec.expr_count part
        (spec.call_count part (functions_in scope.now number)) (expr_of body.now))) }
{
    let inner = Scope {
        before: number,
        port: &[],
        ..*scope
    };
    closed_count(part, params, expr_count(&inner, known, part, part, body)?)
}

/// Those of a call of each function that is seen. Each body is walked once, so the time is in proportion to the bodies.
fn all_function_counts(
    alloc: Global,
    scope: &Scope<'_>,
    part: u64,
) -> Result<Vec<Option<u64>>, NoMemory>
    requires { SeesFunctions scope.now }
    ensures { IfOk result (λ known. KnowsCounts part (design_in scope.now) known.items) }
{
    let mut known = Vec::new(alloc);
    let mut number = 0;
    while number < scope.before {
        let count = function_count(scope, &known, part, number);
        known.push(count)?;
        number += 1;
    }
    Ok(known)
}

/// Those of the fork of the function of this name.
fn group_count(scope: &Scope<'_>, name: &[u8]) -> u64
    requires { SeesFunctions scope.now }
    ensures { result ≡ spec.group_count (functions_in scope.now scope.now.before) name.now }
{
    match find(scope, name) {
        Some(_) => 1,
        None => 0,
    }
}

/// Those of a fork, without its block.
fn choice_count(
    scope: &Scope<'_>,
    known: &[Option<u64>],
    part: u64,
    choice: &Expr,
) -> Result<u64, NoMemory>
    requires functions { SeesFunctions scope.now }
    requires known { KnowsCounts part (design_in scope.now) known.now }
    ensures { IfOk result (λ n. n
        ≡ spec.exprs_count 0 (called_count part scope.now) (fork_args (expr_of choice.now))
        + spec.group_count (functions_in scope.now scope.now.before)
        (fork_function (expr_of choice.now))) }
{
    let (function, args) = choice_parts(choice);
    let count = exprs_count(scope, known, part, 0, args)?;
    plus(count, group_count(scope, function))
}

#[cycle(stmt)]
fn stmt_count(
    scope: &Scope<'_>,
    known: &[Option<u64>],
    part: u64,
    stmt: &Stmt,
) -> Result<u64, NoMemory>
    requires functions { SeesFunctions scope.now }
    requires known { KnowsCounts part (design_in scope.now) known.now }
    ensures { IfOk result (λ n. n
        ≡ spec.stmt_count part (functions_in scope.now scope.now.before) (stmt_of stmt.now)) }
{
    match &stmt.kind {
        StmtKind::Let(_, _, value) => expr_count(scope, known, part, part, value),
        StmtKind::SetField(_, _, value) => expr_count(scope, known, part, part, value),
        StmtKind::If(condition, first, second) => {
            let count = expr_count(scope, known, part, part, condition)?;
            let branch = block_count(scope, known, part, first)?;
            plus(
                count,
                plus(branch, block_count(scope, known, part, second)?)?,
            )
        }
        StmtKind::Filter(condition) => expr_count(scope, known, part, part, condition),
        StmtKind::HavocVar(_, _) => Ok(0),
        StmtKind::HavocField(_, _) => Ok(0),
        StmtKind::Assume(_) => Ok(0),
        StmtKind::Fork(_, _, choice, _) => choice_count(scope, known, part, choice),
        StmtKind::Send(_, args) => exprs_count(scope, known, part, 0, args),
    }
}

/// Those of statements, but for the blocks of their forks.
#[cycle(stmt)]
fn block_count(
    scope: &Scope<'_>,
    known: &[Option<u64>],
    part: u64,
    stmts: &[Stmt],
) -> Result<u64, NoMemory>
    requires functions { SeesFunctions scope.now }
    requires known { KnowsCounts part (design_in scope.now) known.now }
    ensures { IfOk result (λ n. n ≡ spec.block_count part
        (functions_in scope.now scope.now.before) (block_of (map stmt_of stmts.now))) }
{
    let mut count = 0;
    for stmt in stmts {
        count = plus(count, stmt_count(scope, known, part, stmt)?)?;
    }
    Ok(count)
}

#[cycle(site)]
fn stmt_site_count(
    scope: &Scope<'_>,
    known: &[Option<u64>],
    part: u64,
    stmt: &Stmt,
) -> Result<u64, NoMemory>
    requires functions { SeesFunctions scope.now }
    requires known { KnowsCounts part (design_in scope.now) known.now }
    ensures { IfOk result (λ n. n
        ≡ spec.stmt_site_count part (functions_in scope.now scope.now.before) (stmt_of stmt.now)) }
{
    match &stmt.kind {
        StmtKind::If(_, first, second) => {
            let count = site_count(scope, known, part, first)?;
            plus(count, site_count(scope, known, part, second)?)
        }
        StmtKind::Fork(_, _, _, body) => block_count(scope, known, part, body),
        StmtKind::Let(_, _, _) => Ok(0),
        StmtKind::SetField(_, _, _) => Ok(0),
        StmtKind::Filter(_) => Ok(0),
        StmtKind::HavocVar(_, _) => Ok(0),
        StmtKind::HavocField(_, _) => Ok(0),
        StmtKind::Assume(_) => Ok(0),
        StmtKind::Send(_, _) => Ok(0),
    }
}

/// Those of the blocks of forks.
#[cycle(site)]
fn site_count(
    scope: &Scope<'_>,
    known: &[Option<u64>],
    part: u64,
    stmts: &[Stmt],
) -> Result<u64, NoMemory>
    requires functions { SeesFunctions scope.now }
    requires known { KnowsCounts part (design_in scope.now) known.now }
    ensures { IfOk result (λ n. n ≡ spec.site_count part
        (functions_in scope.now scope.now.before) (block_of (map stmt_of stmts.now))) }
{
    let mut count = 0;
    for stmt in stmts {
        count = plus(count, stmt_site_count(scope, known, part, stmt)?)?;
    }
    Ok(count)
}

/// Those of both controls.
fn all_count(alloc: Global, scope: &Scope<'_>, part: u64, stmts: &[Stmt]) -> Result<u64, NoMemory>
    requires { SeesFunctions scope.now }
    ensures { IfOk result (λ n. n ≡ spec.all_count part
        (functions_in scope.now scope.now.before) (block_of (map stmt_of stmts.now))) }
{
    let known = all_function_counts(alloc, scope, part)?;
    let count = block_count(scope, &known, part, stmts)?;
    plus(count, site_count(scope, &known, part, stmts)?)
}

/// How many tables the code of a body has in both controls. The time is in proportion to the body and the bodies of functions,
/// however often these are called. There is no memory where the count would pass the largest `u64`, either.
pub fn count_tables(alloc: Global, scope: &Scope<'_>, stmts: &[Stmt]) -> Result<u64, NoMemory>
    requires { SeesFunctions scope.now }
    ensures { IfOk result (λ n. n ≡ spec.all_tables
        (functions_in scope.now scope.now.before) (block_of (map stmt_of stmts.now))) }
{
    all_count(alloc, scope, 0, stmts)
}

/// How large the program of a body is at least: its tables, and the parts of its expressions and calls, each as two bytes. A law of
/// `lowering_fits` says that its text has as many bytes. The time, and when there is no memory, are as of `count_tables`.
pub fn code_size(alloc: Global, scope: &Scope<'_>, stmts: &[Stmt]) -> Result<u64, NoMemory>
    requires { SeesFunctions scope.now }
    ensures { IfOk result (λ n. n ≡ spec.all_parts
        (functions_in scope.now scope.now.before) (block_of (map stmt_of stmts.now))) }
{
    all_count(alloc, scope, BYTES_OF_PART, stmts)
}

#[cycle(fork)]
fn stmt_forks(stmt: &Stmt) -> Result<u64, NoMemory>
    ensures { IfOk result (λ n. n ≡ spec.stmt_forks (stmt_of stmt.now)) }
{
    match &stmt.kind {
        StmtKind::If(_, first, second) => {
            let forks = count_forks(first)?;
            plus(forks, count_forks(second)?)
        }
        StmtKind::Fork(_, _, _, _) => Ok(1),
        StmtKind::Let(_, _, _) => Ok(0),
        StmtKind::SetField(_, _, _) => Ok(0),
        StmtKind::Filter(_) => Ok(0),
        StmtKind::HavocVar(_, _) => Ok(0),
        StmtKind::HavocField(_, _) => Ok(0),
        StmtKind::Assume(_) => Ok(0),
        StmtKind::Send(_, _) => Ok(0),
    }
}

/// How many forks statements have, those in the blocks of forks left out. There is no memory where the count would pass the
/// largest `u64`.
#[cycle(fork)]
pub fn count_forks(stmts: &[Stmt]) -> Result<u64, NoMemory>
    ensures { IfOk result (λ n. n ≡ spec.forks (block_of (map stmt_of stmts.now))) }
{
    let mut forks = 0;
    for stmt in stmts {
        forks = plus(forks, stmt_forks(stmt)?)?;
    }
    Ok(forks)
}
