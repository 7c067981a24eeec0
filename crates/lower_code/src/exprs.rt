//! Expressions: their code and what it needs, down the tree and, at a call of a function with a body, down the functions
//! before it.
ghost use Rattle.std.specs.Prelude.{◌≡◌, ◌<◌, ◌≤◌, IfOk, map, slice_get, Some};
ghost use Rattle.cocoon_num.specs.Tree.{FunctionDecl as Function};
ghost use Rattle.cocoon_syntax.specs.TreeOf as tree;
ghost use Rattle.cocoon_syntax.specs.TreeOf.{exprs_of};
ghost use Rattle.cocoon_types.specs.Design.{functions};
ghost use Rattle.p4_ir.specs.P4Tree.{p_field};
ghost use Rattle.p4_ir.specs.Program.{expr_of};
ghost use Rattle.lowering.specs.Lower as lower;
ghost use Rattle.lower_code.specs.Growth.{all_reached, counts_of, reached, so_far, with_expr, with_exprs};
ghost use Rattle.lower_code.specs.Scopes.{body_lowered, callees_in, design_in, function_in, SeesFunctions};
ghost use Rattle.lower_code.specs.Variables.{variables_of};

use crate::calls::{bind_args, by_group, by_table, keep_result};
use crate::functions::{Scope, find};
use crate::made::Lowering;
use crate::operators::{binary, pick, slice, unary};
use crate::places::{field_place, header_place};
use crate::variables::{Variable, read_variable};
use cocoon_num::NoMemory;
use cocoon_syntax::{Expr, ExprKind};
use declarations::FunId;
use p4_ir::{P4Expr, P4Stmt};
use std::alloc::Global;

/// Lowers an expression: its code is put at the end, and the answer is the expression that has its value after that. There
/// is no memory where a count would pass the largest `u32`, and where a slice's bound does not fit a byte, which no bound
/// of a typed design does.
#[cycle(lower)]
pub fn lower_expr(
    alloc: Global,
    scope: &Scope<'_>,
    variables: &[Variable<'_>],
    to: &mut Lowering,
    code: &mut Vec<P4Stmt>,
    expr: &Expr,
) -> Result<P4Expr, NoMemory>
    requires { SeesFunctions scope.now }
    ensures { IfOk result (λ e. reached (design_in scope.now) to.new code.new.items e
        ≡ with_expr (so_far (design_in scope.now) to.old code.old.items)
        (lower.lower_expr (callees_in scope.now) (variables_of variables.now)
        (counts_of to.old.counts) (tree.expr_of expr.now))) }
{
    match &expr.kind {
        ExprKind::Name(name) => Ok(read_variable(variables, name.bytes())),
        ExprKind::Field(header, field) => {
            read_field(scope, header.text.bytes(), field.text.bytes())
        }
        ExprKind::Lit(number) => Ok(P4Expr::Lit(*number)),
        ExprKind::Truth(truth) => Ok(P4Expr::Truth(*truth)),
        ExprKind::Call(function, args) => {
            let args = lower_exprs(alloc, scope, variables, to, code, args)?;
            lower_call(alloc, scope, to, code, function.text.bytes(), args)
        }
        ExprKind::Unary(op, a) => {
            let a = lower_expr(alloc, scope, variables, to, code, a)?;
            unary(alloc, *op, a)
        }
        ExprKind::Binary(op, a, b) => {
            let a = lower_expr(alloc, scope, variables, to, code, a)?;
            let b = lower_expr(alloc, scope, variables, to, code, b)?;
            binary(alloc, *op, a, b)
        }
        ExprKind::Slice(a, high, low) => {
            let a = lower_expr(alloc, scope, variables, to, code, a)?;
            slice(alloc, a, *high, *low)
        }
        ExprKind::Pick(condition, first, second) => {
            let condition = lower_expr(alloc, scope, variables, to, code, condition)?;
            let a = lower_expr(alloc, scope, variables, to, code, first)?;
            let b = lower_expr(alloc, scope, variables, to, code, second)?;
            pick(alloc, condition, a, b)
        }
    }
}

fn read_field(scope: &Scope<'_>, header: &[u8], field: &[u8]) -> Result<P4Expr, NoMemory>
    ensures { IfOk result (λ e. expr_of e ≡ p_field
        (lower.header_place (design_in scope.now).headers header.now)
        (lower.field_place (design_in scope.now).headers header.now field.now)) }
{
    let headers = &scope.checked.design().headers;
    let place = header_place(headers, header)?;
    Ok(P4Expr::Field(place, field_place(headers, header, field)?))
}

/// Lowers expressions, from left to right.
#[cycle(lower)]
pub fn lower_exprs(
    alloc: Global,
    scope: &Scope<'_>,
    variables: &[Variable<'_>],
    to: &mut Lowering,
    code: &mut Vec<P4Stmt>,
    exprs: &[Expr],
) -> Result<Vec<P4Expr>, NoMemory>
    requires { SeesFunctions scope.now }
    ensures { IfOk result (λ es. all_reached (design_in scope.now) to.new code.new.items es.items
        ≡ with_exprs (so_far (design_in scope.now) to.old code.old.items)
        (lower.lower_exprs (callees_in scope.now) (variables_of variables.now)
        (counts_of to.old.counts) (exprs_of (map tree.expr_of exprs.now)))) }
{
    let mut lowered = Vec::new(alloc);
    for expr in exprs {
        lowered.push(lower_expr(alloc, scope, variables, to, code, expr)?)?;
    }
    Ok(lowered)
}

/// A call of a function by its name.
#[cycle(lower)]
fn lower_call(
    alloc: Global,
    scope: &Scope<'_>,
    to: &mut Lowering,
    code: &mut Vec<P4Stmt>,
    name: &[u8],
    args: Vec<P4Expr>,
) -> Result<P4Expr, NoMemory>
    requires { SeesFunctions scope.now }
    ensures { IfOk result (λ e. reached (design_in scope.now) to.new code.new.items e
        ≡ with_expr (so_far (design_in scope.now) to.old code.old.items)
        ((callees_in scope.now).call name.now (map expr_of args.items)
        (counts_of to.old.counts))) }
{
    match find(scope, name) {
        Some(number) => lower_function(alloc, scope, to, code, number, args),
        None => Ok(P4Expr::Truth(false)),
    }
}

/// A call of the function of a number, by its table or by its body.
#[cycle(lower)]
fn lower_function(
    alloc: Global,
    scope: &Scope<'_>,
    to: &mut Lowering,
    code: &mut Vec<P4Stmt>,
    number: FunId,
    args: Vec<P4Expr>,
) -> Result<P4Expr, NoMemory>
    requires functions { SeesFunctions scope.now }
    requires within { number < scope.now.before }
    ensures { (g : Function) → slice_get (functions (design_in scope.now)) number ≡ Some g
        → IfOk result (λ e. reached (design_in scope.now) to.new code.new.items e
        ≡ with_expr (so_far (design_in scope.now) to.old code.old.items)
        (function_in (design_in scope.now) number g (map expr_of args.items)
        (counts_of to.old.counts))) }
{
    let function = scope.checked.function(number);
    match &function.body {
        Some(body) => {
            let variables = bind_args(alloc, to, code, function, args)?;
            let value = lower_body(alloc, scope, number, &variables, to, code, body)?;
            keep_result(alloc, to, code, function.result, value)
        }
        None => by_table(alloc, to, code, number, function, args),
    }
}

/// The body of the function of a number, which sees the functions before it.
#[cycle(lower)]
fn lower_body(
    alloc: Global,
    scope: &Scope<'_>,
    number: FunId,
    variables: &[Variable<'_>],
    to: &mut Lowering,
    code: &mut Vec<P4Stmt>,
    body: &Expr,
) -> Result<P4Expr, NoMemory>
    requires functions { SeesFunctions scope.now }
    requires within { number < scope.now.before }
    ensures { IfOk result (λ e. reached (design_in scope.now) to.new code.new.items e
        ≡ with_expr (so_far (design_in scope.now) to.old code.old.items)
        (body_lowered (design_in scope.now) number (variables_of variables.now)
        (counts_of to.old.counts) (tree.expr_of body.now))) }
{
    let inner = Scope {
        before: number,
        port: &[],
        ..*scope
    };
    lower_expr(alloc, &inner, variables, to, code, body)
}

/// A look-up of the group of a fork by the function of this name.
pub(crate) fn lower_group(
    alloc: Global,
    scope: &Scope<'_>,
    to: &mut Lowering,
    code: &mut Vec<P4Stmt>,
    name: &[u8],
    args: Vec<P4Expr>,
) -> Result<P4Expr, NoMemory>
    requires { SeesFunctions scope.now }
    ensures { IfOk result (λ e. reached (design_in scope.now) to.new code.new.items e
        ≡ with_expr (so_far (design_in scope.now) to.old code.old.items)
        ((callees_in scope.now).group name.now (map expr_of args.items)
        (counts_of to.old.counts))) }
{
    match find(scope, name) {
        Some(number) => {
            let function = scope.checked.function(number);
            by_group(alloc, to, code, number, function, args)
        }
        None => Ok(P4Expr::Truth(false)),
    }
}
