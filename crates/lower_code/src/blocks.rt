//! Statements and blocks. The block of a fork is kept aside, with the variables that are in scope there.
ghost use Rattle.std.specs.Prelude.{[], ◌∷◌, ◌≡◌, IfOk, map};
ghost use Rattle.cocoon_num.specs.Tree.{fork, if_};
ghost use Rattle.cocoon_syntax.specs.TreeOf as tree;
ghost use Rattle.p4_ir.specs.P4Tree.{set_header};
ghost use Rattle.lowering.specs.Lower as lower;
ghost use Rattle.lowering.specs.Lower.{then_called};
ghost use Rattle.lowering.specs.LowerBlock as block;
ghost use Rattle.lower_code.specs.Blocks.{block_so_far, in_branch, port_kept, port_vars, with_block, with_effect, with_send};
ghost use Rattle.lower_code.specs.Growth.{counts_of, reached, so_far, with_expr};
ghost use Rattle.lower_code.specs.Scopes.{callees_in, design_in, SeesFunctions, uses_port};
ghost use Rattle.lower_code.specs.Variables.{variables_of};

use crate::exprs::{lower_expr, lower_exprs, lower_group};
use crate::functions::Scope;
use crate::made::{Lowering, after};
use crate::places::{field_place, header_place};
use crate::statements::{
    push_copies, push_filter, push_if, push_send, push_set, push_set_field, second_of,
};
use crate::uses::block_uses;
use crate::variables::{Reading, Variable, keep_port};
use cocoon_num::NoMemory;
use cocoon_syntax::{Expr, ExprKind, Name, Stmt, StmtKind};
use p4_ir::{P4Expr, P4Stmt};
use std::alloc::Global;

/// A fork: its block is lowered in egress.
#[derive(Drop)]
pub struct Site<'d> {
    /// Among the forks, from 1.
    pub number: u8,
    /// Those in scope at the fork.
    pub variables: Vec<Variable<'d>>,
    /// The variable that the fork chooses.
    pub name: &'d [u8],
    /// In bits.
    pub width: u32,
    pub body: &'d [Stmt],
}

/// The variables in scope, and the forks that were passed.
#[derive(Drop)]
pub struct Frame<'d> {
    /// The last that was bound last.
    pub variables: Vec<Variable<'d>>,
    pub sites: Vec<Site<'d>>,
}

fn lower_let<'d>(
    alloc: Global,
    scope: &Scope<'d>,
    to: &mut Lowering,
    code: &mut Vec<P4Stmt>,
    frame: &mut Frame<'d>,
    name: &'d Name,
    width: u32,
    value: &Expr,
) -> Result<(), NoMemory>
    requires { SeesFunctions scope.now }
    ensures { IfOk result (λ u. block_so_far (design_in scope.now) to.new code.new.items frame.new
        ≡ with_block (block_so_far (design_in scope.now) to.old code.old.items frame.old)
        (block.let_code name.now.text width (variables_of frame.old.variables.items)
        (lower.lower_expr (callees_in scope.now) (variables_of frame.old.variables.items)
        (counts_of to.old.counts) (tree.expr_of value.now)))) }
{
    let value = lower_expr(alloc, scope, &frame.variables, to, code, value)?;
    let field = to.make_variable(width)?;
    push_set(code, field, value)?;
    let name = name.text.bytes();
    let reading = Reading::Meta(field);
    frame.variables.push(Variable { name, reading })?;
    Ok(())
}

fn lower_set_field<'d>(
    alloc: Global,
    scope: &Scope<'d>,
    to: &mut Lowering,
    code: &mut Vec<P4Stmt>,
    variables: &[Variable<'d>],
    header: &Name,
    field: &Name,
    value: &Expr,
) -> Result<(), NoMemory>
    requires { SeesFunctions scope.now }
    ensures { IfOk result (λ u. so_far (design_in scope.now) to.new code.new.items
        ≡ with_effect (so_far (design_in scope.now) to.old code.old.items)
        (λ v. set_header (lower.header_place (design_in scope.now).headers header.now.text)
        (lower.field_place (design_in scope.now).headers header.now.text field.now.text) v ∷ [])
        (lower.lower_expr (callees_in scope.now) (variables_of variables.now)
        (counts_of to.old.counts) (tree.expr_of value.now))) }
{
    let value = lower_expr(alloc, scope, variables, to, code, value)?;
    let headers = &scope.checked.design().headers;
    let place = header_place(headers, header.text.bytes())?;
    let field = field_place(headers, header.text.bytes(), field.text.bytes())?;
    push_set_field(code, place, field, value)
}

fn lower_filter<'d>(
    alloc: Global,
    scope: &Scope<'d>,
    to: &mut Lowering,
    code: &mut Vec<P4Stmt>,
    variables: &[Variable<'d>],
    condition: &Expr,
) -> Result<(), NoMemory>
    requires { SeesFunctions scope.now }
    ensures { IfOk result (λ u. so_far (design_in scope.now) to.new code.new.items
        ≡ with_effect (so_far (design_in scope.now) to.old code.old.items) block.filter_code
        (lower.lower_expr (callees_in scope.now) (variables_of variables.now)
        (counts_of to.old.counts) (tree.expr_of condition.now))) }
{
    let condition = lower_expr(alloc, scope, variables, to, code, condition)?;
    push_filter(alloc, code, condition)
}

fn lower_send<'d>(
    alloc: Global,
    scope: &Scope<'d>,
    to: &mut Lowering,
    code: &mut Vec<P4Stmt>,
    variables: &[Variable<'d>],
    args: &[Expr],
) -> Result<(), NoMemory>
    requires { SeesFunctions scope.now }
    ensures { IfOk result (λ u. so_far (design_in scope.now) to.new code.new.items
        ≡ with_send (so_far (design_in scope.now) to.old code.old.items)
        (lower.lower_exprs (callees_in scope.now) (variables_of variables.now)
        (counts_of to.old.counts) (tree.exprs_of (map tree.expr_of args.now)))) }
{
    let args = lower_exprs(alloc, scope, variables, to, code, args)?;
    push_send(code, second_of(args))
}

/// The function that a fork calls, and its arguments but for the choice.
pub(crate) fn choice_parts<'d>(choice: &'d Expr) -> (&'d [u8], &'d [Expr])
    ensures name { result.0.now ≡ block.fork_function (tree.expr_of choice.now) }
    ensures args { tree.exprs_of (map tree.expr_of result.1.now)
        ≡ block.fork_args (tree.expr_of choice.now) }
{
    match &choice.kind {
        ExprKind::Call(function, args) => (function.text.bytes(), exprs_before_last(args)),
        ExprKind::Name(_) => (&[], &[]),
        ExprKind::Field(_, _) => (&[], &[]),
        ExprKind::Lit(_) => (&[], &[]),
        ExprKind::Truth(_) => (&[], &[]),
        ExprKind::Unary(_, _) => (&[], &[]),
        ExprKind::Binary(_, _, _) => (&[], &[]),
        ExprKind::Slice(_, _, _) => (&[], &[]),
        ExprKind::Pick(_, _, _) => (&[], &[]),
    }
}

/// All arguments but the last.
fn exprs_before_last(args: &[Expr]) -> &[Expr]
    ensures { tree.exprs_of (map tree.expr_of result.now)
        ≡ block.exprs_before_last (tree.exprs_of (map tree.expr_of args.now)) }
{
    match args.split_last() {
        Some((_, before)) => before,
        None => args,
    }
}

/// The group of a fork, by its choice.
fn lower_choice<'d>(
    alloc: Global,
    scope: &Scope<'d>,
    to: &mut Lowering,
    code: &mut Vec<P4Stmt>,
    variables: &[Variable<'d>],
    choice: &Expr,
) -> Result<P4Expr, NoMemory>
    requires { SeesFunctions scope.now }
    ensures { IfOk result (λ e. reached (design_in scope.now) to.new code.new.items e
        ≡ with_expr (so_far (design_in scope.now) to.old code.old.items)
        (then_called (lower.lower_exprs (callees_in scope.now) (variables_of variables.now)
        (counts_of to.old.counts) (block.fork_args (tree.expr_of choice.now)))
        ((callees_in scope.now).group (block.fork_function (tree.expr_of choice.now))))) }
{
    let (function, args) = choice_parts(choice);
    let args = lower_exprs(alloc, scope, variables, to, code, args)?;
    lower_group(alloc, scope, to, code, function, args)
}

/// The variables of a fork. The port gets a field of its own where the fork's block uses it.
fn site_variables<'d>(
    alloc: Global,
    scope: &Scope<'d>,
    to: &mut Lowering,
    code: &mut Vec<P4Stmt>,
    variables: &[Variable<'d>],
    body: &[Stmt],
) -> Result<Vec<Variable<'d>>, NoMemory>
    ensures state { IfOk result (λ vs. so_far (design_in scope.now) to.new code.new.items
        ≡ port_kept (uses_port scope.now (tree.block_of (map tree.stmt_of body.now)))
        (so_far (design_in scope.now) to.old code.old.items)) }
    ensures variables { IfOk result (λ vs. variables_of vs.items
        ≡ port_vars (uses_port scope.now (tree.block_of (map tree.stmt_of body.now)))
        to.old.counts.field (variables_of variables.now)) }
{
    if !block_uses(body, scope.port) {
        return Ok(variables.to_vec(alloc)?);
    }
    let field = to.make_variable(16)?;
    let kept = keep_port(alloc, field, variables)?;
    push_set(code, field, P4Expr::Port)?;
    Ok(kept)
}

fn lower_fork<'d>(
    alloc: Global,
    scope: &Scope<'d>,
    to: &mut Lowering,
    code: &mut Vec<P4Stmt>,
    frame: &mut Frame<'d>,
    name: &'d Name,
    width: u32,
    choice: &Expr,
    body: &'d [Stmt],
) -> Result<(), NoMemory>
    requires { SeesFunctions scope.now }
    ensures { IfOk result (λ u. block_so_far (design_in scope.now) to.new code.new.items frame.new
        ≡ with_block (block_so_far (design_in scope.now) to.old code.old.items frame.old)
        (block.lower_stmt (callees_in scope.now) (variables_of frame.old.variables.items)
        (counts_of to.old.counts) (fork 0 (tree.name_of name.now) width
        (tree.expr_of choice.now) (tree.block_of (map tree.stmt_of body.now))))) }
{
    let members = lower_choice(alloc, scope, to, code, &frame.variables, choice)?;
    let variables = site_variables(alloc, scope, to, code, &frame.variables, body)?;
    let count = to.counts.site;
    let number = u8::try_from(count).map_err(|_| NoMemory)?;
    push_copies(code, number, members)?;
    to.counts.site = after(count)?;
    let name = name.text.bytes();
    frame.sites.push(Site {
        number,
        variables,
        name,
        width,
        body,
    })?;
    Ok(())
}

/// Lowers statements one after another: their code is put at the end, and each fork is kept in the frame. There is no
/// memory where a count would pass the largest `u32`, and after the fork of number 255, either.
#[cycle(lower)]
pub fn lower_block<'d>(
    alloc: Global,
    scope: &Scope<'d>,
    to: &mut Lowering,
    code: &mut Vec<P4Stmt>,
    frame: &mut Frame<'d>,
    stmts: &'d [Stmt],
) -> Result<(), NoMemory>
    requires { SeesFunctions scope.now }
    ensures { IfOk result (λ u. block_so_far (design_in scope.now) to.new code.new.items frame.new
        ≡ with_block (block_so_far (design_in scope.now) to.old code.old.items frame.old)
        (block.lower_block (callees_in scope.now) (variables_of frame.old.variables.items)
        (counts_of to.old.counts) (tree.block_of (map tree.stmt_of stmts.now)))) }
{
    for stmt in stmts {
        lower_stmt(alloc, scope, to, code, frame, stmt)?;
    }
    Ok(())
}

#[cycle(lower)]
fn lower_stmt<'d>(
    alloc: Global,
    scope: &Scope<'d>,
    to: &mut Lowering,
    code: &mut Vec<P4Stmt>,
    frame: &mut Frame<'d>,
    stmt: &'d Stmt,
) -> Result<(), NoMemory>
    requires { SeesFunctions scope.now }
    ensures { IfOk result (λ u. block_so_far (design_in scope.now) to.new code.new.items frame.new
        ≡ with_block (block_so_far (design_in scope.now) to.old code.old.items frame.old)
        (block.lower_stmt (callees_in scope.now) (variables_of frame.old.variables.items)
        (counts_of to.old.counts) (tree.stmt_of stmt.now))) }
{
    match &stmt.kind {
        StmtKind::Let(name, width, value) => {
            lower_let(alloc, scope, to, code, frame, name, *width, value)?;
            Ok(())
        }
        StmtKind::SetField(header, field, value) => {
            lower_set_field(
                alloc,
                scope,
                to,
                code,
                &frame.variables,
                header,
                field,
                value,
            )?;
            Ok(())
        }
        StmtKind::If(condition, first, second) => {
            lower_if(alloc, scope, to, code, frame, condition, first, second)?;
            Ok(())
        }
        StmtKind::Filter(condition) => {
            lower_filter(alloc, scope, to, code, &frame.variables, condition)?;
            Ok(())
        }
        StmtKind::HavocVar(_, _) => Ok(()),
        StmtKind::HavocField(_, _) => Ok(()),
        StmtKind::Assume(_) => Ok(()),
        StmtKind::Fork(name, width, choice, body) => {
            lower_fork(alloc, scope, to, code, frame, name, *width, choice, body)?;
            Ok(())
        }
        StmtKind::Send(_, args) => {
            lower_send(alloc, scope, to, code, &frame.variables, args)?;
            Ok(())
        }
    }
}

#[cycle(lower)]
fn lower_if<'d>(
    alloc: Global,
    scope: &Scope<'d>,
    to: &mut Lowering,
    code: &mut Vec<P4Stmt>,
    frame: &mut Frame<'d>,
    condition: &Expr,
    first: &'d [Stmt],
    second: &'d [Stmt],
) -> Result<(), NoMemory>
    requires { SeesFunctions scope.now }
    ensures { IfOk result (λ u. block_so_far (design_in scope.now) to.new code.new.items frame.new
        ≡ with_block (block_so_far (design_in scope.now) to.old code.old.items frame.old)
        (block.lower_stmt (callees_in scope.now) (variables_of frame.old.variables.items)
        (counts_of to.old.counts) (if_ 0 (tree.expr_of condition.now)
        (tree.block_of (map tree.stmt_of first.now))
        (tree.block_of (map tree.stmt_of second.now))))) }
{
    let condition = lower_expr(alloc, scope, &frame.variables, to, code, condition)?;
    let first = lower_branch(alloc, scope, to, frame, first)?;
    let second = lower_branch(alloc, scope, to, frame, second)?;
    push_if(code, condition, first, second)?;
    Ok(())
}

/// The code of a branch, whose variables end with it.
#[cycle(lower)]
fn lower_branch<'d>(
    alloc: Global,
    scope: &Scope<'d>,
    to: &mut Lowering,
    frame: &mut Frame<'d>,
    stmts: &'d [Stmt],
) -> Result<Vec<P4Stmt>, NoMemory>
    requires { SeesFunctions scope.now }
    ensures { IfOk result (λ code. block_so_far (design_in scope.now) to.new code.items frame.new
        ≡ in_branch (block_so_far (design_in scope.now) to.old [] frame.old)
        (block.lower_block (callees_in scope.now) (variables_of frame.old.variables.items)
        (counts_of to.old.counts) (tree.block_of (map tree.stmt_of stmts.now)))) }
{
    let count = frame.variables.len();
    let mut code = Vec::new(alloc);
    lower_block(alloc, scope, to, &mut code, frame, stmts)?;
    frame.variables.truncate(count);
    Ok(code)
}
