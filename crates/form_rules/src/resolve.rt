//! Statements as steps, with the names resolved.
ghost use Rattle.std.specs.Prelude.{◌≡◌, IfOk, OnOk, map};
ghost use Rattle.cocoon_syntax.specs.TreeOf.{block_of, expr_of, exprs_of, name_of, stmt_of};
ghost use Rattle.form_rules.specs.Following as spec;
ghost use Rattle.form_rules.specs.Following.{after, at_choice, bound, names_of};
ghost use Rattle.form_rules.specs.Steps.{Adds, AddsBranch, AddsFork, AddsMove, AddsSend, StepsOf, moved_by};

use crate::scope::{Scope, bind, count, unbind};
use crate::steps::{Move, Step};
use crate::value_places::{field_index, value_of, values_of};
use cocoon_num::NoMemory;
use cocoon_syntax::{Expr, Name, Stmt, StmtKind};
use std::alloc::Global;

/// The steps of some statements, whose variables then end.
#[cycle(resolve)]
pub(crate) fn resolve_block(
    alloc: Global,
    scope: &mut Scope,
    stmts: &[Stmt],
) -> Result<Vec<Step>, NoMemory>
    ensures names { OnOk result (names_of scope.new ≡ names_of scope.old) }
    ensures steps { IfOk result (λ steps.
        StepsOf (names_of scope.old) (block_of (map stmt_of stmts.now)) steps.items) }
{
    let count = count(scope);
    let mut steps = Vec::new(alloc);
    for stmt in stmts {
        resolve_stmt(alloc, scope, stmt, &mut steps)?;
    }
    unbind(scope, count);
    Ok(steps)
}

/// Adds the steps of a statement.
#[cycle(resolve)]
fn resolve_stmt(
    alloc: Global,
    scope: &mut Scope,
    stmt: &Stmt,
    steps: &mut Vec<Step>,
) -> Result<(), NoMemory>
    ensures names { OnOk result
        (names_of scope.new ≡ after (stmt_of stmt.now) (names_of scope.old)) }
    ensures adds { OnOk result
        (Adds (names_of scope.old) (stmt_of stmt.now) steps.old.items steps.new.items) }
{
    match &stmt.kind {
        StmtKind::Let(name, _, value) => push_let(alloc, scope, steps, name, value),
        StmtKind::SetField(header, field, value) => {
            push_set(alloc, scope, steps, header, field, value)
        }
        StmtKind::If(condition, first, second) => {
            push_condition(alloc, scope, steps, condition)?;
            let first = resolve_block(alloc, scope, first)?;
            let second = resolve_block(alloc, scope, second)?;
            push_branch(scope, steps, first, second)
        }
        StmtKind::Filter(condition) => push_condition(alloc, scope, steps, condition),
        StmtKind::HavocVar(name, _) => push_choice(alloc, scope, steps, stmt.at, name),
        StmtKind::HavocField(header, field) => {
            push_field_choice(scope, steps, stmt.at, header, field)
        }
        StmtKind::Assume(condition) => push_condition(alloc, scope, steps, condition),
        StmtKind::Fork(name, _, condition, body) => {
            let count = count(scope);
            push_choice(alloc, scope, steps, stmt.at, name)?;
            push_condition(alloc, scope, steps, condition)?;
            let body = resolve_block(alloc, scope, body)?;
            unbind(scope, count);
            push_fork(steps, body)
        }
        StmtKind::Send(_, args) => push_send(alloc, scope, steps, args),
    }
}

fn push_move(steps: &mut Vec<Step>, step: Move) -> Result<(), NoMemory>
    ensures { OnOk result (AddsMove (λ c. moved_by c step) steps.old.items steps.new.items) }
{
    steps.push(Step::Move(step))?;
    Ok(())
}

fn push_let(
    alloc: Global,
    scope: &mut Scope,
    steps: &mut Vec<Step>,
    name: &Name,
    value: &Expr,
) -> Result<(), NoMemory>
    ensures names { OnOk result
        (names_of scope.new ≡ bound (name_of name.now) (names_of scope.old)) }
    ensures adds { OnOk result (AddsMove
        (λ c q. spec.with_var (spec.held (at_choice c (names_of scope.old)) q (expr_of value.now)) q)
        steps.old.items steps.new.items) }
{
    let value = value_of(alloc, scope, value)?;
    push_move(steps, Move::Bind(value))?;
    bind(alloc, scope, name)
}

fn push_set(
    alloc: Global,
    scope: &Scope,
    steps: &mut Vec<Step>,
    header: &Name,
    field: &Name,
    value: &Expr,
) -> Result<(), NoMemory>
    ensures { OnOk result (AddsMove
        (λ c q. spec.with_field (at_choice c (names_of scope.now)) (name_of header.now)
        (name_of field.now) (spec.held (at_choice c (names_of scope.now)) q (expr_of value.now)) q)
        steps.old.items steps.new.items) }
{
    let value = value_of(alloc, scope, value)?;
    push_move(steps, Move::Set(field_index(scope, header, field), value))
}

fn push_condition(
    alloc: Global,
    scope: &Scope,
    steps: &mut Vec<Step>,
    condition: &Expr,
) -> Result<(), NoMemory>
    ensures { OnOk result (AddsMove
        (λ c q. spec.meets (at_choice c (names_of scope.now)) (expr_of condition.now) q)
        steps.old.items steps.new.items) }
{
    let condition = value_of(alloc, scope, condition)?;
    push_move(steps, Move::Meet(condition))
}

/// The choice of a variable, which is bound then.
fn push_choice(
    alloc: Global,
    scope: &mut Scope,
    steps: &mut Vec<Step>,
    at: u32,
    name: &Name,
) -> Result<(), NoMemory>
    ensures names { OnOk result
        (names_of scope.new ≡ bound (name_of name.now) (names_of scope.old)) }
    ensures adds { OnOk result (AddsMove
        (λ c q. spec.chooses_var (at_choice c (names_of scope.old)) at q)
        steps.old.items steps.new.items) }
{
    push_move(steps, Move::ChooseVar(at))?;
    bind(alloc, scope, name)
}

fn push_field_choice(
    scope: &Scope,
    steps: &mut Vec<Step>,
    at: u32,
    header: &Name,
    field: &Name,
) -> Result<(), NoMemory>
    ensures { OnOk result (AddsMove
        (λ c q. spec.with_field (at_choice c (names_of scope.now)) (name_of header.now)
        (name_of field.now) (spec.made_at (at_choice c (names_of scope.now)) at)
        (spec.chooses (at_choice c (names_of scope.now)) at q))
        steps.old.items steps.new.items) }
{
    push_move(
        steps,
        Move::ChooseField(field_index(scope, header, field), at),
    )
}

/// Both blocks of an `if`.
fn push_branch(
    scope: &Scope,
    steps: &mut Vec<Step>,
    first: Vec<Step>,
    second: Vec<Step>,
) -> Result<(), NoMemory>
    ensures { OnOk result (AddsBranch
        (names_of scope.now) first.items second.items steps.old.items steps.new.items) }
{
    steps.push(Step::Branch(count(scope), first, second))?;
    Ok(())
}

/// The block of a `fork`.
fn push_fork(steps: &mut Vec<Step>, body: Vec<Step>) -> Result<(), NoMemory>
    ensures { OnOk result (AddsFork body.items steps.old.items steps.new.items) }
{
    steps.push(Step::Fork(body))?;
    Ok(())
}

/// A `send` of these values.
fn push_send(
    alloc: Global,
    scope: &Scope,
    steps: &mut Vec<Step>,
    args: &[Expr],
) -> Result<(), NoMemory>
    ensures { OnOk result (AddsSend (names_of scope.now)
        (exprs_of (map expr_of args.now)) steps.old.items steps.new.items) }
{
    let sent = values_of(alloc, scope, args)?;
    steps.push(Step::Send(sent))?;
    Ok(())
}
