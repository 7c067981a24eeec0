//! The runs of statements and blocks, down their trees.
ghost use Rattle.std.specs.Prelude.{◌≡◌, IfOk, map, OnOk};
ghost use Rattle.cocoon_num.specs.Tree as tree;
ghost use Rattle.cocoon_syntax.specs.TreeOf.{block_of, expr_of, name_of, stmt_of};
ghost use Rattle.cocoon_types.specs.Taken.{only_sends};
ghost use Rattle.role_meaning.specs.Levels.{CanRun};
ghost use Rattle.role_meaning.specs.Progresses.{ended_of, EndsAt, Fits, Goes, Grows, Runs, RunsAll, RunsBranch};
ghost use Rattle.role_meaning.specs.declared.level.Level.{Level as At};
ghost use Rattle.role_meaning.specs.declared.progress.Progress.{Progress as Stand};

use crate::level::Level;
use crate::progress::{End, Progress};
use crate::steps::{
    bind_value, choose_field, choose_variable, enter_fork, fall_where, pick, send, set_field,
};
use cocoon_num::NoMemory;
use cocoon_syntax::{Expr, Name, Stmt, StmtKind};
use std::alloc::Global;

/// What a fork makes of the end of its body: only what sends goes on.
fn only_sent(end: Option<End>) -> Option<End>
    ensures ends { (l : At) (p : Stand) → ended_of l result p ≡ only_sends (ended_of l end p) }
    ensures at { (l : At) → EndsAt l end → EndsAt l result }
{
    match end? {
        End::Falls => None,
        End::Sends(to) => Some(End::Sends(to)),
    }
}

fn falls(end: &Option<End>) -> bool
    ensures { Goes result end.now }
{
    matches!(end, Some(End::Falls))
}

/// Runs statements one after another, up to the first that does not fall.
#[cycle(run)]
pub(crate) fn run_block(
    alloc: Global,
    level: &Level<'_>,
    progress: &mut Progress<'_>,
    stmts: &[Stmt],
) -> Result<Option<End>, NoMemory>
    requires ready { CanRun level.now }
    requires fits { Fits level.now progress.old }
    ensures runs { IfOk result (λ end. RunsAll level.now progress.old
        (block_of (map stmt_of stmts.now)) end progress.new) }
    ensures at { IfOk result (λ end. EndsAt level.now end) }
    ensures fits { OnOk result (Fits level.now progress.new) }
    ensures grows { OnOk result (Grows progress.old progress.new) }
{
    for stmt in stmts {
        let end = run_stmt(alloc, level, progress, stmt)?;
        if !falls(&end) {
            return Ok(end);
        }
    }
    Ok(Some(End::Falls))
}

/// Runs a block whose variables end with it.
#[cycle(run)]
fn run_branch(
    alloc: Global,
    level: &Level<'_>,
    progress: &mut Progress<'_>,
    stmts: &[Stmt],
) -> Result<Option<End>, NoMemory>
    requires ready { CanRun level.now }
    requires fits { Fits level.now progress.old }
    ensures runs { IfOk result (λ end. RunsBranch level.now progress.old
        (block_of (map stmt_of stmts.now)) end progress.new) }
    ensures at { IfOk result (λ end. EndsAt level.now end) }
    ensures fits { OnOk result (Fits level.now progress.new) }
    ensures same { OnOk result
        (progress.new.state.variables.items ≡ progress.old.state.variables.items) }
{
    let count = progress.state.variables.len();
    let end = run_block(alloc, level, progress, stmts)?;
    progress.state.variables.truncate(count);
    Ok(end)
}

/// Runs one of two blocks, by the value of a condition.
#[cycle(run)]
fn run_if(
    alloc: Global,
    level: &Level<'_>,
    progress: &mut Progress<'_>,
    condition: &Expr,
    first: &[Stmt],
    second: &[Stmt],
) -> Result<Option<End>, NoMemory>
    requires ready { CanRun level.now }
    requires fits { Fits level.now progress.old }
    ensures runs { IfOk result (λ end. Runs level.now progress.old
        (tree.if_ 0 (expr_of condition.now) (block_of (map stmt_of first.now))
        (block_of (map stmt_of second.now))) end progress.new) }
    ensures at { IfOk result (λ end. EndsAt level.now end) }
    ensures fits { OnOk result (Fits level.now progress.new) }
    ensures same { OnOk result
        (progress.new.state.variables.items ≡ progress.old.state.variables.items) }
{
    match pick(alloc, level, progress, condition, first, second)? {
        Some(block) => run_branch(alloc, level, progress, block),
        None => Ok(None),
    }
}

/// Runs the body of a fork, with its variable bound to a choice.
#[cycle(run)]
fn run_fork(
    alloc: Global,
    level: &Level<'_>,
    progress: &mut Progress<'_>,
    name: &Name,
    width: u32,
    condition: &Expr,
    body: &[Stmt],
) -> Result<Option<End>, NoMemory>
    requires ready { CanRun level.now }
    requires fits { Fits level.now progress.old }
    ensures runs { IfOk result (λ end. Runs level.now progress.old
        (tree.fork 0 (name_of name.now) width (expr_of condition.now)
        (block_of (map stmt_of body.now))) end progress.new) }
    ensures at { IfOk result (λ end. EndsAt level.now end) }
    ensures fits { OnOk result (Fits level.now progress.new) }
    ensures grows { OnOk result (Grows progress.old progress.new) }
{
    if enter_fork(alloc, level, progress, name, width, condition)? {
        Ok(only_sent(run_block(alloc, level, progress, body)?))
    } else {
        Ok(None)
    }
}

#[cycle(run)]
fn run_stmt(
    alloc: Global,
    level: &Level<'_>,
    progress: &mut Progress<'_>,
    stmt: &Stmt,
) -> Result<Option<End>, NoMemory>
    requires ready { CanRun level.now }
    requires fits { Fits level.now progress.old }
    ensures runs { IfOk result (λ end. Runs level.now progress.old (stmt_of stmt.now)
        end progress.new) }
    ensures at { IfOk result (λ end. EndsAt level.now end) }
    ensures fits { OnOk result (Fits level.now progress.new) }
    ensures grows { OnOk result (Grows progress.old progress.new) }
{
    match &stmt.kind {
        StmtKind::Let(name, _, value) => bind_value(alloc, level, progress, name, value),
        StmtKind::SetField(header, field, value) => {
            set_field(alloc, level, progress, header, field, value)
        }
        StmtKind::If(condition, first, second) => {
            run_if(alloc, level, progress, condition, first, second)
        }
        StmtKind::Filter(condition) => fall_where(alloc, level, progress, condition),
        StmtKind::HavocVar(name, width) => choose_variable(alloc, level, progress, name, *width),
        StmtKind::HavocField(header, field) => Ok(choose_field(level, progress, header, field)),
        StmtKind::Assume(condition) => fall_where(alloc, level, progress, condition),
        StmtKind::Fork(name, width, condition, body) => {
            run_fork(alloc, level, progress, name, *width, condition, body)
        }
        StmtKind::Send(role, args) => send(alloc, level, progress, role, args),
    }
}
