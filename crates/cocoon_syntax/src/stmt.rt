//! Statements.
ghost use Rattle.std.specs.Prelude.{◌≡◌, IfOk, map};
ghost use Rattle.cocoon_syntax.specs.TreeOf.{stmt_kind_of, stmt_of};

use crate::expr::{Expr, copy_exprs};
use crate::name::{Name, copy_two};
use cocoon_num::copies::Copied;
use cocoon_num::{NoMemory, both, three};
use std::alloc::Global;

/// A statement, and the index of its first token.
#[cycle(stmt)]
#[derive(Drop)]
pub struct Stmt {
    pub at: u32,
    pub kind: StmtKind,
}

#[cycle(stmt)]
#[derive(Drop)]
pub enum StmtKind {
    /// The variable, its width in bits, and its value.
    Let(Name, u32, Expr),
    /// The header, its field, and the value.
    SetField(Name, Name, Expr),
    /// The condition, what is done where it is true, and what is done where it is false.
    If(Expr, Vec<Stmt>, Vec<Stmt>),
    Filter(Expr),
    /// The variable, and its width in bits.
    HavocVar(Name, u32),
    /// The header, and its field.
    HavocField(Name, Name),
    Assume(Expr),
    /// The variable, its width in bits, the condition on it, and what is done for each value.
    Fork(Name, u32, Expr, Vec<Stmt>),
    /// The role, and its arguments in order.
    Send(Name, Vec<Expr>),
}

impl Stmt {
    /// The same tree, in memory of its own.
    pub fn copy(&self, alloc: Global) -> Result<Stmt, NoMemory>
        ensures { IfOk result (λ stmt. stmt_of stmt ≡ stmt_of self.now) }
    {
        copy_stmt(alloc, self)
    }
}

#[cycle(copy)]
fn copy_stmt(alloc: Global, stmt: &Stmt) -> Result<Stmt, NoMemory>
    ensures { IfOk result (λ copy. stmt_of copy ≡ stmt_of stmt.now) }
{
    Ok(Stmt {
        at: stmt.at,
        kind: copy_kind(alloc, &stmt.kind)?,
    })
}

#[cycle(copy)]
fn copy_kind(alloc: Global, kind: &StmtKind) -> Result<StmtKind, NoMemory>
    ensures { IfOk result (λ copy. stmt_kind_of copy ≡ stmt_kind_of kind.now) }
{
    match kind {
        StmtKind::Let(name, width, value) => {
            let (name, value) = both(name.copy(alloc), value.copy(alloc))?;
            Ok(StmtKind::Let(name, *width, value))
        }
        StmtKind::SetField(header, field, value) => {
            let ((header, field), value) = both(copy_two(alloc, header, field), value.copy(alloc))?;
            Ok(StmtKind::SetField(header, field, value))
        }
        StmtKind::If(condition, first, second) => {
            let (condition, first, second) = three(
                condition.copy(alloc),
                copy_stmts(alloc, first),
                copy_stmts(alloc, second),
            )?;
            Ok(StmtKind::If(condition, first, second))
        }
        StmtKind::Filter(condition) => Ok(StmtKind::Filter(condition.copy(alloc)?)),
        StmtKind::HavocVar(name, width) => Ok(StmtKind::HavocVar(name.copy(alloc)?, *width)),
        StmtKind::HavocField(header, field) => {
            let (header, field) = copy_two(alloc, header, field)?;
            Ok(StmtKind::HavocField(header, field))
        }
        StmtKind::Assume(condition) => Ok(StmtKind::Assume(condition.copy(alloc)?)),
        StmtKind::Fork(name, width, condition, body) => {
            let (name, condition, body) = three(
                name.copy(alloc),
                condition.copy(alloc),
                copy_stmts(alloc, body),
            )?;
            Ok(StmtKind::Fork(name, *width, condition, body))
        }
        StmtKind::Send(role, args) => {
            let (role, args) = both(role.copy(alloc), copy_exprs(alloc, args))?;
            Ok(StmtKind::Send(role, args))
        }
    }
}

#[cycle(copy)]
pub(crate) fn copy_stmts(alloc: Global, stmts: &[Stmt]) -> Result<Vec<Stmt>, NoMemory>
    ensures { IfOk result (λ copies. map stmt_of copies.items ≡ map stmt_of stmts.now) }
{
    let mut copies = Vec::new(alloc);
    for stmt in stmts {
        copies.push(copy_stmt(alloc, stmt)?)?;
    }
    Ok(copies)
}
