//! The walk over statements: each block's variables leave the scope at its end.
ghost use Rattle.cocoon_num.specs.Tree as tree;
ghost use Rattle.cocoon_syntax.specs.TreeOf.{block_of, design_of, expr_of, name_of, stmt_kind_of, stmt_of};
ghost use Rattle.cocoon_types.specs.Noting.{Notes};
ghost use Rattle.cocoon_types.specs.Sites.{after_stmt, block_ends, stmt_ends};
ghost use Rattle.declarations.specs.Declares.{Declares};
ghost use Rattle.std.specs.Prelude.{◌≡◌, ◌&&◌, ◌||◌, false, IfOk, map, OnOk, true};
ghost use Rattle.type_rules.specs.Tests.{in_block, in_stmt};
ghost use Rattle.type_rules.specs.Typed.{Around, scope_of};

use crate::bodies::{note_condition, note_fork, note_havoc, note_havoc_field};
use crate::exprs::note_expr;
use crate::plain::{note_let_and_value, note_send_and_values, note_set_and_value, note_test};
use cocoon_num::NoMemory;
use cocoon_syntax::{Design, Expr, Name, Stmt, StmtKind};
use cocoon_types::Noted;
use cocoon_types::first_faults::noting_laws;
use declarations::{Declarations, Scopes};
use std::alloc::Global;

/// The first ends, or the second.
fn either(first: bool, second: bool) -> bool
    ensures { result ≡ (first || second) }
{
    first || second
}

/// Both end.
fn both(first: bool, second: bool) -> bool
    ensures { result ≡ (first && second) }
{
    first && second
}

/// Notes the faults of a block, and says whether it ends.
#[cycle(stmts)]
pub(crate) fn note_block(
    alloc: Global,
    names: &Declarations,
    design: &Design,
    vars: &mut Scopes,
    stmts: &[Stmt],
    noted: &mut Noted,
) -> Result<bool, NoMemory>
    requires { Declares names.now (design_of design.now) }
    ensures vars { OnOk result (vars.new ≡ vars.old) }
    ensures ends { IfOk result (λ ends. ends ≡ block_ends (block_of (map stmt_of stmts.now))) }
    ensures noted { (w : Around) → OnOk result (Notes
        (in_block (scope_of w (design_of design.now) vars.old true) false
        (block_of (map stmt_of stmts.now)))
        noted.old noted.new) }
{
    noting_laws();
    let depth = vars.depth();
    let mut ended = false;
    for stmt in stmts {
        let ends = note_stmt(alloc, names, design, vars, ended, stmt, noted)?;
        ended = either(ended, ends);
    }
    vars.close(depth)?;
    Ok(ended)
}

/// Notes the faults of a statement, its blocks included, and says whether it ends. Its variable enters the scope.
#[cycle(stmts)]
fn note_stmt(
    alloc: Global,
    names: &Declarations,
    design: &Design,
    vars: &mut Scopes,
    ended: bool,
    stmt: &Stmt,
    noted: &mut Noted,
) -> Result<bool, NoMemory>
    requires { Declares names.now (design_of design.now) }
    ensures vars { (w : Around) → OnOk result (vars.new
        ≡ (after_stmt (stmt_of stmt.now) (scope_of w (design_of design.now) vars.old true)).vars) }
    ensures ends { IfOk result (λ ends. ends ≡ stmt_ends (stmt_of stmt.now)) }
    ensures noted { (w : Around) → OnOk result (Notes
        (in_stmt (scope_of w (design_of design.now) vars.old true) ended (stmt_of stmt.now))
        noted.old noted.new) }
{
    note_stmt_kind(
        alloc, names, design, vars, ended, stmt.at, &stmt.kind, noted,
    )
}

/// Notes the faults of a fork, and of its condition and its block, where its variable is in scope. A fork ends.
#[cycle(stmts)]
fn note_fork_and_block(
    alloc: Global,
    names: &Declarations,
    design: &Design,
    vars: &mut Scopes,
    at: u32,
    ended: bool,
    name: &Name,
    width: u32,
    body: &[Stmt],
    condition: &Expr,
    noted: &mut Noted,
) -> Result<bool, NoMemory>
    requires { Declares names.now (design_of design.now) }
    ensures vars { OnOk result (vars.new ≡ vars.old) }
    ensures ends { IfOk result (λ ends. ends ≡ true) }
    ensures noted { (w : Around) → OnOk result (Notes
        (in_stmt (scope_of w (design_of design.now) vars.old true) ended
        (tree.fork at (name_of name.now) width (expr_of condition.now)
        (block_of (map stmt_of body.now))))
        noted.old noted.new) }
{
    noting_laws();
    let depth = vars.depth();
    vars.bind(alloc, name, width)?;
    let condition = note_expr(names, design, vars, true, condition, noted);
    note_fork(at, ended, name, width, condition, noted);
    note_block(alloc, names, design, vars, body, noted)?;
    vars.close(depth)?;
    Ok(true)
}

#[cycle(stmts)]
fn note_stmt_kind(
    alloc: Global,
    names: &Declarations,
    design: &Design,
    vars: &mut Scopes,
    ended: bool,
    at: u32,
    kind: &StmtKind,
    noted: &mut Noted,
) -> Result<bool, NoMemory>
    requires { Declares names.now (design_of design.now) }
    ensures vars { (w : Around) → OnOk result (vars.new ≡ (after_stmt (stmt_kind_of kind.now at)
        (scope_of w (design_of design.now) vars.old true)).vars) }
    ensures ends { IfOk result (λ ends. ends ≡ stmt_ends (stmt_kind_of kind.now at)) }
    ensures noted { (w : Around) → OnOk result (Notes
        (in_stmt (scope_of w (design_of design.now) vars.old true) ended (stmt_kind_of kind.now at))
        noted.old noted.new) }
{
    noting_laws();
    match kind {
        StmtKind::Let(name, width, value) => {
            note_let_and_value(names, design, vars, at, ended, name, *width, value, noted);
            vars.bind(alloc, name, *width)?;
            Ok(false)
        }
        StmtKind::SetField(header, field, value) => {
            note_set_and_value(names, design, vars, at, ended, header, field, value, noted);
            Ok(false)
        }
        StmtKind::If(condition, first, second) => {
            let condition = note_expr(names, design, vars, true, condition, noted);
            note_condition(at, ended, condition, noted);
            let first = note_block(alloc, names, design, vars, first, noted)?;
            let second = note_block(alloc, names, design, vars, second, noted)?;
            Ok(both(first, second))
        }
        StmtKind::Filter(condition) | StmtKind::Assume(condition) => {
            note_test(names, design, vars, at, ended, condition, noted);
            Ok(false)
        }
        StmtKind::HavocVar(name, width) => {
            note_havoc(at, ended, name, *width, noted);
            vars.bind(alloc, name, *width)?;
            Ok(false)
        }
        StmtKind::HavocField(_, _) => {
            note_havoc_field(at, ended, noted);
            Ok(false)
        }
        StmtKind::Fork(name, width, condition, body) => note_fork_and_block(
            alloc, names, design, vars, at, ended, name, *width, body, condition, noted,
        ),
        StmtKind::Send(role, args) => {
            note_send_and_values(names, design, vars, at, ended, role, args, noted);
            Ok(true)
        }
    }
}
