//! The walk over statements: each block's variables leave the scope at its end.
ghost use Rattle.cocoon_num.specs.Tree as tree;
ghost use Rattle.cocoon_syntax.specs.TreeOf.{block_of, design_of, expr_of, name_of, stmt_kind_of, stmt_of};
ghost use Rattle.cocoon_types.specs.NameRules.{unknown_role_at};
ghost use Rattle.cocoon_types.specs.Noting.{Notes};
ghost use Rattle.cocoon_types.specs.RuleParts.{unless_named};
ghost use Rattle.cocoon_types.specs.Rules.{twice, unknown_role};
ghost use Rattle.cocoon_types.specs.Sites.{after_stmt};
ghost use Rattle.cocoon_types.specs.Typing.{Scope};
ghost use Rattle.declarations.specs.Declares.{Declares};
ghost use Rattle.cocoon_types.specs.Among.{among};
ghost use Rattle.declarations.specs.Widths.{variable, width_in};
ghost use Rattle.std.specs.Prelude.{◌≡◌, ◌∷◌, Bool, is_none, map, ℕ, OnOk, true};
ghost use Rattle.name_rules.specs.Tests.{in_block, in_stmt, scope_at};

use crate::exprs::{note_args, note_expr, note_field};
use crate::point::Point;
use cocoon_num::NoMemory;
use cocoon_syntax::{Design, Expr, Name, Stmt, StmtKind};
use cocoon_types::first_faults::noting_laws;
use cocoon_types::{Noted, TypeRule, note_unless};
use declarations::{Declarations, Scopes};
use std::alloc::Global;

/// Notes a variable that is in scope already.
fn note_bound(vars: &Scopes, name: &Name, noted: &mut Noted)
    ensures { Notes
        (among twice (unless_named (is_none (width_in vars.now name.now.text)) (name_of name.now)))
        noted.old noted.new }
{
    let width = vars.width(name.text.bytes());
    note_unless(noted, width.is_none(), TypeRule::Twice, name.at);
}

/// Notes a role that is not declared up to this level.
fn note_role(names: &Declarations, design: &Design, level: u32, role: &Name, noted: &mut Noted)
    requires { Declares names.now (design_of design.now) }
    ensures { (s : Scope) → s.design ≡ design_of design.now → s.level ≡ level
        → Notes (among unknown_role (unknown_role_at s (name_of role.now))) noted.old noted.new }
{
    let found = names.role_at(design, role.text.bytes(), level);
    note_unless(noted, found.is_some(), TypeRule::UnknownRole, role.at);
}

/// Notes the faults of a `let`. Its variable enters the scope.
fn note_let(
    alloc: Global,
    names: &Declarations,
    design: &Design,
    point: Point,
    vars: &mut Scopes,
    name: &Name,
    width: u32,
    value: &Expr,
    noted: &mut Noted,
) -> Result<(), NoMemory>
    requires { Declares names.now (design_of design.now) }
    ensures vars { OnOk result (vars.new ≡ variable (name_of name.now) width ∷ vars.old) }
    ensures noted { (ended : Bool) (at : ℕ) → OnOk result (Notes
        (in_stmt (scope_at (design_of design.now) point vars.old true) ended
        (tree.let_ at (name_of name.now) width (expr_of value.now)))
        noted.old noted.new) }
{
    noting_laws();
    note_bound(vars, name, noted);
    note_expr(names, design, point, vars, value, noted);
    vars.bind(alloc, name, width)?;
    Ok(())
}

/// Notes the faults of a variable that is chosen. It enters the scope.
fn note_havoc(
    alloc: Global,
    vars: &mut Scopes,
    name: &Name,
    width: u32,
    noted: &mut Noted,
) -> Result<(), NoMemory>
    ensures vars { OnOk result (vars.new ≡ variable (name_of name.now) width ∷ vars.old) }
    ensures noted { (design : tree.Design) (point : Point) (ended : Bool) (at : ℕ)
        → OnOk result (Notes (in_stmt (scope_at design point vars.old true) ended
        (tree.havoc_var at (name_of name.now) width))
        noted.old noted.new) }
{
    noting_laws();
    note_bound(vars, name, noted);
    vars.bind(alloc, name, width)?;
    Ok(())
}

/// Notes the faults of a block.
#[cycle(stmts)]
pub(crate) fn note_block(
    alloc: Global,
    names: &Declarations,
    design: &Design,
    point: Point,
    vars: &mut Scopes,
    stmts: &[Stmt],
    noted: &mut Noted,
) -> Result<(), NoMemory>
    requires { Declares names.now (design_of design.now) }
    ensures vars { OnOk result (vars.new ≡ vars.old) }
    ensures noted { (ended : Bool) → OnOk result (Notes
        (in_block (scope_at (design_of design.now) point vars.old true) ended
        (block_of (map stmt_of stmts.now)))
        noted.old noted.new) }
{
    noting_laws();
    let depth = vars.depth();
    for stmt in stmts {
        note_stmt(alloc, names, design, point, vars, stmt, noted)?;
    }
    vars.close(depth)?;
    Ok(())
}

/// Notes the faults of a statement, its blocks included. Its variable enters the scope.
#[cycle(stmts)]
fn note_stmt(
    alloc: Global,
    names: &Declarations,
    design: &Design,
    point: Point,
    vars: &mut Scopes,
    stmt: &Stmt,
    noted: &mut Noted,
) -> Result<(), NoMemory>
    requires { Declares names.now (design_of design.now) }
    ensures vars { OnOk result (vars.new ≡ (after_stmt (stmt_of stmt.now)
        (scope_at (design_of design.now) point vars.old true)).vars) }
    ensures noted { (ended : Bool) → OnOk result (Notes
        (in_stmt (scope_at (design_of design.now) point vars.old true) ended (stmt_of stmt.now))
        noted.old noted.new) }
{
    note_stmt_kind(
        alloc, names, design, point, vars, stmt.at, &stmt.kind, noted,
    )
}

/// Notes the faults of a fork: of its variable, and of its condition and its block, where the variable is in scope.
#[cycle(stmts)]
fn note_fork(
    alloc: Global,
    names: &Declarations,
    design: &Design,
    point: Point,
    vars: &mut Scopes,
    name: &Name,
    width: u32,
    body: &[Stmt],
    condition: &Expr,
    noted: &mut Noted,
) -> Result<(), NoMemory>
    requires { Declares names.now (design_of design.now) }
    ensures vars { OnOk result (vars.new ≡ vars.old) }
    ensures noted { (ended : Bool) (at : ℕ) → OnOk result (Notes
        (in_stmt (scope_at (design_of design.now) point vars.old true) ended
        (tree.fork at (name_of name.now) width (expr_of condition.now)
        (block_of (map stmt_of body.now))))
        noted.old noted.new) }
{
    noting_laws();
    note_bound(vars, name, noted);
    let depth = vars.depth();
    vars.bind(alloc, name, width)?;
    note_expr(names, design, point, vars, condition, noted);
    note_block(alloc, names, design, point, vars, body, noted)?;
    vars.close(depth)?;
    Ok(())
}

#[cycle(stmts)]
fn note_stmt_kind(
    alloc: Global,
    names: &Declarations,
    design: &Design,
    point: Point,
    vars: &mut Scopes,
    at: u32,
    kind: &StmtKind,
    noted: &mut Noted,
) -> Result<(), NoMemory>
    requires { Declares names.now (design_of design.now) }
    ensures vars { OnOk result (vars.new ≡ (after_stmt (stmt_kind_of kind.now at)
        (scope_at (design_of design.now) point vars.old true)).vars) }
    ensures noted { (ended : Bool) → OnOk result (Notes
        (in_stmt (scope_at (design_of design.now) point vars.old true) ended
        (stmt_kind_of kind.now at))
        noted.old noted.new) }
{
    noting_laws();
    match kind {
        StmtKind::Let(name, width, value) => note_let(
            alloc, names, design, point, vars, name, *width, value, noted,
        ),
        StmtKind::SetField(header, field, value) => {
            note_field(names, design, header, field, noted);
            note_expr(names, design, point, vars, value, noted);
            Ok(())
        }
        StmtKind::If(condition, first, second) => {
            note_expr(names, design, point, vars, condition, noted);
            note_block(alloc, names, design, point, vars, first, noted)?;
            note_block(alloc, names, design, point, vars, second, noted)?;
            Ok(())
        }
        StmtKind::Filter(condition) => {
            note_expr(names, design, point, vars, condition, noted);
            Ok(())
        }
        StmtKind::Assume(condition) => {
            note_expr(names, design, point, vars, condition, noted);
            Ok(())
        }
        StmtKind::HavocVar(name, width) => note_havoc(alloc, vars, name, *width, noted),
        StmtKind::HavocField(header, field) => {
            note_field(names, design, header, field, noted);
            Ok(())
        }
        StmtKind::Fork(name, width, condition, body) => note_fork(
            alloc, names, design, point, vars, name, *width, body, condition, noted,
        ),
        StmtKind::Send(role, args) => {
            note_role(names, design, point.level, role, noted);
            note_args(names, design, point, vars, args, noted);
            Ok(())
        }
    }
}
