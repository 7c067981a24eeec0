//! The walk over expressions.
ghost use Rattle.cocoon_num.specs.Tree as tree;
ghost use Rattle.cocoon_syntax.specs.TreeOf.{design_of, expr_of, exprs_of, kind_of, name_of};
ghost use Rattle.cocoon_types.specs.NameRules.{unknown_field};
ghost use Rattle.cocoon_types.specs.Noting.{Notes};
ghost use Rattle.cocoon_types.specs.Rules.{unknown_name};
ghost use Rattle.cocoon_types.specs.Typing.{Scope};
ghost use Rattle.declarations.specs.Declares.{Declares};
ghost use Rattle.cocoon_types.specs.Among.{among};
ghost use Rattle.std.specs.Prelude.{◌≡◌, Bool, List, map, ℕ};
ghost use Rattle.name_rules.specs.Tests.{at_expr, in_expr, in_exprs, is_from, scope_at};

use crate::point::Point;
use cocoon_syntax::{Design, Expr, ExprKind, Name};
use cocoon_types::first_faults::noting_laws;
use cocoon_types::{Noted, TypeRule, note_unless};
use declarations::{Declarations, FunId, Scopes};

/// Notes a header that is not declared, or else a field that it has not.
pub(crate) fn note_field(
    names: &Declarations,
    design: &Design,
    header: &Name,
    field: &Name,
    noted: &mut Noted,
)
    requires { Declares names.now (design_of design.now) }
    ensures { (s : Scope) → s.design ≡ design_of design.now
        → Notes (among unknown_name (unknown_field s (name_of header.now) (name_of field.now)))
        noted.old noted.new }
{
    match names.header(design, header.text.bytes()) {
        Some(_) => {
            let width = names.field_width(design, header.text.bytes(), field.text.bytes());
            note_unless(noted, width.is_some(), TypeRule::UnknownName, field.at);
        }
        None => note_unless(noted, false, TypeRule::UnknownName, header.at),
    }
}

/// The function of this number is not among the first of this count.
fn is_from(count: u32, number: Option<FunId>) -> bool
    ensures { result ≡ is_from count number }
{
    match number {
        Some(number) => count <= number,
        None => false,
    }
}

/// Notes a function that is not declared, or not before this point.
fn note_function(
    names: &Declarations,
    design: &Design,
    point: Point,
    function: &Name,
    noted: &mut Noted,
)
    requires { Declares names.now (design_of design.now) }
    ensures { (vars : List tree.Param) (packet : Bool) (at : ℕ) (es : tree.Exprs) → Notes
        (at_expr (record {
          scope = scope_at (design_of design.now) point vars packet;
          e = tree.call at (name_of function.now) es;
        }))
        noted.old noted.new }
{
    noting_laws();
    let number = names.function_of(design, function.text.bytes());
    let late = is_from(point.functions, number);
    note_unless(noted, number.is_some(), TypeRule::UnknownName, function.at);
    note_unless(noted, !late, TypeRule::LateFunction, function.at);
}

/// Notes the faults of an expression and of its parts.
#[cycle(note)]
pub(crate) fn note_expr(
    names: &Declarations,
    design: &Design,
    point: Point,
    vars: &Scopes,
    expr: &Expr,
    noted: &mut Noted,
)
    requires { Declares names.now (design_of design.now) }
    ensures { (packet : Bool) → Notes
        (in_expr (scope_at (design_of design.now) point vars.now packet) (expr_of expr.now))
        noted.old noted.new }
{
    note_kind(names, design, point, vars, expr.at, &expr.kind, noted);
}

#[cycle(note)]
fn note_kind(
    names: &Declarations,
    design: &Design,
    point: Point,
    vars: &Scopes,
    at: u32,
    kind: &ExprKind,
    noted: &mut Noted,
)
    requires { Declares names.now (design_of design.now) }
    ensures { (packet : Bool) → Notes
        (in_expr (scope_at (design_of design.now) point vars.now packet) (kind_of kind.now at))
        noted.old noted.new }
{
    noting_laws();
    match kind {
        ExprKind::Name(name) => {
            let width = vars.width(name.bytes());
            note_unless(noted, width.is_some(), TypeRule::UnknownName, at);
        }
        ExprKind::Field(header, field) => note_field(names, design, header, field, noted),
        ExprKind::Lit(_) | ExprKind::Truth(_) => (),
        ExprKind::Call(function, args) => {
            note_function(names, design, point, function, noted);
            note_args(names, design, point, vars, args, noted);
        }
        ExprKind::Unary(_, a) => note_expr(names, design, point, vars, a, noted),
        ExprKind::Binary(_, first, second) => {
            note_expr(names, design, point, vars, first, noted);
            note_expr(names, design, point, vars, second, noted);
        }
        ExprKind::Slice(a, _, _) => note_expr(names, design, point, vars, a, noted),
        ExprKind::Pick(condition, first, second) => {
            note_expr(names, design, point, vars, condition, noted);
            note_expr(names, design, point, vars, first, noted);
            note_expr(names, design, point, vars, second, noted);
        }
    }
}

/// Notes the faults of some values and of their parts.
#[cycle(note)]
pub(crate) fn note_args(
    names: &Declarations,
    design: &Design,
    point: Point,
    vars: &Scopes,
    args: &[Expr],
    noted: &mut Noted,
)
    requires { Declares names.now (design_of design.now) }
    ensures { (packet : Bool) → Notes
        (in_exprs (scope_at (design_of design.now) point vars.now packet) (map expr_of args.now))
        noted.old noted.new }
{
    noting_laws();
    for arg in args {
        note_expr(names, design, point, vars, arg, noted);
    }
}
