//! The walk over expressions: each node's type is computed once, and its faults are noted.
ghost use Rattle.cocoon_num.specs.Tree as tree;
ghost use Rattle.cocoon_syntax.specs.TreeOf.{design_of, expr_of, exprs_of, kind_of, name_of, param_of};
ghost use Rattle.cocoon_types.specs.Design.{widths_of};
ghost use Rattle.cocoon_types.specs.Noting.{Notes};
ghost use Rattle.declarations.specs.Declares.{Declares};
ghost use Rattle.std.specs.Prelude.{◌≡◌, map};
ghost use Rattle.type_rules.specs.Tests.{in_expr, in_exprs};
ghost use Rattle.type_rules.specs.Typed.{AreArgs, Around, IsTyped, scope_of};

use crate::calls::{Args, note_call, parameters};
use crate::operands::{note_binary, note_field, note_pick, note_slice, note_unary};
use crate::sort::{Sort, Typed, binary_sort, bits, pick_sort, slice_sort, unary_sort};
use cocoon_syntax::{Design, Expr, ExprKind, Name, Param};
use cocoon_types::Noted;
use cocoon_types::first_faults::noting_laws;
use declarations::{Declarations, Scopes};

/// Notes the faults of an expression and of its parts, and says of what type it is.
#[cycle(note)]
pub(crate) fn note_expr(
    names: &Declarations,
    design: &Design,
    vars: &Scopes,
    packet: bool,
    expr: &Expr,
    noted: &mut Noted,
) -> Typed
    requires { Declares names.now (design_of design.now) }
    ensures typed { (w : Around) → IsTyped result
        (scope_of w (design_of design.now) vars.now packet) (expr_of expr.now) }
    ensures noted { (w : Around) → Notes
        (in_expr (scope_of w (design_of design.now) vars.now packet) (expr_of expr.now))
        noted.old noted.new }
{
    let sort = note_kind(names, design, vars, packet, expr.at, &expr.kind, noted);
    Typed { at: expr.at, sort }
}

#[cycle(note)]
fn note_kind(
    names: &Declarations,
    design: &Design,
    vars: &Scopes,
    packet: bool,
    at: u32,
    kind: &ExprKind,
    noted: &mut Noted,
) -> Option<Sort>
    requires { Declares names.now (design_of design.now) }
    ensures typed { (w : Around) → IsTyped (record { at = at; sort = result })
        (scope_of w (design_of design.now) vars.now packet) (kind_of kind.now at) }
    ensures noted { (w : Around) → Notes
        (in_expr (scope_of w (design_of design.now) vars.now packet) (kind_of kind.now at))
        noted.old noted.new }
{
    noting_laws();
    match kind {
        ExprKind::Name(name) => bits(vars.width(name.bytes())),
        ExprKind::Field(header, field) => {
            note_field(at, packet, noted);
            let width = names.field_width(design, header.text.bytes(), field.text.bytes());
            if packet { bits(width) } else { None }
        }
        ExprKind::Lit(number) => Some(Sort::Bits(u32::from(number.width))),
        ExprKind::Truth(_) => Some(Sort::Truth),
        ExprKind::Call(function, args) => {
            let found = names.function_named(design, function.text.bytes());
            let values = note_args(names, design, vars, packet, parameters(found), args, noted);
            note_call(function, found, args.len(), &values, noted)
        }
        ExprKind::Unary(op, a) => {
            let a = note_expr(names, design, vars, packet, a, noted);
            note_unary(at, *op, a, noted);
            unary_sort(*op, a.sort)
        }
        ExprKind::Binary(op, first, second) => {
            let first = note_expr(names, design, vars, packet, first, noted);
            let second = note_expr(names, design, vars, packet, second, noted);
            note_binary(at, *op, first, second, noted);
            binary_sort(*op, first.sort, second.sort)
        }
        ExprKind::Slice(a, high, low) => {
            let a = note_expr(names, design, vars, packet, a, noted);
            note_slice(at, a, *high, *low, noted);
            slice_sort(a.sort, *high, *low)
        }
        ExprKind::Pick(condition, first, second) => {
            let condition = note_expr(names, design, vars, packet, condition, noted);
            let first = note_expr(names, design, vars, packet, first, noted);
            let second = note_expr(names, design, vars, packet, second, noted);
            note_pick(at, condition, first, second, noted);
            pick_sort(condition.sort, first.sort, second.sort)
        }
    }
}

/// Notes the faults of some values and of their parts, and tests them against parameters.
#[cycle(note)]
pub(crate) fn note_args(
    names: &Declarations,
    design: &Design,
    vars: &Scopes,
    packet: bool,
    params: &[Param],
    args: &[Expr],
    noted: &mut Noted,
) -> Args
    requires { Declares names.now (design_of design.now) }
    ensures args { (w : Around) → AreArgs result (scope_of w (design_of design.now) vars.now packet)
        (widths_of (map param_of params.now)) (exprs_of (map expr_of args.now)) }
    ensures noted { (w : Around) → Notes
        (in_exprs (scope_of w (design_of design.now) vars.now packet) (map expr_of args.now))
        noted.old noted.new }
{
    noting_laws();
    let mut found = Args::new();
    for (index, arg) in args.iter().enumerate() {
        let arg = note_expr(names, design, vars, packet, arg, noted);
        found.add(params, index, arg);
    }
    found
}
