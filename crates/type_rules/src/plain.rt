//! Statements without a block: the faults of their expressions, and their own.
ghost use Rattle.cocoon_num.specs.Tree as tree;
ghost use Rattle.cocoon_syntax.specs.TreeOf.{design_of, expr_of, exprs_of, name_of};
ghost use Rattle.cocoon_types.specs.Noting.{Notes};
ghost use Rattle.declarations.specs.Declares.{Declares};
ghost use Rattle.std.specs.Prelude.{◌≡◌, map, true};
ghost use Rattle.type_rules.specs.Tests.{in_stmt};
ghost use Rattle.type_rules.specs.Typed.{Around, scope_of};

use crate::bodies::{note_condition, note_let, note_send, note_set_field, role_parameters};
use crate::exprs::{note_args, note_expr};
use cocoon_syntax::{Design, Expr, Name};
use cocoon_types::Noted;
use cocoon_types::first_faults::noting_laws;
use declarations::{Declarations, Scopes};

/// Of a `let`.
pub(crate) fn note_let_and_value(
    names: &Declarations,
    design: &Design,
    vars: &Scopes,
    at: u32,
    ended: bool,
    name: &Name,
    width: u32,
    value: &Expr,
    noted: &mut Noted,
)
    requires { Declares names.now (design_of design.now) }
    ensures { (w : Around) → Notes
        (in_stmt (scope_of w (design_of design.now) vars.now true) ended
        (tree.let_ at (name_of name.now) width (expr_of value.now)))
        noted.old noted.new }
{
    noting_laws();
    let value = note_expr(names, design, vars, true, value, noted);
    note_let(at, ended, name, width, value, noted);
}

/// Of a field that is set.
pub(crate) fn note_set_and_value(
    names: &Declarations,
    design: &Design,
    vars: &Scopes,
    at: u32,
    ended: bool,
    header: &Name,
    field: &Name,
    value: &Expr,
    noted: &mut Noted,
)
    requires { Declares names.now (design_of design.now) }
    ensures { (w : Around) → Notes
        (in_stmt (scope_of w (design_of design.now) vars.now true) ended
        (tree.set_field at (name_of header.now) (name_of field.now) (expr_of value.now)))
        noted.old noted.new }
{
    noting_laws();
    let value = note_expr(names, design, vars, true, value, noted);
    let width = names.field_width(design, header.text.bytes(), field.text.bytes());
    note_set_field(at, ended, width, value, noted);
}

/// Of a `filter`, and of an `assume`.
pub(crate) fn note_test(
    names: &Declarations,
    design: &Design,
    vars: &Scopes,
    at: u32,
    ended: bool,
    condition: &Expr,
    noted: &mut Noted,
)
    requires { Declares names.now (design_of design.now) }
    ensures filter { (w : Around) → Notes
        (in_stmt (scope_of w (design_of design.now) vars.now true) ended
        (tree.filter at (expr_of condition.now)))
        noted.old noted.new }
    ensures assume { (w : Around) → Notes
        (in_stmt (scope_of w (design_of design.now) vars.now true) ended
        (tree.assume at (expr_of condition.now)))
        noted.old noted.new }
{
    noting_laws();
    let condition = note_expr(names, design, vars, true, condition, noted);
    note_condition(at, ended, condition, noted);
}

/// Of a `send`.
pub(crate) fn note_send_and_values(
    names: &Declarations,
    design: &Design,
    vars: &Scopes,
    at: u32,
    ended: bool,
    role: &Name,
    args: &[Expr],
    noted: &mut Noted,
)
    requires { Declares names.now (design_of design.now) }
    ensures { (w : Around) → Notes
        (in_stmt (scope_of w (design_of design.now) vars.now true) ended
        (tree.send at (name_of role.now) (exprs_of (map expr_of args.now))))
        noted.old noted.new }
{
    noting_laws();
    let found = names.first_role(design, role.text.bytes());
    let params = role_parameters(found);
    let values = note_args(names, design, vars, true, params, args, noted);
    note_send(at, ended, found, args.len(), &values, noted);
}
