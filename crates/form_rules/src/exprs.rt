//! What the rules ask of expressions: the variables that occur in one, and each `pkt` in it.
ghost use Rattle.form_rules.specs.Stmts.{fields_in, fields_of};
ghost use Rattle.form_rules.specs.Tested.{any_mentions};
ghost use Rattle.cocoon_num.specs.Names.{same_name};
ghost use Rattle.cocoon_num.specs.Tree.{name};
ghost use Rattle.cocoon_syntax.specs.TreeOf.{expr_of, exprs_of};
ghost use Rattle.cocoon_types.specs.FormRules as spec;
ghost use Rattle.cocoon_types.specs.Noting.{Notes};
ghost use Rattle.cocoon_types.specs.Rules.{not_wire};
ghost use Rattle.cocoon_types.specs.SameTrees.{same_expr};
ghost use Rattle.cocoon_types.specs.Among.{among};
ghost use Rattle.std.specs.Prelude.{◌≡◌, map};

use cocoon_syntax::{Expr, ExprKind};
use cocoon_types::{Noted, TypeRule, among_laws, note_unless};

/// Two names are the same.
pub(crate) fn is_same(name: &[u8], other: &[u8]) -> bool
    ensures { result ≡ same_name name.now other.now }
{
    name == other
}

/// An expression is this variable.
pub(crate) fn is_variable(expr: &Expr, variable: &[u8]) -> bool
    ensures { result ≡ same_expr (expr_of expr.now) (name 0 variable.now) }
{
    match &expr.kind {
        ExprKind::Name(text) => is_same(text.bytes(), variable),
        _ => false,
    }
}

/// A variable occurs in an expression.
#[cycle(mentions)]
pub(crate) fn mentions(name: &[u8], expr: &Expr) -> bool
    ensures { result ≡ spec.mentions name.now (expr_of expr.now) }
{
    match &expr.kind {
        ExprKind::Name(text) => is_same(text.bytes(), name),
        ExprKind::Field(_, _) => false,
        ExprKind::Lit(_) => false,
        ExprKind::Truth(_) => false,
        ExprKind::Call(_, args) => mentions_in(name, args),
        ExprKind::Unary(_, a) => mentions(name, a),
        ExprKind::Binary(_, a, b) => mentions(name, a) || mentions(name, b),
        ExprKind::Slice(a, _, _) => mentions(name, a),
        ExprKind::Pick(condition, a, b) => {
            mentions(name, condition) || mentions(name, a) || mentions(name, b)
        }
    }
}

/// It occurs in one of some expressions.
#[cycle(mentions)]
pub(crate) fn mentions_in(name: &[u8], exprs: &[Expr]) -> bool
    ensures { result ≡ any_mentions name.now (exprs_of (map expr_of exprs.now)) }
{
    for expr in exprs {
        if mentions(name, expr) {
            return true;
        }
    }
    false
}

/// Notes each `pkt` in an expression of a wire.
#[cycle(fields)]
pub(crate) fn note_fields(expr: &Expr, noted: &mut Noted)
    ensures { Notes (among not_wire (fields_in (expr_of expr.now))) noted.old noted.new }
{
    among_laws();
    match &expr.kind {
        ExprKind::Name(_) => (),
        ExprKind::Field(_, _) => note_unless(noted, false, TypeRule::NotWire, expr.at),
        ExprKind::Lit(_) => (),
        ExprKind::Truth(_) => (),
        ExprKind::Call(_, args) => note_fields_of(args, noted),
        ExprKind::Unary(_, a) => note_fields(a, noted),
        ExprKind::Binary(_, a, b) => {
            note_fields(a, noted);
            note_fields(b, noted);
        }
        ExprKind::Slice(a, _, _) => note_fields(a, noted),
        ExprKind::Pick(condition, a, b) => {
            note_fields(condition, noted);
            note_fields(a, noted);
            note_fields(b, noted);
        }
    }
}

/// Notes each `pkt` in some expressions of a wire.
#[cycle(fields)]
pub(crate) fn note_fields_of(exprs: &[Expr], noted: &mut Noted)
    ensures { Notes (among not_wire (fields_of (exprs_of (map expr_of exprs.now))))
        noted.old noted.new }
{
    among_laws();
    for expr in exprs {
        note_fields(expr, noted);
    }
}
