//! The places where the values of expressions may have a choice.
ghost use Rattle.std.specs.Prelude.{◌≡◌, ℕ, IfOk, OnOk, map};
ghost use Rattle.cocoon_syntax.specs.TreeOf.{expr_of, exprs_of, name_of};
ghost use Rattle.form_rules.specs.Following as spec;
ghost use Rattle.form_rules.specs.Following.{Holding, at_choice, names_of};
ghost use Rattle.form_rules.specs.Places as noted;
ghost use Rattle.form_rules.specs.Places.{option_held};

use crate::scope::{Scope, first_field, latest};
use crate::steps::{Place, Value};
use cocoon_num::{NoMemory, Text};
use cocoon_syntax::{Expr, ExprKind, Name};
use std::alloc::Global;

/// The place of a name, if it may have a choice.
fn name_place(scope: &Scope, at: u32, name: &Text) -> Option<Place>
    ensures { (c : ℕ) (s : Holding) → option_held c s result ≡
        spec.var_held (at_choice c (names_of scope.now)) s at name.now }
{
    match latest(&scope.vars, name.bytes()) {
        Some(index) => Some(Place::Var(index)),
        None => unbound(at, name),
    }
}

/// That of a name which is not bound.
fn unbound(at: u32, name: &Text) -> Option<Place>
    ensures { (c : ℕ) (s : Holding) (n : spec.Names) → option_held c s result ≡
        spec.unbound (at_choice c n) at name.now }
{
    if name.bytes().len() == 0 {
        Some(Place::Token(at))
    } else {
        None
    }
}

fn field_place(scope: &Scope, header: &Name, field: &Name) -> Option<Place>
    ensures { (c : ℕ) (s : Holding) → option_held c s result ≡
        spec.field_held (at_choice c (names_of scope.now)) s header.now.text field.now.text }
{
    match field_index(scope, header, field) {
        Some(index) => Some(Place::Field(index)),
        None => None,
    }
}

/// The index of a field, if a header has it.
pub(crate) fn field_index(scope: &Scope, header: &Name, field: &Name) -> Option<usize>
    ensures { result ≡ spec.first_field (names_of scope.now).fields header.now.text field.now.text }
{
    first_field(&scope.fields, header.text.bytes(), field.text.bytes())
}

/// The places of an expression.
pub(crate) fn value_of(alloc: Global, scope: &Scope, expr: &Expr) -> Result<Value, NoMemory>
    ensures { IfOk result (λ v. noted.ValueOf (names_of scope.now) (expr_of expr.now) v) }
{
    let mut within = Vec::new(alloc);
    note_expr(scope, &mut within, expr)?;
    let mut whole = Vec::new(alloc);
    note_whole(scope, &mut whole, expr)?;
    Ok(Value { within, whole })
}

/// Those of some expressions.
pub(crate) fn values_of(alloc: Global, scope: &Scope, exprs: &[Expr]) -> Result<Value, NoMemory>
    ensures { IfOk result (λ v. noted.ValuesOf
        (names_of scope.now) (exprs_of (map expr_of exprs.now)) v) }
{
    let mut within = Vec::new(alloc);
    note_exprs(scope, &mut within, exprs)?;
    let mut whole = Vec::new(alloc);
    note_wholes(scope, &mut whole, exprs)?;
    Ok(Value { within, whole })
}

fn note_place(places: &mut Vec<Place>, place: Option<Place>) -> Result<(), NoMemory>
    ensures { OnOk result (noted.NotesPlace place places.old.items places.new.items) }
{
    if let Some(place) = place {
        places.push(place)?;
    }
    Ok(())
}

/// Adds the places within which an expression's value may have the choice.
#[cycle(note)]
fn note_expr(scope: &Scope, places: &mut Vec<Place>, expr: &Expr) -> Result<(), NoMemory>
    ensures { OnOk result (noted.Notes
        (names_of scope.now) (expr_of expr.now) places.old.items places.new.items) }
{
    match &expr.kind {
        ExprKind::Name(name) => note_place(places, name_place(scope, expr.at, name)),
        ExprKind::Field(header, field) => note_place(places, field_place(scope, header, field)),
        ExprKind::Lit(_) => Ok(()),
        ExprKind::Truth(_) => Ok(()),
        ExprKind::Call(_, args) => note_exprs(scope, places, args),
        ExprKind::Unary(_, a) => note_expr(scope, places, a),
        ExprKind::Binary(_, left, right) => {
            note_expr(scope, places, left)?;
            note_expr(scope, places, right)
        }
        ExprKind::Slice(a, _, _) => note_expr(scope, places, a),
        ExprKind::Pick(condition, first, second) => {
            note_expr(scope, places, condition)?;
            note_expr(scope, places, first)?;
            note_expr(scope, places, second)
        }
    }
}

/// Adds those of some expressions.
#[cycle(note)]
fn note_exprs(scope: &Scope, places: &mut Vec<Place>, exprs: &[Expr]) -> Result<(), NoMemory>
    ensures { OnOk result (noted.NotesAll (names_of scope.now)
        (exprs_of (map expr_of exprs.now)) places.old.items places.new.items) }
{
    for expr in exprs {
        note_expr(scope, places, expr)?;
    }
    Ok(())
}

/// Adds the place where the choice may be the whole value of an expression, if there is one.
fn note_whole(scope: &Scope, places: &mut Vec<Place>, expr: &Expr) -> Result<(), NoMemory>
    ensures { OnOk result (noted.NotesWhole
        (names_of scope.now) (expr_of expr.now) places.old.items places.new.items) }
{
    match &expr.kind {
        ExprKind::Name(name) => note_place(places, name_place(scope, expr.at, name)),
        ExprKind::Field(header, field) => note_place(places, field_place(scope, header, field)),
        _ => Ok(()),
    }
}

/// Adds those of some expressions.
fn note_wholes(scope: &Scope, places: &mut Vec<Place>, exprs: &[Expr]) -> Result<(), NoMemory>
    ensures { OnOk result (noted.NotesWholes (names_of scope.now)
        (exprs_of (map expr_of exprs.now)) places.old.items places.new.items) }
{
    for expr in exprs {
        note_whole(scope, places, expr)?;
    }
    Ok(())
}
