//! What a path holds, by the choices that its values are.
ghost use Rattle.std.specs.Prelude.{◌≡◌, ◌&&◌, ◌++◌, ◌∷◌, [], IfOk, map, OnOk, Some};
ghost use Rattle.cocoon_syntax.specs.TreeOf.{expr_of, exprs_of, header_of};
ghost use Rattle.cocoon_num.specs.Names.{same_name};
ghost use Rattle.refinement.specs.Trails as spec;
ghost use Rattle.role_meaning.specs.Views.{field_of, marks_at, place_of, var_of};
ghost use Rattle.refinement.specs.Trails.{first_marks, header_marks};

use cocoon_num::NoMemory;
use cocoon_syntax::{Expr, ExprKind, HeaderDecl};
use std::alloc::Global;

/// A variable, and the choice that its value is alone, by the token index of its statement.
#[derive(Clone, Copy)]
pub(crate) struct Variable<'t> {
    pub(crate) name: &'t [u8],
    pub(crate) choice: Option<u32>,
}

/// A field, and the choice that its value is alone.
#[derive(Clone, Copy)]
pub(crate) struct Field<'t> {
    pub(crate) header: &'t [u8],
    pub(crate) field: &'t [u8],
    pub(crate) choice: Option<u32>,
}

/// The choices in the order in which they are made, the variables with the latest first, and the
/// fields.
#[derive(Drop)]
pub(crate) struct Trail<'t> {
    pub(crate) choices: Vec<u32>,
    pub(crate) variables: Vec<Variable<'t>>,
    pub(crate) fields: Vec<Field<'t>>,
}

fn is_same(name: &[u8], other: &[u8]) -> bool
    ensures { result ≡ same_name name.now other.now }
{
    name == other
}

// ---- values

fn unbound(at: u32, name: &[u8]) -> Option<u32>
    ensures { result ≡ spec.var_choice [] at name.now }
{
    if name.len() == 0 { Some(at) } else { None }
}

fn variable_choice(variables: &[Variable<'_>], at: u32, name: &[u8]) -> Option<u32>
    ensures { result ≡ spec.var_choice (map var_of variables.now) at name.now }
{
    for variable in variables {
        if is_same(name, variable.name) {
            return variable.choice;
        }
    }
    unbound(at, name)
}

/// Whether a field has these names.
fn is_field(field: &Field<'_>, header: &[u8], name: &[u8]) -> bool
    ensures { result ≡ (same_name header.now field.now.header.now
        && same_name name.now field.now.field.now) }
{
    is_same(header, field.header) && is_same(name, field.field)
}

fn field_choice(fields: &[Field<'_>], header: &[u8], name: &[u8]) -> Option<u32>
    ensures { result ≡ spec.field_choice (map field_of fields.now) header.now name.now }
{
    for field in fields {
        if is_field(field, header, name) {
            return field.choice;
        }
    }
    None
}

/// The choice that an expression's value is.
pub(crate) fn expr_choice(trail: &Trail<'_>, expr: &Expr) -> Option<u32>
    ensures { result ≡ spec.expr_choice (marks_at trail.now) (expr_of expr.now) }
{
    match &expr.kind {
        ExprKind::Name(name) => variable_choice(&trail.variables, expr.at, name.bytes()),
        ExprKind::Field(header, field) => {
            field_choice(&trail.fields, header.text.bytes(), field.text.bytes())
        }
        _ => None,
    }
}

/// The choices that some expressions' values are.
pub(crate) fn exprs_choices(
    alloc: Global,
    trail: &Trail<'_>,
    exprs: &[Expr],
) -> Result<Vec<Option<u32>>, NoMemory>
    ensures { IfOk result (λ choices. choices.items
        ≡ spec.exprs_choices (marks_at trail.now) (exprs_of (map expr_of exprs.now))) }
{
    let mut choices = Vec::new(alloc);
    for expr in exprs {
        choices.push(expr_choice(trail, expr))?;
    }
    Ok(choices)
}

/// The choices that the fields are.
pub(crate) fn fields_choices(
    alloc: Global,
    fields: &[Field<'_>],
) -> Result<Vec<Option<u32>>, NoMemory>
    ensures { IfOk result (λ choices. choices.items
        ≡ map (λ (f : spec.FieldMark). f.choice) (map field_of fields.now)) }
{
    let mut choices = Vec::new(alloc);
    for field in fields {
        choices.push(field.choice)?;
    }
    Ok(choices)
}

// ---- steps

/// Binds one more variable.
pub(crate) fn bind<'t>(
    trail: &mut Trail<'t>,
    name: &'t [u8],
    choice: Option<u32>,
) -> Result<(), NoMemory>
    ensures { OnOk result (marks_at trail.new ≡ spec.binds name.now choice (marks_at trail.old)) }
{
    trail.variables.insert(0, Variable { name, choice })?;
    Ok(())
}

/// Where the first field of these names is; behind all fields if there is none.
#[tactic(auto, using(crate::proofs::Kept::here, crate::proofs::Kept::not_here))]
fn field_place(fields: &[Field<'_>], header: &[u8], name: &[u8]) -> usize
    ensures { result ≡ place_of 0 (map field_of fields.now) header.now name.now }
{
    let mut place = 0;
    for field in fields {
        if is_field(field, header, name) {
            return place;
        }
        place += 1;
    }
    place
}

/// Sets the first field of these names, if there is one.
fn set_field(fields: &mut [Field<'_>], header: &[u8], name: &[u8], choice: Option<u32>)
    ensures { map field_of fields.new
        ≡ spec.set_choice (map field_of fields.old) header.now name.now choice }
{
    let place = field_place(fields, header, name);
    if place < fields.len() {
        let field = fields[place];
        fields[place] = Field {
            header: field.header,
            field: field.field,
            choice,
        };
    }
}

pub(crate) fn set<'t>(trail: &mut Trail<'t>, header: &[u8], name: &[u8], choice: Option<u32>)
    ensures { marks_at trail.new ≡ spec.sets header.now name.now choice (marks_at trail.old) }
{
    set_field(&mut trail.fields, header, name, choice);
}

/// Makes one more choice.
fn make<'t>(trail: &mut Trail<'t>, at: u32) -> Result<(), NoMemory>
    ensures { OnOk result (marks_at trail.new ≡ spec.makes at (marks_at trail.old)) }
{
    trail.choices.push(at)?;
    Ok(())
}

/// Makes one more choice, and binds a variable to it.
pub(crate) fn bind_made<'t>(trail: &mut Trail<'t>, name: &'t [u8], at: u32) -> Result<(), NoMemory>
    ensures { OnOk result (marks_at trail.new
        ≡ spec.binds name.now (Some at) (spec.makes at (marks_at trail.old))) }
{
    make(trail, at)?;
    bind(trail, name, Some(at))
}

/// Makes one more choice, and sets a field to it.
pub(crate) fn set_made<'t>(
    trail: &mut Trail<'t>,
    header: &[u8],
    name: &[u8],
    at: u32,
) -> Result<(), NoMemory>
    ensures { OnOk result (marks_at trail.new
        ≡ spec.sets header.now name.now (Some at) (spec.makes at (marks_at trail.old))) }
{
    make(trail, at)?;
    set(trail, header, name, Some(at));
    Ok(())
}

/// The same trail, in memory of its own.
pub(crate) fn copy_trail<'t>(alloc: Global, trail: &Trail<'t>) -> Result<Trail<'t>, NoMemory>
    ensures { IfOk result (λ copy. marks_at copy ≡ marks_at trail.now) }
{
    Ok(Trail {
        choices: trail.choices.to_vec(alloc)?,
        variables: trail.variables.to_vec(alloc)?,
        fields: trail.fields.to_vec(alloc)?,
    })
}

/// The variables that are bound, in memory of their own.
pub(crate) fn variables_of<'t>(
    alloc: Global,
    trail: &Trail<'t>,
) -> Result<Vec<Variable<'t>>, NoMemory>
    ensures { IfOk result (λ variables.
        map var_of variables.items ≡ (marks_at trail.now).vars) }
{
    Ok(trail.variables.to_vec(alloc)?)
}

// ---- where a body begins

fn push_fields<'t>(fields: &mut Vec<Field<'t>>, header: &'t HeaderDecl) -> Result<(), NoMemory>
    ensures { OnOk result (map field_of fields.new.items
        ≡ map field_of fields.old.items ++ header_marks (header_of header.now)) }
{
    for field in &header.fields {
        fields.push(Field {
            header: header.name.text.bytes(),
            field: field.name.text.bytes(),
            choice: None,
        })?;
    }
    Ok(())
}

fn header_fields<'t>(alloc: Global, headers: &'t [HeaderDecl]) -> Result<Vec<Field<'t>>, NoMemory>
    ensures { IfOk result (λ fields. map field_of fields.items
        ≡ (first_marks (map header_of headers.now)).fields) }
{
    let mut fields = Vec::new(alloc);
    for header in headers {
        push_fields(&mut fields, header)?;
    }
    Ok(fields)
}

/// What a path holds where a body begins, in a packet with these headers.
pub(crate) fn first_trail<'t>(
    alloc: Global,
    headers: &'t [HeaderDecl],
) -> Result<Trail<'t>, NoMemory>
    ensures { IfOk result (λ trail. marks_at trail ≡ first_marks (map header_of headers.now)) }
{
    Ok(Trail {
        choices: Vec::new(alloc),
        variables: Vec::new(alloc),
        fields: header_fields(alloc, headers)?,
    })
}
