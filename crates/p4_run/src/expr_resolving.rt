//! Expressions, resolved: of parts before the whole, down the tree.
ghost use Rattle.std.specs.Prelude.{◌≡◌, ◌≤◌, ◌+◌, false, get_or, IfOk, IsTrue, Some, ℕ};
ghost use Rattle.cocoon_num.specs.Sorts.{bits_sort, truth_sort};
ghost use Rattle.p4_ir.specs.P4Kinds.{field_sort, meta_sort, p4_sort};
ghost use Rattle.p4_ir.specs.P4Tree as tree;
ghost use Rattle.p4_ir.specs.P4Tree.{field_widths};
ghost use Rattle.p4_ir.specs.Program.{expr_of};
ghost use Rattle.p4_run.specs.Meaning.{number_by, truth_by};
ghost use Rattle.p4_run.specs.Operating.{IsSorted};
ghost use Rattle.p4_run.specs.Resolving.{AreNames, GivesNumbers, GivesTruths, Means, program_at};
ghost use Rattle.p4_run.specs.Controls.{within_in};

use crate::expr_codes::{NumberCode, TruthCode};
use crate::operators::{binary, pick, slice, unary};
use crate::resolved::{Resolved, SizedNumber};
use cocoon_num::{Bits, NoMemory};
use p4_ir::{P4Expr, Program};
use std::alloc::Global;

/// What names are resolved in: a program, for each of its headers the index of its first field, and which control.
#[derive(Drop)]
pub struct Names<'p> {
    pub program: &'p Program,
    pub starts: &'p [usize],
    pub in_ingress: bool,
}

/// A number that stands in the program.
fn literal(names: &Names, bits: Bits) -> Resolved
    requires { IsSorted (p4_sort (within_in (program_at names.now) names.now.in_ingress)
        (tree.p_lit bits.width bits.value)) }
    ensures { Means (program_at names.now) names.now.in_ingress (tree.p_lit bits.width bits.value)
        result }
{
    Resolved::Number(SizedNumber {
        code: NumberCode::Literal(bits.value),
        width: bits.width,
    })
}

/// The width of a meta field.
fn meta_width(names: &Names, index: u32) -> u8
    requires names { AreNames names.now }
    requires sort { IsSorted (meta_sort (program_at names.now) index) }
    ensures wide { 1 ≤ result }
    ensures narrow { result ≤ 64 }
    ensures width { result ≡ get_or (field_widths (program_at names.now).meta) index 0 }
{
    names.program.meta.items()[index as usize].width
}

/// A meta field.
fn meta(names: &Names, index: u32) -> Resolved
    requires names { AreNames names.now }
    requires sort { IsSorted (meta_sort (program_at names.now) index) }
    ensures { Means (program_at names.now) names.now.in_ingress (tree.p_meta index) result }
{
    Resolved::Number(SizedNumber {
        code: NumberCode::Meta(index as usize),
        width: meta_width(names, index),
    })
}

/// The width of a field of a header.
fn field_width(names: &Names, header: u32, field: u32) -> u8
    requires names { AreNames names.now }
    requires sort { IsSorted (field_sort (program_at names.now) header field) }
    ensures wide { 1 ≤ result }
    ensures narrow { result ≤ 64 }
    ensures width { field_sort (program_at names.now) header field ≡ Some (bits_sort result) }
{
    let declared = &names.program.headers.items()[header as usize];
    declared.fields.items()[field as usize].width
}

/// The index of a field of a header among those of all.
pub fn field_place(names: &Names, header: u32, field: u32) -> Result<usize, NoMemory>
    requires names { AreNames names.now }
    requires sort { IsSorted (field_sort (program_at names.now) header field) }
    ensures { IfOk result (λ place. place ≡ get_or names.now.starts.now header 0 + field) }
{
    match names.starts[header as usize].checked_add(field as usize) {
        Some(place) => Ok(place),
        None => Err(NoMemory),
    }
}

/// A field of a header.
fn field(names: &Names, header: u32, field: u32) -> Result<Resolved, NoMemory>
    requires names { AreNames names.now }
    requires sort { IsSorted (field_sort (program_at names.now) header field) }
    ensures { IfOk result (λ made. Means (program_at names.now) names.now.in_ingress
        (tree.p_field header field) made) }
{
    let width = field_width(names, header, field);
    let code = NumberCode::Field(field_place(names, header, field)?);
    Ok(Resolved::Number(SizedNumber { code, width }))
}

/// The port.
fn port(names: &Names) -> Resolved
    requires { IsTrue names.now.in_ingress }
    ensures { Means (program_at names.now) names.now.in_ingress tree.p_port result }
{
    Resolved::Number(SizedNumber {
        code: NumberCode::Own,
        width: 16,
    })
}

/// The member of the group.
fn rid(names: &Names) -> Resolved
    requires { names.now.in_ingress ≡ false }
    ensures { Means (program_at names.now) names.now.in_ingress tree.p_rid result }
{
    Resolved::Number(SizedNumber {
        code: NumberCode::Own,
        width: 64,
    })
}

/// An expression that has a type.
#[cycle(resolve)]
fn resolved(alloc: Global, names: &Names, expr: &P4Expr) -> Result<Resolved, NoMemory>
    requires names { AreNames names.now }
    requires sort { IsSorted (p4_sort (within_in (program_at names.now) names.now.in_ingress)
        (expr_of expr.now)) }
    ensures { IfOk result (λ made. Means (program_at names.now) names.now.in_ingress
        (expr_of expr.now) made) }
{
    match expr {
        P4Expr::Lit(bits) => Ok(literal(names, *bits)),
        P4Expr::Truth(truth) => Ok(Resolved::Truth(TruthCode::Constant(*truth))),
        P4Expr::Meta(index) => Ok(meta(names, *index)),
        P4Expr::Field(header, place) => field(names, *header, *place),
        P4Expr::Port => Ok(port(names)),
        P4Expr::Rid => Ok(rid(names)),
        P4Expr::Unary(op, a) => {
            let a = resolved(alloc, names, a)?;
            unary(alloc, *op, a)
        }
        P4Expr::Binary(op, a, b) => {
            let a = resolved(alloc, names, a)?;
            let b = resolved(alloc, names, b)?;
            binary(alloc, *op, a, b)
        }
        P4Expr::Slice(a, high, low) => {
            let a = resolved(alloc, names, a)?;
            slice(alloc, a, *high, *low)
        }
        P4Expr::Pick(condition, a, b) => {
            let condition = resolved(alloc, names, condition)?;
            let a = resolved(alloc, names, a)?;
            let b = resolved(alloc, names, b)?;
            pick(alloc, condition, a, b)
        }
    }
}

/// An expression that gives a number.
pub fn resolved_number(alloc: Global, names: &Names, expr: &P4Expr) -> Result<NumberCode, NoMemory>
    requires names { AreNames names.now }
    requires sort { (w : ℕ) × (p4_sort (within_in (program_at names.now) names.now.in_ingress)
        (expr_of expr.now) ≡ Some (bits_sort w)) }
    ensures { IfOk result (λ code. (w : ℕ)
        → p4_sort (within_in (program_at names.now) names.now.in_ingress) (expr_of expr.now)
        ≡ Some (bits_sort w)
        → GivesNumbers (program_at names.now) names.now.in_ingress (expr_of expr.now) w
        (number_by code)) }
{
    match resolved(alloc, names, expr)? {
        Resolved::Number(number) => Ok(number.code),
        Resolved::Truth(_) => unreachable!(),
    }
}

/// An expression that gives a truth value.
pub fn resolved_truth(alloc: Global, names: &Names, expr: &P4Expr) -> Result<TruthCode, NoMemory>
    requires names { AreNames names.now }
    requires sort { p4_sort (within_in (program_at names.now) names.now.in_ingress)
        (expr_of expr.now) ≡ Some truth_sort }
    ensures { IfOk result (λ code. GivesTruths (program_at names.now) names.now.in_ingress
        (expr_of expr.now) (truth_by code)) }
{
    match resolved(alloc, names, expr)? {
        Resolved::Number(_) => unreachable!(),
        Resolved::Truth(code) => Ok(code),
    }
}
