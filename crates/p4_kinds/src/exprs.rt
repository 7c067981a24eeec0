//! The walk over expressions: each node's type is computed once.
ghost use Rattle.std.specs.Prelude.{◌≡◌, List, ℕ, map};
ghost use Rattle.p4_ir.specs.P4Kinds as rules;
ghost use Rattle.p4_ir.specs.Program.{expr_of, field_of, program_of};
ghost use Rattle.p4_kinds.specs.Typed.{sort_of, width_in, within};

use crate::sort::{Sort, binary_sort, bits, pick_sort, slice_sort, unary_sort, where_allowed};
use p4_ir::{P4Expr, P4Field, Program};

fn width_at(fields: &[P4Field], index: u32) -> Option<u8>
    ensures { result ≡ width_in (map field_of fields.now) index }
{
    match fields.get(index as usize) {
        Some(field) => Some(field.width),
        None => None,
    }
}

/// The type of a meta field, if there is one.
pub fn meta_sort(program: &Program, index: u32) -> Option<Sort>
    ensures { sort_of result ≡ rules.meta_sort (program_of program.now) index }
{
    bits(width_at(program.meta.items(), index))
}

/// The type of a field of a header, if there is one.
pub fn field_sort(program: &Program, header: u32, field: u32) -> Option<Sort>
    ensures { sort_of result ≡ rules.field_sort (program_of program.now) header field }
{
    match program.headers.items().get(header as usize) {
        Some(header) => bits(width_at(header.fields.items(), field)),
        None => None,
    }
}

/// The type of an expression, if it has one.
#[cycle(sorts)]
pub(crate) fn expr_sort(program: &Program, in_ingress: bool, expr: &P4Expr) -> Option<Sort>
    ensures { (tables : List ℕ) → sort_of result ≡ rules.p4_sort
        (within (program_of program.now) in_ingress tables) (expr_of expr.now) }
{
    match expr {
        P4Expr::Lit(number) => Some(Sort::Bits(number.width)),
        P4Expr::Truth(_) => Some(Sort::Truth),
        P4Expr::Meta(index) => meta_sort(program, *index),
        P4Expr::Field(header, field) => field_sort(program, *header, *field),
        P4Expr::Port => where_allowed(in_ingress, 16),
        P4Expr::Rid => where_allowed(!in_ingress, 64),
        P4Expr::Unary(op, a) => unary_sort(*op, expr_sort(program, in_ingress, a)),
        P4Expr::Binary(op, a, b) => {
            let first = expr_sort(program, in_ingress, a);
            let second = expr_sort(program, in_ingress, b);
            binary_sort(*op, first, second)
        }
        P4Expr::Slice(a, high, low) => slice_sort(expr_sort(program, in_ingress, a), *high, *low),
        P4Expr::Pick(condition, a, b) => {
            let condition = expr_sort(program, in_ingress, condition);
            let first = expr_sort(program, in_ingress, a);
            let second = expr_sort(program, in_ingress, b);
            pick_sort(condition, first, second)
        }
    }
}
