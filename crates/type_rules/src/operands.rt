//! The faults of an expression whose parts have types.
ghost use Rattle.cocoon_num.specs.Tree as tree;
ghost use Rattle.cocoon_num.specs.Values.{BinaryOp as Operator};
ghost use Rattle.cocoon_syntax.specs.TreeOf.{binary_of, unary_of};
ghost use Rattle.cocoon_types.specs.Noting.{Notes};
ghost use Rattle.cocoon_types.specs.Typing.{Scope};
ghost use Rattle.std.specs.Prelude.{◌≡◌, ℕ};
ghost use Rattle.type_rules.specs.Tests.{at_expr};
ghost use Rattle.type_rules.specs.Typed.{IsTyped, operands_of};

use crate::noting::{note_if, note_where};
use crate::sort::{
    Operands, Sort, Typed, all_typed, are_like, are_same, bad_bounds, both_typed, is_other,
    is_truth, too_wide, which_operands,
};
use cocoon_syntax::{BinaryOp, UnaryOp};
use cocoon_types::first_faults::noting_laws;
use cocoon_types::{Noted, TypeRule};

/// Of `~` and `not`.
pub(crate) fn note_unary(at: u32, op: UnaryOp, a: Typed, noted: &mut Noted)
    ensures { (s : Scope) (x : tree.Expr) → IsTyped a s x
        → Notes (at_expr (record { scope = s; e = tree.unary at (unary_of op) x }))
        noted.old noted.new }
{
    noting_laws();
    match op {
        UnaryOp::Flip => note_if(noted, is_truth(a.sort), TypeRule::WrongWidth, a.at),
        UnaryOp::Not => note_if(
            noted,
            is_other(Sort::Truth, a.sort),
            TypeRule::NotBool,
            a.at,
        ),
    }
}

/// Of two numbers that are put together.
fn note_joined(at: u32, first: Typed, second: Typed, noted: &mut Noted)
    ensures { (s : Scope) (op : Operator) (x y : tree.Expr) → operands_of op ≡ Operands.Joined
        → IsTyped first s x → IsTyped second s y
        → Notes (at_expr (record { scope = s; e = tree.binary at op x y })) noted.old noted.new }
{
    noting_laws();
    let typed = both_typed(first.sort, second.sort);
    note_if(
        noted,
        too_wide(first.sort, second.sort),
        TypeRule::TooWide,
        at,
    );
    note_where(
        noted,
        typed,
        is_truth(first.sort),
        TypeRule::WrongWidth,
        first.at,
    );
    note_where(
        noted,
        typed,
        is_truth(second.sort),
        TypeRule::WrongWidth,
        second.at,
    );
}

/// Of an operator on numbers of one width.
fn note_numbers(at: u32, first: Typed, second: Typed, noted: &mut Noted)
    ensures { (s : Scope) (op : Operator) (x y : tree.Expr) → operands_of op ≡ Operands.Numbers
        → IsTyped first s x → IsTyped second s y
        → Notes (at_expr (record { scope = s; e = tree.binary at op x y })) noted.old noted.new }
{
    noting_laws();
    let typed = both_typed(first.sort, second.sort);
    note_where(
        noted,
        typed,
        !are_like(first.sort, second.sort),
        TypeRule::WrongWidth,
        at,
    );
}

/// Of an operator on truth values.
fn note_truths(at: u32, first: Typed, second: Typed, noted: &mut Noted)
    ensures { (s : Scope) (op : Operator) (x y : tree.Expr) → operands_of op ≡ Operands.Truths
        → IsTyped first s x → IsTyped second s y
        → Notes (at_expr (record { scope = s; e = tree.binary at op x y })) noted.old noted.new }
{
    noting_laws();
    let typed = both_typed(first.sort, second.sort);
    note_where(
        noted,
        typed,
        is_other(Sort::Truth, first.sort),
        TypeRule::NotBool,
        first.at,
    );
    note_where(
        noted,
        typed,
        is_other(Sort::Truth, second.sort),
        TypeRule::NotBool,
        second.at,
    );
}

/// Of an operator with two operands.
pub(crate) fn note_binary(at: u32, op: BinaryOp, first: Typed, second: Typed, noted: &mut Noted)
    ensures { (s : Scope) (x y : tree.Expr) → IsTyped first s x → IsTyped second s y
        → Notes (at_expr (record { scope = s; e = tree.binary at (binary_of op) x y }))
        noted.old noted.new }
{
    match which_operands(op) {
        Operands::Numbers => note_numbers(at, first, second, noted),
        Operands::Joined => note_joined(at, first, second, noted),
        Operands::Truths => note_truths(at, first, second, noted),
    }
}

/// Of a slice.
pub(crate) fn note_slice(at: u32, a: Typed, high: u32, low: u32, noted: &mut Noted)
    ensures { (s : Scope) (x : tree.Expr) → IsTyped a s x
        → Notes (at_expr (record { scope = s; e = tree.slice at x high low })) noted.old noted.new }
{
    noting_laws();
    note_if(noted, is_truth(a.sort), TypeRule::WrongWidth, a.at);
    note_if(noted, bad_bounds(a.sort, high, low), TypeRule::BadSlice, at);
}

/// Of a choice between two values.
pub(crate) fn note_pick(at: u32, condition: Typed, first: Typed, second: Typed, noted: &mut Noted)
    ensures { (s : Scope) (c x y : tree.Expr)
        → IsTyped condition s c → IsTyped first s x → IsTyped second s y
        → Notes (at_expr (record { scope = s; e = tree.pick at c x y })) noted.old noted.new }
{
    noting_laws();
    let typed = both_typed(first.sort, second.sort);
    let all = all_typed(condition.sort, first.sort, second.sort);
    note_where(
        noted,
        all,
        !are_same(first.sort, second.sort),
        TypeRule::WrongWidth,
        first.at,
    );
    note_where(
        noted,
        typed,
        is_other(Sort::Truth, condition.sort),
        TypeRule::NotBool,
        condition.at,
    );
}

/// Of a field of the packet.
pub(crate) fn note_field(at: u32, packet: bool, noted: &mut Noted)
    ensures { (s : Scope) (h f : tree.Name) → s.packet ≡ packet
        → Notes (at_expr (record { scope = s; e = tree.field at h f })) noted.old noted.new }
{
    noting_laws();
    note_if(noted, !packet, TypeRule::PacketInGuard, at);
}
