//! What stands in the other of two programs beside a part of the one: the same part of it, if it has one, and else the part itself.
//! Whoever goes over both at once asks here for the next parts.
ghost use Rattle.std.specs.Prelude.{◌≡◌, map};
ghost use Rattle.p4_ir.specs.P4Tree.{p_lit};
ghost use Rattle.p4_ir.specs.Program.{block_of, expr_of, stmt_of};
ghost use Rattle.shared_net.specs.Beside.{AsBinary, AsChoice, AsFirst, AsGroup, AsHeader, AsIf, AsIfElse, AsMeta, AsPort, AsSlice, AsUnary};
ghost use Rattle.shared_net.specs.Merging.{expr_merged, literal_merged};

use cocoon_num::Bits;
use p4_ir::{P4Expr, P4Stmt};

/// The number of the switch where two literals differ.
fn numbered(own: Bits, other: Bits, number: u16) -> Bits
    ensures { literal_merged number own.width own.value other.value
        ≡ p_lit result.width result.value }
{
    if own.value == other.value {
        own
    } else {
        Bits::new(16, u128::from(number))
    }
}

/// What is in the place of a literal: the number of the switch if a literal of another value is beside it.
pub fn literal(own: Bits, other: &P4Expr, number: u16) -> Bits
    ensures { expr_merged number (p_lit own.width own.value) (expr_of other.now)
        ≡ p_lit result.width result.value }
{
    match other {
        P4Expr::Lit(bits) => numbered(own, *bits, number),
        _ => own,
    }
}

/// Beside the operand of a unary operation.
pub fn operand<'p>(own: &'p P4Expr, other: &'p P4Expr) -> &'p P4Expr
    ensures { AsUnary (expr_of own.now) (expr_of other.now) (expr_of result.now) }
{
    match other {
        P4Expr::Unary(_, a) => a,
        _ => own,
    }
}

/// Beside the operands of a binary operation.
pub fn operands<'p>(
    left: &'p P4Expr,
    right: &'p P4Expr,
    other: &'p P4Expr,
) -> (&'p P4Expr, &'p P4Expr)
    ensures { AsBinary (expr_of left.now) (expr_of right.now) (expr_of other.now)
        (expr_of result.0.now) (expr_of result.1.now) }
{
    match other {
        P4Expr::Binary(_, a, b) => (a, b),
        _ => (left, right),
    }
}

/// Beside the number of which a slice is taken.
pub fn sliced<'p>(own: &'p P4Expr, other: &'p P4Expr) -> &'p P4Expr
    ensures { AsSlice (expr_of own.now) (expr_of other.now) (expr_of result.now) }
{
    match other {
        P4Expr::Slice(a, _, _) => a,
        _ => own,
    }
}

/// Beside a condition and the two values of which it picks one.
pub fn picked<'p>(
    condition: &'p P4Expr,
    first: &'p P4Expr,
    second: &'p P4Expr,
    other: &'p P4Expr,
) -> (&'p P4Expr, &'p P4Expr, &'p P4Expr)
    ensures { AsChoice (expr_of condition.now) (expr_of first.now) (expr_of second.now)
        (expr_of other.now) (expr_of result.0.now) (expr_of result.1.now) (expr_of result.2.now) }
{
    match other {
        P4Expr::Pick(c, a, b) => (c, a, b),
        _ => (condition, first, second),
    }
}

/// Beside the value to which a meta field is set.
pub fn meta_value<'p>(own: &'p P4Expr, other: &'p P4Stmt) -> &'p P4Expr
    ensures { AsMeta (expr_of own.now) (stmt_of other.now) (expr_of result.now) }
{
    match other {
        P4Stmt::SetMeta(_, e) => e,
        _ => own,
    }
}

/// Beside the value to which a field of a header is set.
pub fn field_value<'p>(own: &'p P4Expr, other: &'p P4Stmt) -> &'p P4Expr
    ensures { AsHeader (expr_of own.now) (stmt_of other.now) (expr_of result.now) }
{
    match other {
        P4Stmt::SetField(_, _, e) => e,
        _ => own,
    }
}

/// Beside the port at which a packet leaves.
pub fn port_value<'p>(own: &'p P4Expr, other: &'p P4Stmt) -> &'p P4Expr
    ensures { AsPort (expr_of own.now) (stmt_of other.now) (expr_of result.now) }
{
    match other {
        P4Stmt::EgressPort(e) => e,
        _ => own,
    }
}

/// Beside the number of a multicast group.
pub fn group_value<'p>(own: &'p P4Expr, other: &'p P4Stmt) -> &'p P4Expr
    ensures { AsGroup (expr_of own.now) (stmt_of other.now) (expr_of result.now) }
{
    match other {
        P4Stmt::Group(e) => e,
        _ => own,
    }
}

/// Beside a condition and the statements under it.
pub fn guarded<'p>(
    condition: &'p P4Expr,
    first: &'p [P4Stmt],
    other: &'p P4Stmt,
) -> (&'p P4Expr, &'p [P4Stmt])
    ensures { AsIf (expr_of condition.now) (block_of (map stmt_of first.now)) (stmt_of other.now)
        (expr_of result.0.now) (block_of (map stmt_of result.1.now)) }
{
    match other {
        P4Stmt::If(c, a) => (c, a),
        _ => (condition, first),
    }
}

/// Beside a condition and the statements under it and under `else`.
pub fn branches<'p>(
    condition: &'p P4Expr,
    first: &'p [P4Stmt],
    second: &'p [P4Stmt],
    other: &'p P4Stmt,
) -> (&'p P4Expr, &'p [P4Stmt], &'p [P4Stmt])
    ensures { AsIfElse (expr_of condition.now) (block_of (map stmt_of first.now))
        (block_of (map stmt_of second.now)) (stmt_of other.now)
        (expr_of result.0.now) (block_of (map stmt_of result.1.now))
        (block_of (map stmt_of result.2.now)) }
{
    match other {
        P4Stmt::IfElse(c, a, b) => (c, a, b),
        _ => (condition, first, second),
    }
}

/// Beside a statement, and beside those that follow it, where these are beside all of them.
pub fn first<'p>(own: &'p P4Stmt, others: &'p [P4Stmt]) -> (&'p P4Stmt, &'p [P4Stmt])
    ensures { AsFirst (stmt_of own.now) (block_of (map stmt_of others.now))
        (stmt_of result.0.now) (block_of (map stmt_of result.1.now)) }
{
    match others.split_first() {
        Some((other, rest)) => (other, rest),
        None => (own, others),
    }
}
