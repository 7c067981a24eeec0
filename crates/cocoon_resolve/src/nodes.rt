//! Nodes of expressions and bodies.
ghost use Rattle.std.specs.Prelude.{◌≡◌, ℕ, ◌+◌, ◌*◌, List, length, map, reverse};
ghost use Rattle.cocoon_num.specs.Tree.{FunctionDecl};
ghost use Rattle.cocoon_syntax.specs.TreeOf.{block_of, expr_of, exprs_of, param_of, stmt_of};
ghost use Rattle.cocoon_types.specs.Limits.{block_nodes, expr_nodes, exprs_nodes, reported, stmt_nodes};
ghost use Rattle.cocoon_resolve.specs.Forms.{each_times, form_of, form_weight, known_weight, Knows, slot_weight, times, weight, weights};

use crate::forms::{Form, Known, form_named, own_count, slot_count, times};
use cocoon_syntax::{Expr, ExprKind, Param, Stmt, StmtKind};

/// What is counted: each node as `one`, and the parameter at `slot` as 1. Where `slot` is their
/// number, each variable that is no parameter counts as 1.
#[derive(Clone, Copy, Drop)]
pub(crate) struct Counting<'a> {
    pub known: &'a [Known],
    pub params: &'a [Param],
    pub slot: usize,
    pub one: u64,
}

/// The sum of what is counted in an expression with its calls.
#[cycle(weigh)]
pub(crate) fn weigh(counting: &Counting<'_>, expr: &Expr) -> u64
    ensures { result ≡ reported (weight counting.now.one
        (known_weight counting.now.one (reverse counting.now.known.now))
        (slot_weight (map param_of counting.now.params.now) counting.now.slot) (expr_of expr.now)) }
{
    let one = counting.one;
    match &expr.kind {
        ExprKind::Name(text) => slot_count(counting.params, counting.slot, text.bytes()),
        ExprKind::Field(_, _) => one,
        ExprKind::Lit(_) => one,
        ExprKind::Truth(_) => one,
        ExprKind::Call(function, args) => match form_named(counting.known, function.text.bytes()) {
            Some(form) => weigh_call(counting, form, args),
            None => weigh_call(counting, &Form::Plain, args),
        },
        ExprKind::Unary(_, a) => one.saturating_add(weigh(counting, a)),
        ExprKind::Binary(_, a, b) => one
            .saturating_add(weigh(counting, a))
            .saturating_add(weigh(counting, b)),
        ExprKind::Slice(a, _, _) => one.saturating_add(weigh(counting, a)),
        ExprKind::Pick(condition, first, second) => one
            .saturating_add(weigh(counting, condition))
            .saturating_add(weigh(counting, first))
            .saturating_add(weigh(counting, second)),
    }
}

#[cycle(weigh)]
fn weigh_call(counting: &Counting<'_>, form: &Form, args: &[Expr]) -> u64
    ensures { result ≡ reported (form_weight counting.now.one (form_of form.now)
        (weights counting.now.one (known_weight counting.now.one (reverse counting.now.known.now))
        (slot_weight (map param_of counting.now.params.now) counting.now.slot)
        (exprs_of (map expr_of args.now)))) }
{
    let mut sum = counting.one.saturating_mul(own_count(form, args.len()));
    for (index, arg) in args.iter().enumerate() {
        sum = sum.saturating_add(weigh(counting, arg).saturating_mul(times(form, index)));
    }
    sum
}
