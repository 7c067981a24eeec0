//! Statements without blocks, and how blocks begin.
ghost use Rattle.std.specs.Prelude.{◌≡◌, ◌+◌, ◌<◌, ◌∷◌, [], false, IfOk, length, map, None, ℕ, OnOk, true};
ghost use Rattle.cocoon_num.specs.Tree as tree;
ghost use Rattle.cocoon_syntax.specs.TreeOf.{expr_of, exprs_of, name_of, stmt_of};
ghost use Rattle.bv_terms.specs.Arenas.{KeepsTerms, inputs_in, width_at};
ghost use Rattle.bv_terms.specs.TermTrees.{IsWidth, Term};
ghost use Rattle.expr_terms.specs.Variables.{Makes};
ghost use Rattle.obligation_laws.specs.States as states;
ghost use Rattle.obligation_laws.specs.States.{where_true, with_branch};
ghost use Rattle.obligation_laws.specs.Following.{follow, in_branch};
ghost use Rattle.obligation_laws.specs.Following as spec;
ghost use Rattle.symbolic_runs.specs.Fitting.{CanDo, HasNoBlock, IsReady};
ghost use Rattle.symbolic_runs.specs.Reading.{Follows, forked, Reads, state_of, world_in};

use crate::fields::field_width;
use crate::states::State;
use crate::world::{World, opposite};
use bv_terms::{TermId, Terms};
use cocoon_num::NoMemory;
use cocoon_syntax::{Expr, Name, Stmt, StmtKind};
use std::alloc::Global;

/// A statement without blocks.
pub(crate) fn step<'d>(
    alloc: Global,
    world: &World<'_>,
    state: &mut State<'d>,
    stmt: &'d Stmt,
    terms: &mut Terms,
) -> Result<(), NoMemory>
    requires ready { IsReady world.now }
    requires can { CanDo world.now terms.old state.old (stmt_of stmt.now) }
    requires blockless { HasNoBlock (stmt_of stmt.now) }
    ensures follows { OnOk result (Follows terms.new (state.new ∷ []) (follow (world_in world.now)
        (stmt_of stmt.now) (state_of terms.old state.old) (inputs_in terms.old))) }
    ensures kept { KeepsTerms terms.old terms.new }
{
    match &stmt.kind {
        StmtKind::Let(name, _, value) => bind_value(alloc, world, state, name, value, terms),
        StmtKind::SetField(header, field, value) => {
            set_field(alloc, world, state, header, field, value, terms)
        }
        StmtKind::Filter(condition) => require(alloc, world, state, condition, terms),
        StmtKind::HavocVar(name, width) => choose_variable(world, state, name, *width, terms),
        StmtKind::HavocField(header, field) => choose_field(world, state, header, field, terms),
        StmtKind::Assume(condition) => require(alloc, world, state, condition, terms),
        StmtKind::Send(role, args) => send(alloc, world, state, role, args, terms),
        StmtKind::If(_, _, _) => unreachable!(),
        StmtKind::Fork(_, _, _, _) => unreachable!(),
    }
}

fn bind_value<'d>(
    alloc: Global,
    world: &World<'_>,
    state: &mut State<'d>,
    name: &'d Name,
    expr: &Expr,
    terms: &mut Terms,
) -> Result<(), NoMemory>
    requires ready { IsReady world.now }
    requires can { (width : ℕ) × CanDo world.now terms.old state.old
        (tree.let_ 0 (name_of name.now) width (expr_of expr.now)) }
    ensures follows { OnOk result (Follows terms.new (state.new ∷ [])
        (follow (world_in world.now) (tree.let_ 0 (name_of name.now) 0 (expr_of expr.now))
        (state_of terms.old state.old) (inputs_in terms.old))) }
    ensures kept { KeepsTerms terms.old terms.new }
{
    let term = world.term(alloc, state, expr, terms)?;
    state.bind(name.text.bytes(), term)
}

fn set_field(
    alloc: Global,
    world: &World<'_>,
    state: &mut State<'_>,
    header: &Name,
    field: &Name,
    expr: &Expr,
    terms: &mut Terms,
) -> Result<(), NoMemory>
    requires ready { IsReady world.now }
    requires can { CanDo world.now terms.old state.old
        (tree.set_field 0 (name_of header.now) (name_of field.now) (expr_of expr.now)) }
    ensures follows { OnOk result (Follows terms.new (state.new ∷ [])
        (follow (world_in world.now)
        (tree.set_field 0 (name_of header.now) (name_of field.now) (expr_of expr.now))
        (state_of terms.old state.old) (inputs_in terms.old))) }
    ensures kept { KeepsTerms terms.old terms.new }
{
    let term = world.term(alloc, state, expr, terms)?;
    let headers = &world.checked.design().headers;
    let (header, field) = (header.text.bytes(), field.text.bytes());
    state.set_field(headers, header, field, term);
    Ok(())
}

/// A `filter` or an `assume`.
fn require(
    alloc: Global,
    world: &World<'_>,
    state: &mut State<'_>,
    condition: &Expr,
    terms: &mut Terms,
) -> Result<(), NoMemory>
    requires ready { IsReady world.now }
    requires can { CanDo world.now terms.old state.old (tree.filter 0 (expr_of condition.now)) }
    ensures follows { OnOk result (Follows terms.new (state.new ∷ [])
        (follow (world_in world.now) (tree.filter 0 (expr_of condition.now))
        (state_of terms.old state.old) (inputs_in terms.old))) }
    ensures kept { KeepsTerms terms.old terms.new }
{
    let part = world.term(alloc, state, condition, terms)?;
    state.require(part, terms)
}

/// A branch of an `if` begins, where a term is true.
fn begin_branch(
    state: &mut State<'_>,
    first: bool,
    part: TermId,
    terms: &mut Terms,
) -> Result<(), NoMemory>
    requires there { (state.old.condition < length terms.old) × (part < length terms.old) }
    requires truths { (width_at terms.old state.old.condition ≡ 1)
        × (width_at terms.old part ≡ 1) }
    ensures begins { OnOk result ((t : states.State) (u : Term)
        → Reads terms.old state.old t → Makes terms.old part u
        → Reads terms.new state.new (with_branch first (where_true u t))) }
    ensures kept { KeepsTerms terms.old terms.new }
    ensures inputs { inputs_in terms.new ≡ inputs_in terms.old }
{
    state.require(part, terms)?;
    state.branch(first)
}

/// Where the second branch of an `if` begins.
fn second_branch<'d>(
    alloc: Global,
    state: &State<'d>,
    part: TermId,
    terms: &mut Terms,
) -> Result<State<'d>, NoMemory>
    requires unsent { state.now.sent ≡ None }
    requires there { (state.now.condition < length terms.old) × (part < length terms.old) }
    requires truths { (width_at terms.old state.now.condition ≡ 1)
        × (width_at terms.old part ≡ 1) }
    ensures begins { IfOk result (λ second. (t : states.State) (u : Term)
        → Reads terms.old state.now t → Makes terms.old part u
        → Reads terms.new second (with_branch false (where_true u t))) }
    ensures kept { KeepsTerms terms.old terms.new }
    ensures inputs { inputs_in terms.new ≡ inputs_in terms.old }
{
    let mut second = state.copy(alloc)?;
    begin_branch(&mut second, false, part, terms)?;
    Ok(second)
}

/// Where the two branches of an `if` begin: the first, and the second.
pub(crate) fn branches<'d>(
    alloc: Global,
    world: &World<'_>,
    first: &mut State<'d>,
    condition: &Expr,
    terms: &mut Terms,
) -> Result<State<'d>, NoMemory>
    requires ready { IsReady world.now }
    requires can { CanDo world.now terms.old first.old (tree.filter 0 (expr_of condition.now)) }
    ensures first { OnOk result (Reads terms.new first.new (in_branch true
        (spec.term_at (world_in world.now) (state_of terms.old first.old) (expr_of condition.now))
        (state_of terms.old first.old))) }
    ensures second { IfOk result (λ second. Reads terms.new second (in_branch false
        (spec.term_at (world_in world.now) (state_of terms.old first.old) (expr_of condition.now))
        (state_of terms.old first.old))) }
    ensures kept { KeepsTerms terms.old terms.new }
    ensures inputs { inputs_in terms.new ≡ inputs_in terms.old }
{
    let part = world.term(alloc, first, condition, terms)?;
    let other = opposite(terms, part)?;
    let second = second_branch(alloc, first, other, terms)?;
    begin_branch(first, true, part, terms)?;
    Ok(second)
}

fn choose_variable<'d>(
    world: &World<'_>,
    state: &mut State<'d>,
    name: &'d Name,
    width: u32,
    terms: &mut Terms,
) -> Result<(), NoMemory>
    requires width { IsWidth width }
    requires can { CanDo world.now terms.old state.old
        (tree.havoc_var 0 (name_of name.now) width) }
    ensures follows { OnOk result (Follows terms.new (state.new ∷ [])
        (follow (world_in world.now) (tree.havoc_var 0 (name_of name.now) width)
        (state_of terms.old state.old) (inputs_in terms.old))) }
    ensures kept { KeepsTerms terms.old terms.new }
{
    let _level = world.level;
    let term = state.choose(width as u8, terms)?;
    state.bind(name.text.bytes(), term)
}

fn choose_field(
    world: &World<'_>,
    state: &mut State<'_>,
    header: &Name,
    field: &Name,
    terms: &mut Terms,
) -> Result<(), NoMemory>
    requires { CanDo world.now terms.old state.old
        (tree.havoc_field 0 (name_of header.now) (name_of field.now)) }
    ensures follows { OnOk result (Follows terms.new (state.new ∷ [])
        (follow (world_in world.now)
        (tree.havoc_field 0 (name_of header.now) (name_of field.now))
        (state_of terms.old state.old) (inputs_in terms.old))) }
    ensures kept { KeepsTerms terms.old terms.new }
{
    let headers = &world.checked.design().headers;
    let (header, field) = (header.text.bytes(), field.text.bytes());
    let width = field_width(headers, &state.fields, terms, header, field);
    let term = state.choose(width, terms)?;
    state.set_field(headers, header, field, term);
    Ok(())
}

/// The body of a `fork` begins, whose variable is the next choice.
pub(crate) fn enter_fork<'d>(
    alloc: Global,
    world: &World<'_>,
    state: &mut State<'d>,
    name: &'d Name,
    width: u32,
    condition: &Expr,
    terms: &mut Terms,
) -> Result<(), NoMemory>
    requires ready { IsReady world.now }
    requires width { IsWidth width }
    requires can { CanDo world.now terms.old state.old
        (tree.fork 0 (name_of name.now) width (expr_of condition.now) tree.no_stmts) }
    ensures enters { OnOk result (Reads terms.new state.new
        (forked (world_in world.now) name.now.text width (expr_of condition.now)
        (state_of terms.old state.old) (inputs_in terms.old))) }
    ensures kept { KeepsTerms terms.old terms.new }
    ensures next { OnOk result (inputs_in terms.new ≡ inputs_in terms.old + 1) }
{
    let term = state.choose(width as u8, terms)?;
    state.bind(name.text.bytes(), term)?;
    let part = world.term(alloc, state, condition, terms)?;
    state.require(part, terms)
}

fn send<'d>(
    alloc: Global,
    world: &World<'_>,
    state: &mut State<'d>,
    role: &'d Name,
    args: &[Expr],
    terms: &mut Terms,
) -> Result<(), NoMemory>
    requires ready { IsReady world.now }
    requires can { CanDo world.now terms.old state.old
        (tree.send 0 (name_of role.now) (exprs_of (map expr_of args.now))) }
    ensures follows { OnOk result (Follows terms.new (state.new ∷ [])
        (follow (world_in world.now)
        (tree.send 0 (name_of role.now) (exprs_of (map expr_of args.now)))
        (state_of terms.old state.old) (inputs_in terms.old))) }
    ensures kept { KeepsTerms terms.old terms.new }
{
    let values = world.values(alloc, state, args, terms)?;
    let role = role.text.bytes();
    let guard = world.guard(alloc, role, &values, terms)?;
    state.require(guard, terms)?;
    state.send(role, values);
    Ok(())
}
