//! Statements and blocks, followed down their trees.
ghost use Rattle.std.specs.Prelude.{◌≡◌, ◌∷◌, [], IfOk, map};
ghost use Rattle.cocoon_num.specs.Tree as tree;
ghost use Rattle.cocoon_syntax.specs.TreeOf.{block_of, expr_of, name_of, stmt_of};
ghost use Rattle.bv_terms.specs.Arenas.{KeepsTerms, inputs_in};
ghost use Rattle.obligation_laws.specs.Following.{each, follow, follow_all, then_those, unless_sent};
ghost use Rattle.symbolic_runs.specs.Fitting.{CanDo, CanFollow, HasNoBlock, IsReady};
ghost use Rattle.symbolic_runs.specs.Reading.{Follows, state_of, states_of, world_in};

use crate::states::{State, cut, one, those_sent};
use crate::steps::{branches, enter_fork, step};
use crate::world::World;
use bv_terms::Terms;
use cocoon_num::NoMemory;
use cocoon_syntax::{Expr, Name, Stmt, StmtKind};
use std::alloc::Global;

/// The states that a block makes of some states, statement by statement, each in every state that has not sent. A choice is a new
/// input. The answer has the ways in order, the first branch of an `if` before the second. Out of memory is the only error. Time
/// and memory are in proportion to the ways with their variables, fields, choices and branches, and to the nodes of expressions.
#[cycle(follow)]
pub fn follow_block<'d>(
    alloc: Global,
    world: &World<'_>,
    stmts: &'d [Stmt],
    states: Vec<State<'d>>,
    terms: &mut Terms,
) -> Result<Vec<State<'d>>, NoMemory>
    requires ready { IsReady world.now }
    requires can { CanFollow world.now terms.old states.items
        (block_of (map stmt_of stmts.now)) }
    ensures follows { IfOk result (λ after. Follows terms.new after.items
        (follow_all (world_in world.now) (block_of (map stmt_of stmts.now))
        (states_of terms.old states.entry.items, inputs_in terms.old))) }
    ensures kept { KeepsTerms terms.old terms.new }
{
    let mut states = states;
    for stmt in stmts {
        states = follow_each(alloc, world, stmt, states, terms)?;
    }
    Ok(states)
}

/// What a statement makes of each state, one after another.
#[cycle(follow)]
fn follow_each<'d>(
    alloc: Global,
    world: &World<'_>,
    stmt: &'d Stmt,
    states: Vec<State<'d>>,
    terms: &mut Terms,
) -> Result<Vec<State<'d>>, NoMemory>
    requires ready { IsReady world.now }
    requires can { CanFollow world.now terms.old states.items
        (tree.stmt (stmt_of stmt.now) tree.no_stmts) }
    ensures follows { IfOk result (λ after. Follows terms.new after.items
        (each (unless_sent (follow (world_in world.now) (stmt_of stmt.now)))
        (states_of terms.old states.entry.items) (inputs_in terms.old))) }
    ensures kept { KeepsTerms terms.old terms.new }
{
    let mut after = Vec::new(alloc);
    for state in states {
        let mut made = follow_one(alloc, world, stmt, state, terms)?;
        after.append(&mut made)?;
    }
    Ok(after)
}

/// What a statement makes of a state, which stays if it has sent.
#[cycle(follow)]
fn follow_one<'d>(
    alloc: Global,
    world: &World<'_>,
    stmt: &'d Stmt,
    state: State<'d>,
    terms: &mut Terms,
) -> Result<Vec<State<'d>>, NoMemory>
    requires ready { IsReady world.now }
    requires can { CanFollow world.now terms.old (state ∷ [])
        (tree.stmt (stmt_of stmt.now) tree.no_stmts) }
    ensures follows { IfOk result (λ after. Follows terms.new after.items
        (unless_sent (follow (world_in world.now) (stmt_of stmt.now))
        (state_of terms.old state.entry) (inputs_in terms.old))) }
    ensures kept { KeepsTerms terms.old terms.new }
{
    if state.has_sent() {
        one(alloc, state)
    } else {
        follow_stmt(alloc, world, stmt, state, terms)
    }
}

#[cycle(follow)]
fn follow_stmt<'d>(
    alloc: Global,
    world: &World<'_>,
    stmt: &'d Stmt,
    state: State<'d>,
    terms: &mut Terms,
) -> Result<Vec<State<'d>>, NoMemory>
    requires ready { IsReady world.now }
    requires can { CanDo world.now terms.old state (stmt_of stmt.now) }
    ensures follows { IfOk result (λ after. Follows terms.new after.items
        (follow (world_in world.now) (stmt_of stmt.now)
        (state_of terms.old state.entry) (inputs_in terms.old))) }
    ensures kept { KeepsTerms terms.old terms.new }
{
    match &stmt.kind {
        StmtKind::Let(_, _, _) => follow_step(alloc, world, stmt, state, terms),
        StmtKind::SetField(_, _, _) => follow_step(alloc, world, stmt, state, terms),
        StmtKind::If(condition, first, second) => {
            follow_if(alloc, world, state, condition, first, second, terms)
        }
        StmtKind::Filter(_) => follow_step(alloc, world, stmt, state, terms),
        StmtKind::HavocVar(_, _) => follow_step(alloc, world, stmt, state, terms),
        StmtKind::HavocField(_, _) => follow_step(alloc, world, stmt, state, terms),
        StmtKind::Assume(_) => follow_step(alloc, world, stmt, state, terms),
        StmtKind::Fork(name, width, condition, body) => {
            follow_fork(alloc, world, state, name, *width, condition, body, terms)
        }
        StmtKind::Send(_, _) => follow_step(alloc, world, stmt, state, terms),
    }
}

/// A statement without blocks makes one state.
fn follow_step<'d>(
    alloc: Global,
    world: &World<'_>,
    stmt: &'d Stmt,
    state: State<'d>,
    terms: &mut Terms,
) -> Result<Vec<State<'d>>, NoMemory>
    requires ready { IsReady world.now }
    requires can { CanDo world.now terms.old state (stmt_of stmt.now) }
    requires blockless { HasNoBlock (stmt_of stmt.now) }
    ensures follows { IfOk result (λ after. Follows terms.new after.items
        (follow (world_in world.now) (stmt_of stmt.now)
        (state_of terms.old state.entry) (inputs_in terms.old))) }
    ensures kept { KeepsTerms terms.old terms.new }
{
    let mut state = state;
    step(alloc, world, &mut state, stmt, terms)?;
    one(alloc, state)
}

/// The first branch from a state, and then the second from another.
#[cycle(follow)]
fn follow_both<'d>(
    alloc: Global,
    world: &World<'_>,
    first: (State<'d>, &'d [Stmt]),
    second: (State<'d>, &'d [Stmt]),
    terms: &mut Terms,
) -> Result<Vec<State<'d>>, NoMemory>
    requires ready { IsReady world.now }
    requires first { CanFollow world.now terms.old (first.0 ∷ [])
        (block_of (map stmt_of first.1.now)) }
    requires second { CanFollow world.now terms.old (second.0 ∷ [])
        (block_of (map stmt_of second.1.now)) }
    ensures follows { IfOk result (λ after. Follows terms.new after.items
        (then_those (follow_all (world_in world.now) (block_of (map stmt_of first.entry.1.now))
        (states_of terms.old (first.entry.0 ∷ []), inputs_in terms.old))
        (λ m. follow_all (world_in world.now) (block_of (map stmt_of second.entry.1.now))
        (states_of terms.old (second.entry.0 ∷ []), m)))) }
    ensures kept { KeepsTerms terms.old terms.new }
{
    let ways = one(alloc, first.0)?;
    let mut states = follow_block(alloc, world, first.1, ways, terms)?;
    let ways = one(alloc, second.0)?;
    let mut others = follow_block(alloc, world, second.1, ways, terms)?;
    states.append(&mut others)?;
    Ok(states)
}

/// Both branches, whose variables end with them.
#[cycle(follow)]
fn follow_if<'d>(
    alloc: Global,
    world: &World<'_>,
    state: State<'d>,
    condition: &Expr,
    first: &'d [Stmt],
    second: &'d [Stmt],
    terms: &mut Terms,
) -> Result<Vec<State<'d>>, NoMemory>
    requires ready { IsReady world.now }
    requires can { CanDo world.now terms.old state (tree.if_ 0 (expr_of condition.now)
        (block_of (map stmt_of first.now)) (block_of (map stmt_of second.now))) }
    ensures follows { IfOk result (λ after. Follows terms.new after.items
        (follow (world_in world.now) (tree.if_ 0 (expr_of condition.now)
        (block_of (map stmt_of first.now)) (block_of (map stmt_of second.now)))
        (state_of terms.old state.entry) (inputs_in terms.old))) }
    ensures kept { KeepsTerms terms.old terms.new }
{
    let count = state.variables.len();
    let mut state = state;
    let other = branches(alloc, world, &mut state, condition, terms)?;
    let states = follow_both(alloc, world, (state, first), (other, second), terms)?;
    cut(alloc, states, count)
}

/// The ways through the body that send; nothing else goes on.
#[cycle(follow)]
fn follow_fork<'d>(
    alloc: Global,
    world: &World<'_>,
    state: State<'d>,
    name: &'d Name,
    width: u32,
    condition: &Expr,
    body: &'d [Stmt],
    terms: &mut Terms,
) -> Result<Vec<State<'d>>, NoMemory>
    requires ready { IsReady world.now }
    requires can { CanDo world.now terms.old state (tree.fork 0 (name_of name.now) width
        (expr_of condition.now) (block_of (map stmt_of body.now))) }
    ensures follows { IfOk result (λ after. Follows terms.new after.items
        (follow (world_in world.now) (tree.fork 0 (name_of name.now) width
        (expr_of condition.now) (block_of (map stmt_of body.now)))
        (state_of terms.old state.entry) (inputs_in terms.old))) }
    ensures kept { KeepsTerms terms.old terms.new }
{
    let mut state = state;
    enter_fork(alloc, world, &mut state, name, width, condition, terms)?;
    let states = one(alloc, state)?;
    let states = follow_block(alloc, world, body, states, terms)?;
    those_sent(alloc, states)
}
