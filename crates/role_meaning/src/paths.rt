//! The paths of a body, by the choices that their values are.
ghost use Rattle.std.specs.Prelude.{◌≡◌, ℕ, ◌||◌, Bool, false, IfOk, List, map, OnOk, Vec as Vector};
ghost use Rattle.std.specs.declared.alloc.Global.{Global as Alloc};
ghost use Rattle.cocoon_syntax.specs.TreeOf.{block_of, stmt_of};
ghost use Rattle.refinement.specs.Trails as spec;
ghost use Rattle.refinement.specs.Trails.{leaves, Marks};
ghost use Rattle.role_meaning.specs.Views.{Keeps, marks_at, passes, some_goes, some_tried, var_of};

use crate::trail::{
    Trail, Variable, bind, bind_made, copy_trail, expr_choice, set, set_made, variables_of,
};
use crate::tries::{Wanted, tried};
use cocoon_num::NoMemory;
use cocoon_syntax::{Stmt, StmtKind};
use std::alloc::Global;

/// Adds a trail.
#[tactic(auto, using(crate::proofs::Kept::pushed))]
fn go_on<'t>(onward: &mut Vec<Trail<'t>>, trail: Trail<'t>) -> Result<(), NoMemory>
    ensures { OnOk result ((t : Marks → Bool) (u : List ℕ → Bool)
        (found : List (Vector ℕ Alloc)) →
        Keeps (t (marks_at trail.entry) || passes t u onward.old.items found)
        (passes t u onward.new.items found)) }
{
    onward.push(trail)?;
    Ok(())
}

/// Adds trails that leave a block, with the variables that were bound before it.
#[tactic(auto, using(crate::proofs::Kept::one_less))]
fn leave_all<'t>(
    alloc: Global,
    variables: &[Variable<'t>],
    mut trails: Vec<Trail<'t>>,
    onward: &mut Vec<Trail<'t>>,
) -> Result<(), NoMemory>
    ensures { OnOk result ((t : Marks → Bool) (u : List ℕ → Bool)
        (found : List (Vector ℕ Alloc)) →
        Keeps (some_goes (λ m. t (leaves (map var_of variables.now) m)) trails.entry.items
        || passes t u onward.old.items found)
        (passes t u onward.new.items found)) }
{
    while let Some(mut trail) = trails.pop() {
        trail.variables = variables.to_vec(alloc)?;
        go_on(onward, trail)?;
    }
    Ok(())
}

/// Follows a trail through statements, to where it goes on after them. What is tried where it sends
/// is added to what was found.
#[cycle(follow)]
#[tactic(auto, using(crate::proofs::Kept::only_one))]
pub(crate) fn follow_block<'t>(
    alloc: Global,
    wanted: &Wanted<'_>,
    stmts: &'t [Stmt],
    trail: Trail<'t>,
    found: &mut Vec<Vec<u64>>,
) -> Result<Vec<Trail<'t>>, NoMemory>
    ensures { IfOk result (λ trails. (t : Marks → Bool) (u : List ℕ → Bool) →
        Keeps (spec.finds_in wanted.now.to.now wanted.now.sent.now
        (block_of (map stmt_of stmts.now)) t u (marks_at trail.entry)
        || some_tried u found.old.items)
        (passes t u trails.items found.new.items)) }
{
    let mut trails = Vec::new(alloc);
    trails.push(trail)?;
    for stmt in stmts {
        trails = follow_all(alloc, wanted, stmt, trails, found)?;
    }
    Ok(trails)
}

#[cycle(follow)]
#[tactic(auto, using(crate::proofs::Kept::one_less))]
fn follow_all<'t>(
    alloc: Global,
    wanted: &Wanted<'_>,
    stmt: &'t Stmt,
    mut trails: Vec<Trail<'t>>,
    found: &mut Vec<Vec<u64>>,
) -> Result<Vec<Trail<'t>>, NoMemory>
    ensures { IfOk result (λ onward. (t : Marks → Bool) (u : List ℕ → Bool) →
        Keeps (passes (spec.finds wanted.now.to.now wanted.now.sent.now (stmt_of stmt.now) t u) u
        trails.entry.items found.old.items)
        (passes t u onward.items found.new.items)) }
{
    let mut onward = Vec::new(alloc);
    while let Some(trail) = trails.pop() {
        follow_stmt(alloc, wanted, stmt, trail, &mut onward, found)?;
    }
    Ok(onward)
}

/// Follows a trail through a branch.
#[cycle(follow)]
fn follow_branch<'t>(
    alloc: Global,
    wanted: &Wanted<'_>,
    stmts: &'t [Stmt],
    trail: Trail<'t>,
    onward: &mut Vec<Trail<'t>>,
    found: &mut Vec<Vec<u64>>,
) -> Result<(), NoMemory>
    ensures { OnOk result ((t : Marks → Bool) (u : List ℕ → Bool) →
        Keeps (spec.finds_in wanted.now.to.now wanted.now.sent.now
        (block_of (map stmt_of stmts.now))
        (λ m. t (leaves (marks_at trail.entry).vars m)) u (marks_at trail.entry)
        || passes t u onward.old.items found.old.items)
        (passes t u onward.new.items found.new.items)) }
{
    let variables = variables_of(alloc, &trail)?;
    let trails = follow_block(alloc, wanted, stmts, trail, found)?;
    leave_all(alloc, &variables, trails, onward)
}

#[cycle(follow)]
#[tactic(auto, using(crate::proofs::Kept::branched))]
fn follow_if<'t>(
    alloc: Global,
    wanted: &Wanted<'_>,
    first: &'t [Stmt],
    second: &'t [Stmt],
    trail: Trail<'t>,
    onward: &mut Vec<Trail<'t>>,
    found: &mut Vec<Vec<u64>>,
) -> Result<(), NoMemory>
    ensures { OnOk result ((t : Marks → Bool) (u : List ℕ → Bool) →
        Keeps ((spec.finds_in wanted.now.to.now wanted.now.sent.now
        (block_of (map stmt_of first.now))
        (λ m. t (leaves (marks_at trail.entry).vars m)) u (marks_at trail.entry)
        || spec.finds_in wanted.now.to.now wanted.now.sent.now
        (block_of (map stmt_of second.now))
        (λ m. t (leaves (marks_at trail.entry).vars m)) u (marks_at trail.entry))
        || passes t u onward.old.items found.old.items)
        (passes t u onward.new.items found.new.items)) }
{
    let copy = copy_trail(alloc, &trail)?;
    follow_branch(alloc, wanted, first, copy, onward, found)?;
    follow_branch(alloc, wanted, second, trail, onward, found)
}

#[cycle(follow)]
#[tactic(auto, using(crate::proofs::Kept::forked))]
fn follow_fork<'t>(
    alloc: Global,
    wanted: &Wanted<'_>,
    body: &'t [Stmt],
    trail: Trail<'t>,
    found: &mut Vec<Vec<u64>>,
) -> Result<(), NoMemory>
    ensures { OnOk result ((u : List ℕ → Bool) →
        Keeps (spec.finds_in wanted.now.to.now wanted.now.sent.now (block_of (map stmt_of body.now))
        (λ m. false) u (marks_at trail.entry) || some_tried u found.old.items)
        (some_tried u found.new.items)) }
{
    follow_block(alloc, wanted, body, trail, found)?;
    Ok(())
}

#[cycle(follow)]
#[tactic(auto, using(crate::proofs::Kept::tried_more))]
fn follow_stmt<'t>(
    alloc: Global,
    wanted: &Wanted<'_>,
    stmt: &'t Stmt,
    mut trail: Trail<'t>,
    onward: &mut Vec<Trail<'t>>,
    found: &mut Vec<Vec<u64>>,
) -> Result<(), NoMemory>
    ensures { OnOk result ((t : Marks → Bool) (u : List ℕ → Bool) →
        Keeps (spec.finds wanted.now.to.now wanted.now.sent.now (stmt_of stmt.now) t u
        (marks_at trail.entry) || passes t u onward.old.items found.old.items)
        (passes t u onward.new.items found.new.items)) }
{
    match &stmt.kind {
        StmtKind::Let(name, _, value) => {
            let choice = expr_choice(&trail, value);
            bind(&mut trail, name.text.bytes(), choice)?;
            go_on(onward, trail)
        }
        StmtKind::SetField(header, field, value) => {
            let choice = expr_choice(&trail, value);
            set(&mut trail, header.text.bytes(), field.text.bytes(), choice);
            go_on(onward, trail)
        }
        StmtKind::If(_, first, second) => {
            follow_if(alloc, wanted, first, second, trail, onward, found)
        }
        StmtKind::Filter(_) => go_on(onward, trail),
        StmtKind::HavocVar(name, _) => {
            bind_made(&mut trail, name.text.bytes(), stmt.at)?;
            go_on(onward, trail)
        }
        StmtKind::HavocField(header, field) => {
            set_made(&mut trail, header.text.bytes(), field.text.bytes(), stmt.at)?;
            go_on(onward, trail)
        }
        StmtKind::Assume(_) => go_on(onward, trail),
        StmtKind::Fork(name, _, _, body) => {
            bind_made(&mut trail, name.text.bytes(), stmt.at)?;
            follow_fork(alloc, wanted, body, trail, found)
        }
        StmtKind::Send(_, args) => {
            found.push(tried(alloc, wanted, &trail, args)?)?;
            Ok(())
        }
    }
}
