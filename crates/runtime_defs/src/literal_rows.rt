//! The functions whose rows must be literal: those of the guards, and those of the forks of the last level.
ghost use Rattle.std.specs.Prelude.{◌≡◌, ◌++◌, ℕ, IfOk, is_none, List, map, OnOk, option_map};
ghost use Rattle.cocoon_num.specs.Tree as tree;
ghost use Rattle.cocoon_num.specs.Lists.{first_of};
ghost use Rattle.cocoon_syntax.specs.TreeOf.{block_of, const_of, design_of, entry_of, expr_of, pattern_of, role_of, stmt_of};
ghost use Rattle.cocoon_types.specs.DefsRules as rules;
ghost use Rattle.cocoon_types.specs.LastLevel as last;
ghost use Rattle.runtime_defs.specs.Sets.{AreKnown, forks_in, forks_of, Holds};
ghost use Rattle.runtime_defs.specs.Sets as spec;
ghost use Rattle.std.specs.List.{list_all};

use crate::entries::entry_function;
use crate::function_set::FunctionSet;
use cocoon_num::NoMemory;
use cocoon_resolve::Checked;
use cocoon_syntax::{Const, Entry, Expr, ExprKind, Name, Pattern, Role, Stmt, StmtKind};
use std::alloc::Global;

/// The function that a call names; no name where it is no call.
pub(crate) fn called(expr: &Expr) -> &[u8]
    ensures { result.now ≡ last.called (expr_of expr.now) }
{
    match &expr.kind {
        ExprKind::Call(function, _) => function.text.bytes(),
        _ => &[],
    }
}

/// Adds the function that a guard calls.
fn add_guard(checked: &Checked, guard: &Expr, set: &mut FunctionSet) -> Result<(), NoMemory>
    ensures { (fs : List (List ℕ)) → Holds (design_of checked.now) fs set.old
        → OnOk result (Holds (design_of checked.now)
        (rules.guard_call (expr_of guard.now) ++ fs) set.new) }
{
    match &guard.kind {
        ExprKind::Call(function, _) => set.add(checked, function.text.bytes()),
        ExprKind::Binary(_, left, _) => set.add(checked, called(left)),
        _ => Ok(()),
    }
}

/// The entry role of hosts at level 0, where the sink is there, too.
pub(crate) fn entry_role(checked: &Checked) -> Option<&Role>
    ensures { option_map (λ r. role_of r.now) result ≡ spec.entry_role (design_of checked.now) }
{
    let host = checked.names().host(checked.design())?;
    let entry = checked
        .names()
        .role_at(checked.design(), host.entry.text.bytes(), 0)?;
    let _ = checked
        .names()
        .role_at(checked.design(), host.sink.text.bytes(), 0)?;
    Some(entry)
}

/// The role of this name at the last level.
pub(crate) fn last_role<'c>(checked: &'c Checked, name: &Name) -> Option<&'c Role>
    ensures { option_map (λ r. role_of r.now) result
        ≡ spec.last_role (design_of checked.now) name.now.text }
{
    let last = checked.levels() - 1;
    checked
        .names()
        .role_at(checked.design(), name.text.bytes(), last)
}

/// Adds the function of the guard of a role at the last level.
fn add_last_guard(checked: &Checked, name: &Name, set: &mut FunctionSet) -> Result<(), NoMemory>
    ensures { (fs : List (List ℕ)) → Holds (design_of checked.now) fs set.old
        → OnOk result (Holds (design_of checked.now)
        (spec.role_guard (spec.last_role (design_of checked.now) name.now.text) ++ fs) set.new) }
{
    match last_role(checked, name) {
        Some(role) => add_guard(checked, &role.guard, set),
        None => Ok(()),
    }
}

fn add_host_guard(checked: &Checked, set: &mut FunctionSet) -> Result<(), NoMemory>
    ensures { (fs : List (List ℕ)) → Holds (design_of checked.now) fs set.old
        → OnOk result (Holds (design_of checked.now)
        (spec.role_guard (spec.entry_role (design_of checked.now)) ++ fs) set.new) }
{
    match entry_role(checked) {
        Some(role) => add_guard(checked, &role.guard, set),
        None => Ok(()),
    }
}

fn add_switch_guards(checked: &Checked, set: &mut FunctionSet) -> Result<(), NoMemory>
    ensures { (fs : List (List ℕ)) → Holds (design_of checked.now) fs set.old
        → OnOk result (Holds (design_of checked.now)
        (spec.switch_guards (design_of checked.now) ++ fs) set.new) }
{
    if let Some(switch) = checked.names().switch(checked.design()) {
        add_last_guard(checked, &switch.into, set)?;
        add_last_guard(checked, &switch.out, set)?;
    }
    Ok(())
}

/// The functions of the guards of hosts and of switches.
pub(crate) fn guard_functions(alloc: Global, checked: &Checked) -> Result<FunctionSet, NoMemory>
    ensures { IfOk result (λ set. Holds (design_of checked.now)
        (rules.guard_calls (design_of checked.now)) set) }
{
    let mut set = FunctionSet::new(alloc);
    add_host_guard(checked, &mut set)?;
    add_switch_guards(checked, &mut set)?;
    Ok(set)
}

/// Adds the functions of the forks of a block.
#[cycle(forks)]
fn add_forks(checked: &Checked, stmts: &[Stmt], set: &mut FunctionSet) -> Result<(), NoMemory>
    ensures { (fs : List (List ℕ)) → Holds (design_of checked.now) fs set.old
        → OnOk result (Holds (design_of checked.now)
        (forks_in (block_of (map stmt_of stmts.now)) ++ fs) set.new) }
{
    for stmt in stmts {
        add_stmt_forks(checked, stmt, set)?;
    }
    Ok(())
}

#[cycle(forks)]
fn add_stmt_forks(checked: &Checked, stmt: &Stmt, set: &mut FunctionSet) -> Result<(), NoMemory>
    ensures { (fs : List (List ℕ)) → Holds (design_of checked.now) fs set.old
        → OnOk result (Holds (design_of checked.now) (forks_of (stmt_of stmt.now) ++ fs) set.new) }
{
    match &stmt.kind {
        StmtKind::If(_, first, second) => {
            add_forks(checked, first, set)?;
            add_forks(checked, second, set)
        }
        StmtKind::Fork(_, _, condition, body) => {
            set.add(checked, called(condition))?;
            add_forks(checked, body, set)
        }
        _ => Ok(()),
    }
}

/// Adds those of a role's body at the last level.
fn add_last_forks(checked: &Checked, name: &Name, set: &mut FunctionSet) -> Result<(), NoMemory>
    ensures { (fs : List (List ℕ)) → Holds (design_of checked.now) fs set.old
        → OnOk result (Holds (design_of checked.now)
        (spec.role_forks (spec.last_role (design_of checked.now) name.now.text) ++ fs) set.new) }
{
    let Some(role) = last_role(checked, name) else {
        return Ok(());
    };
    match &role.body {
        Some(body) => add_forks(checked, body, set),
        None => Ok(()),
    }
}

fn add_switch_forks(checked: &Checked, set: &mut FunctionSet) -> Result<(), NoMemory>
    ensures { (fs : List (List ℕ)) → Holds (design_of checked.now) fs set.old
        → OnOk result (Holds (design_of checked.now)
        (spec.switch_forks (design_of checked.now) ++ fs) set.new) }
{
    if let Some(switch) = checked.names().switch(checked.design()) {
        add_last_forks(checked, &switch.into, set)?;
    }
    Ok(())
}

/// The functions of the forks of the first switch role at the last level.
pub(crate) fn fork_functions(alloc: Global, checked: &Checked) -> Result<FunctionSet, NoMemory>
    ensures { IfOk result (λ set. Holds (design_of checked.now)
        (rules.fork_calls (design_of checked.now)) set) }
{
    let mut set = FunctionSet::new(alloc);
    add_switch_forks(checked, &mut set)?;
    Ok(set)
}

fn is_literal(pattern: Pattern) -> bool
    ensures { result ≡ rules.is_literal (pattern_of pattern) }
{
    match pattern {
        Pattern::Literal(_) => true,
        Pattern::Masked(_, _) => false,
        Pattern::Any => false,
    }
}

fn are_literal(patterns: &[Pattern]) -> bool
    ensures { result ≡ list_all rules.is_literal (map pattern_of patterns.now) }
{
    for pattern in patterns {
        if !is_literal(*pattern) {
            return false;
        }
    }
    true
}

fn is_false(value: Const) -> bool
    ensures { result ≡ rules.is_false (const_of value) }
{
    match value {
        Const::Number(_) => false,
        Const::Truth(truth) => !truth,
    }
}

/// Whether an entry has literals alone, or is the default `false`.
fn is_literal_entry(entry: &Entry) -> bool
    ensures { result ≡ rules.is_literal_entry (entry_of entry.now) }
{
    match entry {
        Entry::Default(_, value) => is_false(*value),
        Entry::Define(_, patterns, _) => are_literal(patterns),
    }
}

/// The token index of the first entry of these functions that is not so. The functions of all
/// entries are the design's.
pub(crate) fn first_other(
    checked: &Checked,
    functions: &FunctionSet,
    entries: &[Entry],
) -> Option<u32>
    requires { AreKnown (design_of checked.now) (map entry_of entries.now) }
    ensures { (fs : List (List ℕ)) (fault : ℕ → rules.DefsFault)
        → Holds (design_of checked.now) fs functions.now
        → option_map fault result
        ≡ first_of (rules.other_entries fs fault (map entry_of entries.now)) }
{
    for entry in entries {
        let name = entry_function(entry);
        if functions.has(checked, name.text.bytes()) && !is_literal_entry(entry) {
            return Some(name.at);
        }
    }
    None
}
