//! The functions whose default is `false` and whose rows are literal: those of guards, and of forks of the last level.
ghost use Rattle.std.specs.Prelude.{◌≡◌, [], map, option_map};
ghost use Rattle.cocoon_num.specs.Lists.{is_one_of};
ghost use Rattle.cocoon_num.specs.Names.{same_name};
ghost use Rattle.cocoon_syntax.specs.TreeOf.{block_of, design_of, expr_of, role_of, stmt_of};
ghost use Rattle.cocoon_types.specs.DefsRules as rules;
ghost use Rattle.cocoon_types.specs.LastLevel as last;
ghost use Rattle.runtime_defs.specs.Printable as spec;
ghost use Rattle.runtime_defs.specs.Sets as sets;
ghost use Rattle.runtime_defs.specs.Sets.{forks_in, forks_of, role_forks, role_guard};

use cocoon_resolve::Checked;
use cocoon_syntax::{Expr, ExprKind, Name, Role, Stmt, StmtKind};

fn is_same(name: &[u8], other: &[u8]) -> bool
    ensures { result ≡ same_name name.now other.now }
{
    name == other
}

/// The function that a call names; no name where it is no call.
fn called(expr: &Expr) -> &[u8]
    ensures { result.now ≡ last.called (expr_of expr.now) }
{
    match &expr.kind {
        ExprKind::Call(function, _) => function.text.bytes(),
        _ => &[],
    }
}

/// Whether a guard calls the function of this name.
#[tactic(auto, using(crate::proofs::LiteralCalls::only))]
fn is_in_guard(guard: &Expr, function: &[u8]) -> bool
    ensures { result ≡ is_one_of (rules.guard_call (expr_of guard.now)) function.now }
{
    match &guard.kind {
        ExprKind::Call(name, _) => is_same(name.text.bytes(), function),
        ExprKind::Binary(_, left, _) => is_same(called(left), function),
        _ => false,
    }
}

/// Whether the guard of a role does, where there is a role.
fn is_in_role_guard(role: Option<&Role>, function: &[u8]) -> bool
    ensures { result
        ≡ is_one_of (role_guard (option_map (λ r. role_of r.now) role.entry)) function.now }
{
    match role {
        Some(role) => is_in_guard(&role.guard, function),
        None => false,
    }
}

/// The entry role of hosts at level 0, where the sink is there, too.
fn entry_role(checked: &Checked) -> Option<&Role>
    ensures { option_map (λ r. role_of r.now) result ≡ sets.entry_role (design_of checked.now) }
{
    let host = checked.names().host(checked.design())?;
    let entry = checked
        .names()
        .role_at(checked.design(), host.entry.text.bytes(), 0)?;
    let _ = checked
        .names()
        .role_at(checked.design(), host.sink.text.bytes(), 0)?;
    Some(entry)
}

/// Whether its guard calls the function of this name.
fn is_in_host_guard(checked: &Checked, function: &[u8]) -> bool
    ensures { result
        ≡ is_one_of (role_guard (sets.entry_role (design_of checked.now))) function.now }
{
    is_in_role_guard(entry_role(checked), function)
}

/// The role of this name at the last level.
fn last_role<'c>(checked: &'c Checked, name: &Name) -> Option<&'c Role>
    ensures { option_map (λ r. role_of r.now) result
        ≡ sets.last_role (design_of checked.now) name.now.text }
{
    let last = checked.levels() - 1;
    checked
        .names()
        .role_at(checked.design(), name.text.bytes(), last)
}

/// Whether a fork of these statements calls the function of this name.
#[cycle(forks)]
#[tactic(auto, using(crate::proofs::LiteralCalls::block_step))]
fn is_in_forks(stmts: &[Stmt], function: &[u8]) -> bool
    ensures { result ≡ is_one_of (forks_in (block_of (map stmt_of stmts.now))) function.now }
{
    for stmt in stmts {
        if is_in_stmt_forks(stmt, function) {
            return true;
        }
    }
    false
}

#[cycle(forks)]
#[tactic(auto, using(crate::proofs::LiteralCalls::fork_case, crate::proofs::LiteralCalls::if_step))]
fn is_in_stmt_forks(stmt: &Stmt, function: &[u8]) -> bool
    ensures { result ≡ is_one_of (forks_of (stmt_of stmt.now)) function.now }
{
    match &stmt.kind {
        StmtKind::If(_, first, second) => {
            is_in_forks(first, function) || is_in_forks(second, function)
        }
        StmtKind::Fork(_, _, condition, body) => {
            let here = is_same(called(condition), function);
            let inside = is_in_forks(body, function);
            here || inside
        }
        _ => false,
    }
}

/// Whether a fork of a role's body does, where there is one.
fn is_in_role_forks(role: Option<&Role>, function: &[u8]) -> bool
    ensures { result
        ≡ is_one_of (role_forks (option_map (λ r. role_of r.now) role.entry)) function.now }
{
    let Some(role) = role else {
        return false;
    };
    match &role.body {
        Some(body) => is_in_forks(body, function),
        None => false,
    }
}

/// Whether the guard of a switch role calls the function of this name.
#[tactic(auto, using(crate::proofs::LiteralCalls::either))]
fn is_in_switch_guards(checked: &Checked, function: &[u8]) -> bool
    ensures { result ≡ is_one_of (sets.switch_guards (design_of checked.now)) function.now }
{
    match checked.names().switch(checked.design()) {
        Some(switch) => {
            is_in_role_guard(last_role(checked, &switch.out), function)
                || is_in_role_guard(last_role(checked, &switch.into), function)
        }
        None => false,
    }
}

/// Whether a fork of the first switch role at the last level does.
fn is_in_switch_forks(checked: &Checked, function: &[u8]) -> bool
    ensures { result ≡ is_one_of (sets.switch_forks (design_of checked.now)) function.now }
{
    match checked.names().switch(checked.design()) {
        Some(switch) => is_in_role_forks(last_role(checked, &switch.into), function),
        None => false,
    }
}

/// Whether a guard of hosts or switches does.
#[tactic(auto, using(crate::proofs::LiteralCalls::guard_parts))]
fn is_in_guards(checked: &Checked, function: &[u8]) -> bool
    ensures { result ≡ is_one_of (rules.guard_calls (design_of checked.now)) function.now }
{
    is_in_switch_guards(checked, function) || is_in_host_guard(checked, function)
}

/// Whether the function of this name is one of a guard of hosts or switches, or of a fork of the
/// last level.
#[tactic(auto, using(crate::proofs::LiteralCalls::literal_parts))]
pub(crate) fn is_literal(checked: &Checked, function: &[u8]) -> bool
    ensures { result ≡ is_one_of (spec.literal_functions (design_of checked.now)) function.now }
{
    is_in_guards(checked, function) || is_in_switch_forks(checked, function)
}
