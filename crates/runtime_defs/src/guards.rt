//! The functions of the guards of hosts and of switches.
ghost use Rattle.std.specs.Prelude.{◌≡◌, option_and_then, option_map};
ghost use Rattle.cocoon_num.specs.Lists.{first_of};
ghost use Rattle.cocoon_syntax.specs.TreeOf.{design_of, expr_of};
ghost use Rattle.cocoon_types.specs.DefsRules as rules;
ghost use Rattle.declarations.specs.Declares.{function_number};
ghost use Rattle.runtime_defs.specs.Guards as spec;
ghost use Rattle.runtime_defs.specs.Sets.{last_role, role_guard};

use crate::literal_rows::{called, entry_role, last_role};
use cocoon_resolve::Checked;
use cocoon_syntax::{Expr, ExprKind, Name};
use declarations::FunId;

/// The function that a guard calls.
fn guard_function(guard: &Expr) -> Option<&[u8]>
    ensures { option_map (λ f. f.now) result ≡ first_of (rules.guard_call (expr_of guard.now)) }
{
    match &guard.kind {
        ExprKind::Call(function, _) => Some(function.text.bytes()),
        ExprKind::Binary(_, left, _) => Some(called(left)),
        _ => None,
    }
}

/// That of the guard of a role at the last level.
fn last_function<'c>(checked: &'c Checked, role: &Name) -> Option<&'c [u8]>
    ensures { option_map (λ f. f.now) result
        ≡ first_of (role_guard (last_role (design_of checked.now) role.now.text)) }
{
    guard_function(&last_role(checked, role)?.guard)
}

/// The number of the function of the guard of the host roles.
pub(crate) fn host_function(checked: &Checked) -> Option<FunId>
    ensures { result ≡ option_and_then (function_number (design_of checked.now))
        (spec.host_function (design_of checked.now)) }
{
    let entry = entry_role(checked)?;
    checked.function_of(guard_function(&entry.guard)?)
}

/// The function of the guards of the switch roles: of the first that has one.
fn switch_name(checked: &Checked) -> Option<&[u8]>
    ensures { option_map (λ f. f.now) result ≡ spec.switch_function (design_of checked.now) }
{
    let switch = checked.names().switch(checked.design())?;
    match last_function(checked, &switch.into) {
        Some(function) => Some(function),
        None => last_function(checked, &switch.out),
    }
}

/// Its number.
pub(crate) fn switch_function(checked: &Checked) -> Option<FunId>
    ensures { result ≡ option_and_then (function_number (design_of checked.now))
        (spec.switch_function (design_of checked.now)) }
{
    checked.function_of(switch_name(checked)?)
}
