//! Where the body of a wire leads.
ghost use Rattle.std.specs.Prelude.{◌≡◌, IfOk, IfSome, None, option_map};
ghost use Rattle.cocoon_resolve.specs.Readers.{HasRole};
ghost use Rattle.cocoon_syntax.specs.TreeOf.{design_of};
ghost use Rattle.cocoon_types.specs.Design.{last_level, role_at};
ghost use Rattle.lowering_correct.specs.Wires as spec;
ghost use Rattle.lower_net.specs.Led.{IsDeclared, loc_at};
ghost use Rattle.role_meaning.specs.Located.{loc_of};
ghost use Rattle.runtime_defs.specs.Fitting.{FitsDesign};

use crate::idle::idle;
use cocoon_num::{List, NoMemory};
use cocoon_resolve::Checked;
use cocoon_types::runs::runs_are_taken;
use declarations::RoleId;
use role_meaning::{Loc, go};
use runtime_defs::Defs;
use std::alloc::Global;

/// The number of a role that is declared.
fn declared_role(checked: &Checked, role: &[u8]) -> Option<RoleId>
    ensures there { IfSome result (λ n. IsDeclared (design_of checked.now) role.now n) }
    ensures none { result ≡ None
        → role_at (last_level (design_of checked.now)) (design_of checked.now) role.now ≡ None }
{
    let last = checked.levels() - 1;
    checked.names().role_at(checked.design(), role, last)?;
    checked.role_of(role)
}

/// The location to which the body of the role of this number leads at the last level.
fn led_from(
    alloc: Global,
    checked: &Checked,
    defs: &Defs,
    at: &Loc,
) -> Result<Option<Loc>, NoMemory>
    requires defs { FitsDesign (design_of checked.now) defs.now }
    requires role { HasRole (design_of checked.now) at.now.role
        (last_level (design_of checked.now)) }
    ensures leads { IfOk result (λ to. option_map (loc_of (design_of checked.now)) to
        ≡ spec.led (design_of checked.now) defs.now (loc_of (design_of checked.now) at.now)) }
    ensures at { IfOk result (λ to. IfSome to (λ l.
        HasRole (design_of checked.now) l.role (last_level (design_of checked.now)))) }
{
    runs_are_taken();
    let packet = idle(alloc, checked)?;
    let last = checked.levels() - 1;
    match go(alloc, checked, defs, last, at, &packet, &[])? {
        Some((to, _)) => Ok(Some(to)),
        None => Ok(None),
    }
}

/// The location to which the body of the role of this name leads at the last level.
pub(crate) fn led(
    alloc: Global,
    checked: &Checked,
    defs: &Defs,
    role: &[u8],
    values: Vec<u64>,
) -> Result<Option<Loc>, NoMemory>
    requires defs { FitsDesign (design_of checked.now) defs.now }
    ensures leads { IfOk result (λ to. option_map (loc_of (design_of checked.now)) to
        ≡ spec.led (design_of checked.now) defs.now (loc_at role.now values.items)) }
    ensures at { IfOk result (λ to. IfSome to (λ l.
        HasRole (design_of checked.now) l.role (last_level (design_of checked.now)))) }
{
    match declared_role(checked, role) {
        Some(role) => {
            let values = List::from(values);
            led_from(alloc, checked, defs, &Loc { role, values })
        }
        None => Ok(None),
    }
}
