//! The switches of a network.
ghost use Rattle.std.specs.Prelude.{◌≡◌, IfOk, length, map};
ghost use Rattle.cocoon_syntax.specs.TreeOf.{design_of};
ghost use Rattle.cocoon_types.specs.Design as design;
ghost use Rattle.lower_rows.specs.AllGroups.{fork_group_of};
ghost use Rattle.lower_net.specs.NetDeclarations.{parts_of, switch_role};
ghost use Rattle.lowering_fits.specs.Sharing.{HasOneProgram};
ghost use Rattle.lowering_correct.specs.Groups as spec;
ghost use Rattle.lowering_correct.specs.Network.{switch_files};
ghost use Rattle.runtime_defs.specs.Fitting.{FitsDesign};
ghost use Rattle.shared_net.specs.Shared.{switches_of};

use crate::{Parts, switch_code};
use cocoon_num::{List, NoMemory};
use cocoon_resolve::Checked;
use lower_rows::{ForkGroup, switch_rows};
use runtime_defs::Defs;
use shared_net::SharedSwitches;
use std::alloc::Global;

/// The program of every switch, made from those with the numbers 0 and 1, and their rows. They are made once, however many switches
/// there are.
fn shared(
    alloc: Global,
    checked: &Checked,
    defs: &Defs,
    functions: u32,
    parts: &Parts<'_>,
    groups: &[ForkGroup<'_>],
    numbers: &[u16],
) -> Result<SharedSwitches, NoMemory>
    requires fits { FitsDesign (design_of checked.now) defs.now }
    requires functions { functions ≡ length (design.functions (design_of checked.now)) }
    requires groups { map fork_group_of groups.now
        ≡ spec.fork_groups (design_of checked.now) defs.now }
    requires one { HasOneProgram (switch_role (design_of checked.now) parts.now.ingress) }
    ensures { IfOk result (λ ss. switches_of ss
        ≡ map (switch_files (design_of checked.now) defs.now
        (parts_of (design_of checked.now) parts.now))
        numbers.now) }
{
    let code = switch_code(alloc, checked, functions, &parts.ingress, 0)?;
    let rows = switch_rows(alloc, checked, defs, groups, &code.ingress, &code.egress)?;
    let program = code.program;
    let others = switch_code(alloc, checked, functions, &parts.ingress, 1)?;
    let other = others.program;
    let numbers = List::from(numbers.to_vec(alloc)?);
    Ok(SharedSwitches {
        numbers,
        program,
        other,
        rows,
    })
}

/// All switches of these numbers. Where there is none, no program is made.
pub(crate) fn switches(
    alloc: Global,
    checked: &Checked,
    defs: &Defs,
    functions: u32,
    parts: &Parts<'_>,
    groups: &[ForkGroup<'_>],
    numbers: &[u16],
) -> Result<SharedSwitches, NoMemory>
    requires fits { FitsDesign (design_of checked.now) defs.now }
    requires functions { functions ≡ length (design.functions (design_of checked.now)) }
    requires groups { map fork_group_of groups.now
        ≡ spec.fork_groups (design_of checked.now) defs.now }
    requires one { HasOneProgram (switch_role (design_of checked.now) parts.now.ingress) }
    ensures { IfOk result (λ ss. switches_of ss
        ≡ map (switch_files (design_of checked.now) defs.now
        (parts_of (design_of checked.now) parts.now))
        numbers.now) }
{
    if numbers.is_empty() {
        return Ok(SharedSwitches::none(alloc));
    }
    shared(alloc, checked, defs, functions, parts, groups, numbers)
}
