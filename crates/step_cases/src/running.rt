//! One body's run of a case.
ghost use Rattle.std.specs.Prelude.{◌≡◌, IfOk};
ghost use Rattle.cocoon_num.specs.PacketForms.{FieldsFit};
ghost use Rattle.cocoon_resolve.specs.Readers.{HasRole, field_widths};
ghost use Rattle.step_cases.specs.Agrees.{CanRun, StandsFor};
ghost use Rattle.step_cases.specs.Cases as cases;
ghost use Rattle.step_cases.specs.Stepping.{IsSent, Steps};
ghost use Rattle.cocoon_syntax.specs.TreeOf.{design_of};
ghost use Rattle.cocoon_types.specs.Tables as tables;
ghost use Rattle.role_meaning.specs.Located.{loc_of, sent_of};
ghost use Rattle.runtime_defs.specs.Fitting.{FitsDesign};
ghost use Rattle.runtime_defs.specs.Stands.{Stands};

use crate::Case;
use crate::sent::Sent;
use cocoon_num::{List, NoMemory, Text};
use cocoon_resolve::Checked;
use role_meaning::{Loc, Packet, go};
use runtime_defs::Defs;
use std::alloc::Global;

/// What is told of a location of this level and a packet.
fn told(
    alloc: Global,
    checked: &Checked,
    level: u32,
    to: Loc,
    packet: Packet,
) -> Result<Sent, NoMemory>
    requires role { HasRole (design_of checked.now) to.role level }
    requires fits { FieldsFit (field_widths (design_of checked.now)) packet.fields }
    ensures { IfOk result (λ sent. IsSent sent
        (loc_of (design_of checked.now) to) (sent_of (design_of checked.now) packet)) }
{
    let role = checked.role(to.role, level);
    Ok(Sent {
        role: Text::from(alloc, role.name.text.bytes())?,
        values: to.values,
        fields: packet.fields,
    })
}

/// Where the body of the case's role sends its packet, with exactly the case's choices, at the level that the case was read
/// for and under definitions of the design; nothing where no run takes just these choices.
pub fn run_case(
    alloc: Global,
    checked: &Checked,
    defs: &Defs,
    level: u32,
    case: Case,
) -> Result<Option<Sent>, NoMemory>
    requires defs { FitsDesign (design_of checked.now) defs.now }
    requires case { CanRun level (design_of checked.now) case }
    ensures { IfOk result (λ sent. (defined : tables.Defs)
        → Stands (design_of checked.now) defs.now defined
        → (of : cases.Case) → StandsFor (design_of checked.now) case of
        → Steps level (design_of checked.now) defined of sent) }
{
    let Case {
        role,
        values,
        fields,
        choices,
    } = case;
    let at = Loc {
        role,
        values: List::from(values),
    };
    let packet = Packet {
        fields: List::from(fields),
    };
    match go(alloc, checked, defs, level, &at, &packet, &choices)? {
        Some((to, sent)) => Ok(Some(told(alloc, checked, level, to, sent)?)),
        None => Ok(None),
    }
}
