//! A role's body, run from a location.
ghost use Rattle.std.specs.Prelude.{◌≡◌, IfOk, IfSome, map, option_map, Some};
ghost use Rattle.cocoon_num.specs.PacketForms.{FieldsFit};
ghost use Rattle.cocoon_resolve.specs.Readers.{all_widths, HasRole};
ghost use Rattle.cocoon_syntax.specs.TreeOf.{block_of, param_of, role_of, stmt_of};
ghost use Rattle.cocoon_types.specs.Design.{widths_of};
ghost use Rattle.cocoon_types.specs.Taken.{if_reached};
ghost use Rattle.role_meaning.specs.Goings.{led_at, led_from};
ghost use Rattle.role_meaning.specs.Levels.{CanRun, design_at, entered, world_at};
ghost use Rattle.role_meaning.specs.Located.{loc_of};
ghost use Rattle.role_meaning.specs.Progresses.{ended_of};
ghost use Rattle.role_meaning.specs.declared.level.Level.{Level as At};
ghost use Rattle.role_values.specs.Bound.{env_of};
ghost use Rattle.role_values.specs.DeclaredWidths.{AllDeclared};
ghost use Rattle.role_values.specs.Flat.{packet_of};
ghost use Rattle.role_values.specs.FittingRuns.{fitting_go};
ghost use Rattle.role_values.specs.Scenes.{headers_of, SeesFunctions};

use crate::level::Level;
use crate::place::{Led, Loc, Packet};
use crate::progress::{End, Progress};
use crate::run::run_block;
use cocoon_num::{List, NoMemory};
use cocoon_syntax::{Role, Stmt};
use role_values::{Binding, State};
use std::alloc::Global;

/// The numbers as such of 128 bits.
fn widened(alloc: Global, numbers: &[u64]) -> Result<Vec<u128>, NoMemory>
    ensures { IfOk result (λ widened. widened.items ≡ numbers.now) }
{
    let mut widened = Vec::new(alloc);
    for number in numbers {
        widened.push(u128::from(*number))?;
    }
    Ok(widened)
}

/// The location with the packet, and the choices that are left.
fn arrive<'c>(to: Loc, progress: Progress<'c>) -> Led<'c>
    ensures leads { (l : At) → Some (led_at l result)
        ≡ if_reached (ended_of l (Some (End.Sends to)) progress.entry) }
    ensures fields { result.packet.fields ≡ progress.entry.state.fields.items }
    ensures at { result.to ≡ to }
{
    let rest = progress.choices;
    let fields = List::from(progress.state.fields);
    Led {
        to,
        packet: Packet { fields },
        rest,
    }
}

/// Where an end leads that sends.
fn reached<'c>(end: Option<End>, progress: Progress<'c>) -> Option<Led<'c>>
    ensures leads { (l : At) → option_map (led_at l) result
        ≡ if_reached (ended_of l end progress.entry) }
    ensures fields { IfSome result (λ r. r.packet.fields ≡ progress.entry.state.fields.items) }
    ensures at { IfSome result (λ r. end ≡ Some (End.Sends r.to)) }
{
    match end? {
        End::Sends(to) => Some(arrive(to, progress)),
        End::Falls => None,
    }
}

/// The end of a body that begins with these variables.
fn run_body<'c>(
    alloc: Global,
    level: &Level<'_>,
    body: &[Stmt],
    variables: Vec<Binding>,
    packet: &Packet,
    choices: &'c [u64],
) -> Result<Option<Led<'c>>, NoMemory>
    requires ready { CanRun level.now }
    requires fits { FieldsFit (all_widths (headers_of level.now.scene)) packet.now.fields }
    ensures fits { IfOk result (λ led. IfSome led (λ r.
        FieldsFit (all_widths (headers_of level.now.scene)) r.packet.fields)) }
    ensures at { IfOk result (λ led. IfSome led (λ r.
        HasRole (design_at level.now) r.to.role level.now.number)) }
    ensures leads { IfOk result (λ led. option_map (led_at level.now) led
        ≡ led_from level.now (block_of (map stmt_of body.now)) variables.items
        packet.now.fields choices.now) }
{
    let fields = packet.fields.items().to_vec(alloc)?;
    let state = State { variables, fields };
    let mut progress = Progress { state, choices };
    let end = run_block(alloc, level, &mut progress, body)?;
    Ok(reached(end, progress))
}

/// The variables with which a body begins, where the guard of its own role is true.
fn enter_own(
    alloc: Global,
    level: &Level<'_>,
    role: &Role,
    values: &[u64],
) -> Result<Option<Vec<Binding>>, NoMemory>
    requires functions { SeesFunctions level.now.scene }
    requires params { AllDeclared (widths_of (map param_of role.now.params.items)) }
    ensures { IfOk result (λ bindings. option_map (λ bs. env_of bs.items) bindings
        ≡ entered (world_at level.now) (role_of role.now) values.now) }
{
    let values = widened(alloc, values)?;
    level.enter(alloc, role, &values)
}

/// Where the body of a role leads from a location, with the first of these choices.
pub(crate) fn run_role<'c>(
    alloc: Global,
    level: &Level<'_>,
    at: &Loc,
    packet: &Packet,
    choices: &'c [u64],
) -> Result<Option<Led<'c>>, NoMemory>
    requires ready { CanRun level.now }
    requires role { HasRole (design_at level.now) at.now.role level.now.number }
    requires fits { FieldsFit (all_widths (headers_of level.now.scene)) packet.now.fields }
    ensures fits { IfOk result (λ led. IfSome led (λ r.
        FieldsFit (all_widths (headers_of level.now.scene)) r.packet.fields)) }
    ensures at { IfOk result (λ led. IfSome led (λ r.
        HasRole (design_at level.now) r.to.role level.now.number)) }
    ensures leads { IfOk result (λ led. option_map (led_at level.now) led
        ≡ fitting_go (world_at level.now) (loc_of (design_at level.now) at.now)
        (packet_of (headers_of level.now.scene) packet.now.fields) choices.now) }
{
    let role = level.scene.checked.role(at.role, level.number);
    let Some(body) = &role.body else {
        return Ok(None);
    };
    match enter_own(alloc, level, role, at.values.items())? {
        Some(variables) => run_body(alloc, level, body, variables, packet, choices),
        None => Ok(None),
    }
}
