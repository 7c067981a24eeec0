//! Bodies run one after another, from a refined role through new ones.
ghost use Rattle.std.specs.Prelude.{◌≡◌, ◌<◌, ◌+◌, ◌^◌, ◌-◌, ◌≤◌, IfOk, IfSome, length, ℕ, option_map, slice_get, Some, suc};
ghost use Rattle.cocoon_num.specs.PacketForms.{FieldsFit};
ghost use Rattle.cocoon_num.specs.Tree as tree;
ghost use Rattle.cocoon_resolve.specs.Readers.{field_widths, HasRole};
ghost use Rattle.cocoon_syntax.specs.TreeOf.{design_of};
ghost use Rattle.cocoon_types.specs.Tables.{Defs as Definitions};
ghost use Rattle.refinement.specs.Segments.{is_new, IsRefined};
ghost use Rattle.role_meaning.specs.Located.{loc_of, role_name, sent_of};
ghost use Rattle.runtime_defs.specs.Fitting.{FitsDesign};
ghost use Rattle.runtime_defs.specs.Stands.{Stands};
ghost use Rattle.role_meaning.specs.Follows.{Follows};
ghost use Rattle.role_meaning.specs.Onward as spec;
ghost use Rattle.role_meaning.specs.declared.following.Reached.{Reached as AsReached};

use crate::leading::lead;
use crate::place::{Led, Loc, Packet};
use cocoon_num::NoMemory;
use cocoon_resolve::Checked;
use cocoon_types::runs::runs_are_taken;
use declarations::RoleId;
use refinement::laws::levels_keep_roles;
use runtime_defs::Defs;
use std::alloc::Global;

/// Where a segment ends.
#[derive(Drop)]
pub struct Followed {
    /// How many bodies ran.
    pub bodies: u32,
    pub to: Loc,
    pub sent: Packet,
    /// Whether it ends at a new role of the block. Then as many bodies ran as the block allows.
    pub is_new: bool,
}

/// How many bodies ran, and where they led.
#[derive(Drop)]
pub(crate) struct Reached<'c> {
    pub(crate) bodies: u32,
    pub(crate) led: Led<'c>,
}

/// Whether a role of the level behind `above` is new there.
fn is_new_role(checked: &Checked, above: u32, role: RoleId) -> bool
    requires { HasRole (design_of checked.now) role (above + 1) }
    ensures { result
        ≡ is_new above (design_of checked.now) (role_name (design_of checked.now) role) }
{
    checked
        .names()
        .role(checked.design(), role, above)
        .is_none()
}

/// Runs bodies of new roles, at most so many more.
fn go_on<'c>(
    alloc: Global,
    checked: &Checked,
    defs: &Defs,
    above: u32,
    most: u32,
    first: Led<'c>,
) -> Result<Option<Reached<'c>>, NoMemory>
    requires defs { FitsDesign (design_of checked.now) defs.now }
    requires level { above + 1 < 2 ^ 32 }
    requires role { HasRole (design_of checked.now) first.to.role (above + 1) }
    requires fits { FieldsFit (field_widths (design_of checked.now)) first.packet.fields }
    ensures runs { IfOk result (λ reached. (defined : Definitions)
        → Stands (design_of checked.now) defs.now defined
        → option_map (spec.stop_of (design_of checked.now)) reached
        ≡ spec.onward above (design_of checked.now) defined (most - 1) 1
        (loc_of (design_of checked.now) first.entry.to)
        (sent_of (design_of checked.now) first.entry.packet) first.entry.rest.now) }
    ensures at { IfOk result (λ reached. IfSome reached (λ r.
        HasRole (design_of checked.now) r.led.to.role (above + 1))) }
    ensures fits { IfOk result (λ reached. IfSome reached (λ r.
        FieldsFit (field_widths (design_of checked.now)) r.led.packet.fields)) }
{
    let mut bodies = 1;
    let mut led = first;
    while bodies < most && is_new_role(checked, above, led.to.role) {
        match lead(
            alloc,
            checked,
            defs,
            above + 1,
            &led.to,
            &led.packet,
            led.rest,
        )? {
            Some(next) => led = next,
            None => return Ok(None),
        }
        bodies += 1;
    }
    Ok(Some(Reached { bodies, led }))
}

/// Runs the body of the first role, and then those of new roles, at most so many in all.
fn run_chain<'c>(
    alloc: Global,
    checked: &Checked,
    defs: &Defs,
    above: u32,
    most: u32,
    from: &Loc,
    packet: &Packet,
    choices: &'c [u64],
) -> Result<Option<Reached<'c>>, NoMemory>
    requires defs { FitsDesign (design_of checked.now) defs.now }
    requires level { above + 1 < 2 ^ 32 }
    requires role { HasRole (design_of checked.now) from.now.role (above + 1) }
    requires fits { FieldsFit (field_widths (design_of checked.now)) packet.now.fields }
    ensures runs { IfOk result (λ reached. (defined : Definitions)
        → Stands (design_of checked.now) defs.now defined
        → option_map (spec.stop_of (design_of checked.now)) reached
        ≡ spec.chain above (design_of checked.now) defined most
        (loc_of (design_of checked.now) from.now) (sent_of (design_of checked.now) packet.now)
        choices.now) }
    ensures at { IfOk result (λ reached. IfSome reached (λ r.
        HasRole (design_of checked.now) r.led.to.role (above + 1))) }
    ensures fits { IfOk result (λ reached. IfSome reached (λ r.
        FieldsFit (field_widths (design_of checked.now)) r.led.packet.fields)) }
{
    match lead(alloc, checked, defs, above + 1, from, packet, choices)? {
        Some(first) => go_on(alloc, checked, defs, above, most, first),
        None => Ok(None),
    }
}

/// The end of a segment, if no choice is left.
fn end_of(checked: &Checked, above: u32, reached: Option<Reached<'_>>) -> Option<Followed>
    requires { IfSome reached (λ r. HasRole (design_of checked.now) r.led.to.role (above + 1)) }
    ensures leads { (d : tree.Design) → option_map (spec.end_of d) result
        ≡ spec.if_whole (option_map (spec.stop_of d) reached.entry) }
    ensures new { IfSome result (λ f. f.is_new
        ≡ is_new above (design_of checked.now) (role_name (design_of checked.now) f.to.role)) }
    ensures same { IfSome result (λ f. (r : AsReached) × (reached.entry ≡ Some r)
        × (r.led.to ≡ f.to) × (r.led.packet ≡ f.sent)) }
{
    let Reached { bodies, led } = reached?;
    if !led.rest.is_empty() {
        return None;
    }
    let is_new = is_new_role(checked, above, led.to.role);
    Some(Followed {
        bodies,
        to: led.to,
        sent: led.packet,
        is_new,
    })
}

/// How many bodies the block behind a level allows.
fn most_bodies(checked: &Checked, above: u32) -> u32
    requires { above < length (design_of checked.now).refines }
    ensures { (block : tree.Refine)
        → slice_get (design_of checked.now).refines above ≡ Some block → result ≡ block.within }
{
    checked.design().refines[above as usize].within
}

/// Which segment these choices make, all of them, in the order in which they are made: a body of a
/// role that the block behind the level `above` refines, and the bodies of new roles that it leads
/// through, until it has left them or has as many bodies as the block allows. `None` where they make
/// none: where a body leads nowhere, or a choice is missing or left over. The meaning is that of
/// docs/LANGUAGE.md, "Refinement".
///
/// The time is that of the bodies' runs.
pub fn follow(
    alloc: Global,
    checked: &Checked,
    defs: &Defs,
    above: u32,
    from: &Loc,
    packet: &Packet,
    choices: &[u64],
) -> Result<Option<Followed>, NoMemory>
    requires defs { FitsDesign (design_of checked.now) defs.now }
    requires level { above < length (design_of checked.now).refines }
    requires role { HasRole (design_of checked.now) from.now.role (above + 1) }
    requires refined { (block : tree.Refine)
        → slice_get (design_of checked.now).refines above ≡ Some block
        → IsRefined block (loc_of (design_of checked.now) from.now) }
    requires fits { FieldsFit (field_widths (design_of checked.now)) packet.now.fields }
    ensures follows { IfOk result (λ led. (block : tree.Refine)
        → slice_get (design_of checked.now).refines above ≡ Some block
        → (defined : Definitions) → Stands (design_of checked.now) defs.now defined
        → Follows above (design_of checked.now) block defined from.now packet.now choices.now led) }
    ensures at { IfOk result (λ led. IfSome led (λ f.
        HasRole (design_of checked.now) f.to.role (above + 1))) }
    ensures fits { IfOk result (λ led. IfSome led (λ f.
        FieldsFit (field_widths (design_of checked.now)) f.sent.fields)) }
{
    runs_are_taken();
    levels_keep_roles();
    checked.levels();
    checked.design();
    let most = most_bodies(checked, above);
    let reached = run_chain(alloc, checked, defs, above, most, from, packet, choices)?;
    Ok(end_of(checked, above, reached))
}
