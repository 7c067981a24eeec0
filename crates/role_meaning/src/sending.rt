//! Whether some choices give a send that is wanted.
ghost use Rattle.std.specs.Prelude.{◌≡◌, ◌↔◌, All, Bool, false, IfOk, IsTrue, List, map, ℕ, Some, true, Vec as Vector};
ghost use Rattle.std.specs.declared.alloc.Global.{Global as Alloc};
ghost use Rattle.cocoon_num.specs.PacketForms.{FieldsFit};
ghost use Rattle.cocoon_num.specs.Tree.{Block, Role};
ghost use Rattle.cocoon_resolve.specs.Readers.{field_widths, HasRole, ReadsBack};
ghost use Rattle.cocoon_syntax.specs.TreeOf.{block_of, design_of, stmt_of};
ghost use Rattle.cocoon_types.specs.Design.{role_at};
ghost use Rattle.cocoon_types.specs.Runs.{world};
ghost use Rattle.cocoon_types.specs.Tables.{Defs as Definitions};
ghost use Rattle.cocoon_types.specs.Taken as taken;
ghost use Rattle.declarations.specs.Declares.{role_number};
ghost use Rattle.role_meaning.specs.Goings.{all_taken, went_of};
ghost use Rattle.role_meaning.specs.Located.{loc_of, sent_of};
ghost use Rattle.role_meaning.specs.Views.{Keeps, some_tried};
ghost use Rattle.role_values.specs.Worlds.{world_by};
ghost use Rattle.runtime_defs.specs.Fitting.{FitsDesign};
ghost use Rattle.runtime_defs.specs.Stands.{Stands};
ghost use Rattle.refinement.specs.Sending.{CanSend};
ghost use Rattle.refinement.specs.Trails.{finds_in, first_marks};

use crate::leading::go;
use crate::paths::follow_block;
use crate::place::{Loc, Packet};
use crate::trail::first_trail;
use crate::tries::Wanted;
use cocoon_num::NoMemory;
use cocoon_resolve::Checked;
use cocoon_syntax::Stmt;
use cocoon_types::runs::runs_are_taken;
use declarations::RoleId;
use refinement::sending_laws::tried_choices_send;
use runtime_defs::Defs;
use sound_types::laws::{code_literals_fit, runs_by_tables};
use std::alloc::Global;

/// The choices that are tried where a body sends.
#[tactic(auto, using(crate::proofs::Kept::forked))]
fn tried_in(
    alloc: Global,
    checked: &Checked,
    body: &[Stmt],
    wanted: &Wanted<'_>,
) -> Result<Vec<Vec<u64>>, NoMemory>
    ensures { IfOk result (λ found. (passes : List ℕ → Bool) → Keeps
        (finds_in wanted.now.to.now wanted.now.sent.now (block_of (map stmt_of body.now))
        (λ m. false) passes (first_marks (design_of checked.now).headers))
        (some_tried passes found.items)) }
{
    let mut found = Vec::new(alloc);
    let start = first_trail(alloc, &checked.design().headers)?;
    follow_block(alloc, wanted, body, start, &mut found)?;
    Ok(found)
}

/// The choices that are tried where the body of a role sends.
fn choices_to_try(
    alloc: Global,
    checked: &Checked,
    level: u32,
    role: RoleId,
    wanted: &Wanted<'_>,
) -> Result<Vec<Vec<u64>>, NoMemory>
    requires { HasRole (design_of checked.now) role level }
    ensures { IfOk result (λ found. (name : List ℕ) (r : Role) (body : Block)
        → role_number (design_of checked.now) name ≡ Some role
        → role_at level (design_of checked.now) name ≡ Some r → r.body ≡ Some body
        → (passes : List ℕ → Bool) → Keeps
        (finds_in wanted.now.to.now wanted.now.sent.now body (λ m. false) passes
        (first_marks (design_of checked.now).headers))
        (some_tried passes found.items)) }
{
    match &checked.role(role, level).body {
        Some(body) => tried_in(alloc, checked, body, wanted),
        None => Ok(Vec::new(alloc)),
    }
}

/// Whether a run led to this location with this packet.
fn is_at(led: &Option<(Loc, Packet)>, to: &Loc, sent: &Packet) -> bool
    ensures { IsTrue result ↔ led.now ≡ Some (to.now, sent.now) }
{
    match led {
        Some((at, packet)) => {
            at.role == to.role
                && at.values.items() == to.values.items()
                && packet.fields.items() == sent.fields.items()
        }
        None => false,
    }
}

/// Whether the body's run with these choices gives the send.
fn gives(
    alloc: Global,
    checked: &Checked,
    defs: &Defs,
    level: u32,
    from: &Loc,
    packet: &Packet,
    to: &Loc,
    sent: &Packet,
    choices: &[u64],
) -> Result<bool, NoMemory>
    requires defs { FitsDesign (design_of checked.now) defs.now }
    requires role { HasRole (design_of checked.now) from.now.role level }
    requires fits { FieldsFit (field_widths (design_of checked.now)) packet.now.fields }
    requires to { HasRole (design_of checked.now) to.now.role level }
    requires sent { FieldsFit (field_widths (design_of checked.now)) sent.now.fields }
    ensures yes { IfOk result (λ gives. gives ≡ true → (defined : Definitions)
        → Stands (design_of checked.now) defs.now defined
        → CanSend (world level (design_of checked.now) defined)
        (loc_of (design_of checked.now) from.now) (sent_of (design_of checked.now) packet.now)
        (loc_of (design_of checked.now) to.now) (sent_of (design_of checked.now) sent.now)) }
    ensures no { IfOk result (λ gives. gives ≡ false →
        Some (loc_of (design_of checked.now) to.now, sent_of (design_of checked.now) sent.now)
        ≡ all_taken (taken.go (world_by defs.now level (design_of checked.now))
        (loc_of (design_of checked.now) from.now) (sent_of (design_of checked.now) packet.now)
        choices.now) → ⊥) }
{
    let led = go(alloc, checked, defs, level, from, packet, choices)?;
    Ok(is_at(&led, to, sent))
}

/// Whether the body's run with one of these lists of choices gives the send.
fn one_gives(
    alloc: Global,
    checked: &Checked,
    defs: &Defs,
    level: u32,
    from: &Loc,
    packet: &Packet,
    to: &Loc,
    sent: &Packet,
    tried: &[Vec<u64>],
) -> Result<bool, NoMemory>
    requires defs { FitsDesign (design_of checked.now) defs.now }
    requires role { HasRole (design_of checked.now) from.now.role level }
    requires fits { FieldsFit (field_widths (design_of checked.now)) packet.now.fields }
    requires to { HasRole (design_of checked.now) to.now.role level }
    requires sent { FieldsFit (field_widths (design_of checked.now)) sent.now.fields }
    ensures yes { IfOk result (λ gives. gives ≡ true → (defined : Definitions)
        → Stands (design_of checked.now) defs.now defined
        → CanSend (world level (design_of checked.now) defined)
        (loc_of (design_of checked.now) from.now) (sent_of (design_of checked.now) packet.now)
        (loc_of (design_of checked.now) to.now) (sent_of (design_of checked.now) sent.now)) }
    ensures no { IfOk result (λ gives. gives ≡ false → All (λ (v : Vector ℕ Alloc).
        Some (loc_of (design_of checked.now) to.now, sent_of (design_of checked.now) sent.now)
        ≡ all_taken (taken.go (world_by defs.now level (design_of checked.now))
        (loc_of (design_of checked.now) from.now) (sent_of (design_of checked.now) packet.now)
        v.items) → ⊥) tried.now) }
{
    for choices in tried {
        if gives(alloc, checked, defs, level, from, packet, to, sent, choices)? {
            return Ok(true);
        }
    }
    Ok(false)
}

/// Whether the body of a role can send this packet to this location: whether some choices give that.
/// The body reads back, as that of each role does that a block refines.
///
/// Each path of the body costs a walk along it, and one run with the choices that it wants. The trails
/// of all paths are held at a time.
pub fn can_send(
    alloc: Global,
    checked: &Checked,
    defs: &Defs,
    level: u32,
    from: &Loc,
    packet: &Packet,
    to: &Loc,
    sent: &Packet,
) -> Result<bool, NoMemory>
    requires defs { FitsDesign (design_of checked.now) defs.now }
    requires role { HasRole (design_of checked.now) from.now.role level }
    requires back { ReadsBack (design_of checked.now) from.now.role level true }
    requires fits { FieldsFit (field_widths (design_of checked.now)) packet.now.fields }
    requires to { HasRole (design_of checked.now) to.now.role level }
    requires sent { FieldsFit (field_widths (design_of checked.now)) sent.now.fields }
    ensures { IfOk result (λ can. (defined : Definitions)
        → Stands (design_of checked.now) defs.now defined
        → (IsTrue can ↔ CanSend (world level (design_of checked.now) defined)
        (loc_of (design_of checked.now) from.now) (sent_of (design_of checked.now) packet.now)
        (loc_of (design_of checked.now) to.now) (sent_of (design_of checked.now) sent.now))) }
{
    runs_are_taken();
    runs_by_tables();
    code_literals_fit();
    tried_choices_send();
    checked.design();
    checked.know_reading();
    let wanted = Wanted {
        to: to.values.items(),
        sent: sent.fields.items(),
    };
    let tried = choices_to_try(alloc, checked, level, from.role, &wanted)?;
    one_gives(alloc, checked, defs, level, from, packet, to, sent, &tried)
}
