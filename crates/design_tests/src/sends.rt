//! Whether a body can send.
ghost use Rattle.std.specs.Prelude.{◌≤◌, IfSome};
ghost use Rattle.cocoon_num.specs.PacketForms.{FieldsFit};
ghost use Rattle.cocoon_resolve.specs.Readers.{field_widths, HasRole};
ghost use Rattle.cocoon_syntax.specs.TreeOf.{design_of};
ghost use Rattle.cocoon_types.specs.Design.{last_level};
ghost use Rattle.runtime_defs.specs.Fitting.{FitsDesign};

use crate::places::{location, packet};
use case_files::Printer;
use cocoon_num::NoMemory;
use cocoon_resolve::Checked;
use role_meaning::{Loc, Packet, can_send};
use runtime_defs::Defs;
use std::alloc::Global;

/// From where with which packet, and what should be sent to where.
#[derive(Drop)]
struct Send {
    from: Loc,
    packet: Packet,
    to: Loc,
    sent: Packet,
}

/// A send as `Out 1 : 2 3 > In 1 : 2 3`.
fn send_of(alloc: Global, checked: &Checked, level: u32, text: &str) -> Option<Send>
    ensures from { IfSome result (λ s. HasRole (design_of checked.now) s.from.role level) }
    ensures packet { IfSome result (λ s.
        FieldsFit (field_widths (design_of checked.now)) s.packet.fields) }
    ensures to { IfSome result (λ s. HasRole (design_of checked.now) s.to.role level) }
    ensures sent { IfSome result (λ s.
        FieldsFit (field_widths (design_of checked.now)) s.sent.fields) }
{
    let (before, behind) = text.split_once(" > ")?;
    let (from, entering) = before.split_once(" : ")?;
    let (to, leaving) = behind.split_once(" : ")?;
    Some(Send {
        from: location(alloc, checked, level, from)?,
        packet: packet(alloc, checked, entering)?,
        to: location(alloc, checked, level, to)?,
        sent: packet(alloc, checked, leaving)?,
    })
}

/// Puts whether the body can send so.
fn put_can_send(
    alloc: Global,
    checked: &Checked,
    defs: &Defs,
    level: u32,
    send: &Send,
    given: &mut Printer,
)
    requires defs { FitsDesign (design_of checked.now) defs.now }
    requires level { level ≤ last_level (design_of checked.now) }
    requires from { HasRole (design_of checked.now) send.now.from.role level }
    requires packet { FieldsFit (field_widths (design_of checked.now)) send.now.packet.fields }
    requires to { HasRole (design_of checked.now) send.now.to.role level }
    requires sent { FieldsFit (field_widths (design_of checked.now)) send.now.sent.fields }
{
    if !checked.reads_back(send.from.role, level) {
        return given.put("hidden");
    }
    match can_send(
        alloc,
        checked,
        defs,
        level,
        &send.from,
        &send.packet,
        &send.to,
        &send.sent,
    ) {
        Ok(true) => given.put("yes"),
        Ok(false) => given.put("no"),
        Err(NoMemory) => given.lose(),
    }
}

/// Puts whether a body can send so at a level.
pub fn put_send(
    alloc: Global,
    checked: &Checked,
    defs: &Defs,
    level: u32,
    asked: &str,
    given: &mut Printer,
)
    requires { FitsDesign (design_of checked.now) defs.now }
{
    match send_of(alloc, checked, level, asked) {
        Some(send) if level < checked.levels() => {
            put_can_send(alloc, checked, defs, level, &send, given);
        }
        _ => given.put("no such send"),
    }
}
