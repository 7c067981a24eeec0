//! Which segment some choices make.
ghost use Rattle.std.specs.Prelude.{◌≡◌, ◌+◌, ◌<◌, ◌^◌, IfSome, length, map, slice_get, Some, true};
ghost use Rattle.cocoon_num.specs.Names.{same_name};
ghost use Rattle.cocoon_num.specs.PacketForms.{FieldsFit};
ghost use Rattle.cocoon_num.specs.Tree as tree;
ghost use Rattle.cocoon_resolve.specs.Readers.{field_widths, HasRole};
ghost use Rattle.cocoon_syntax.specs.TreeOf.{design_of, name_of};
ghost use Rattle.cocoon_types.specs.RuleParts.{has_name};
ghost use Rattle.refinement.specs.Segments.{IsRefined};
ghost use Rattle.role_meaning.specs.Located.{loc_of, role_name};
ghost use Rattle.runtime_defs.specs.Fitting.{FitsDesign};

use crate::places::{listed, location, packet, put_place};
use case_files::Printer;
use cocoon_num::NoMemory;
use cocoon_resolve::Checked;
use cocoon_syntax::Name;
use declarations::RoleId;
use role_meaning::{Followed, Loc, Packet, follow};
use runtime_defs::Defs;
use std::alloc::Global;

/// Whether a name is that of the role of this number.
fn is_role(checked: &Checked, name: &Name, role: RoleId) -> bool
    ensures { result ≡ true
        → same_name (role_name (design_of checked.now) role) name.now.text ≡ true }
{
    match checked.role_of(name.text.bytes()) {
        Some(found) => found == role,
        None => false,
    }
}

/// Whether one of these names is that of the role.
#[tactic(auto, using(crate::proofs::Found::has_at))]
fn is_listed(checked: &Checked, names: &[Name], role: RoleId) -> bool
    ensures { result ≡ true
        → has_name (role_name (design_of checked.now) role) (map name_of names.now) ≡ true }
{
    for name in names {
        if is_role(checked, name, role) {
            return true;
        }
    }
    false
}

/// From where, with which packet and choices.
#[derive(Drop)]
struct Begin {
    from: Loc,
    packet: Packet,
    choices: Vec<u64>,
}

/// A begin as `Out 1 : 2 3 : 7 4`, or `-` for no choices.
fn begin_of(alloc: Global, checked: &Checked, level: u32, text: &str) -> Option<Begin>
    ensures from { IfSome result (λ b. HasRole (design_of checked.now) b.from.role level) }
    ensures packet { IfSome result (λ b.
        FieldsFit (field_widths (design_of checked.now)) b.packet.fields) }
{
    let (from, rest) = text.split_once(" : ")?;
    let (fields, choices) = rest.split_once(" : ")?;
    Some(Begin {
        from: location(alloc, checked, level, from)?,
        packet: packet(alloc, checked, fields)?,
        choices: listed(alloc, choices)?,
    })
}

/// Puts how many bodies ran and where they led, as `3 old In 1 : 2 3`.
fn put_end(checked: &Checked, level: u32, end: &Followed, given: &mut Printer)
    requires { HasRole (design_of checked.now) end.now.to.role level }
{
    given.put_number(u64::from(end.bodies));
    given.put(if end.is_new { " new " } else { " old " });
    put_place(checked, level, &end.to, &end.sent, given);
}

/// Puts the segment that the choices make, or `none`.
fn put_followed(
    alloc: Global,
    checked: &Checked,
    defs: &Defs,
    above: u32,
    begin: &Begin,
    given: &mut Printer,
)
    requires defs { FitsDesign (design_of checked.now) defs.now }
    requires level { above < length (design_of checked.now).refines }
    requires number { above + 1 < 2 ^ 32 }
    requires role { HasRole (design_of checked.now) begin.now.from.role (above + 1) }
    requires refined { (block : tree.Refine)
        → slice_get (design_of checked.now).refines above ≡ Some block
        → IsRefined block (loc_of (design_of checked.now) begin.now.from) }
    requires packet { FieldsFit (field_widths (design_of checked.now)) begin.now.packet.fields }
{
    match follow(
        alloc,
        checked,
        defs,
        above,
        &begin.from,
        &begin.packet,
        &begin.choices,
    ) {
        Ok(Some(end)) => put_end(checked, above + 1, &end, given),
        Ok(None) => given.put("none"),
        Err(NoMemory) => given.lose(),
    }
}

/// Puts the same of a location, if the block behind the level refines its role.
fn put_refined(
    alloc: Global,
    checked: &Checked,
    defs: &Defs,
    above: u32,
    asked: &str,
    given: &mut Printer,
)
    requires defs { FitsDesign (design_of checked.now) defs.now }
    requires level { above < length (design_of checked.now).refines }
    requires number { above + 1 < 2 ^ 32 }
{
    let roles = &checked.design().refines[above as usize].roles;
    match begin_of(alloc, checked, above + 1, asked) {
        Some(begin) if is_listed(checked, roles, begin.from.role) => {
            put_followed(alloc, checked, defs, above, &begin, given);
        }
        _ => given.put("no such segment"),
    }
}

/// Puts which segment some choices make, behind the level `above`.
pub fn put_segment(
    alloc: Global,
    checked: &Checked,
    defs: &Defs,
    above: u32,
    asked: &str,
    given: &mut Printer,
)
    requires { FitsDesign (design_of checked.now) defs.now }
{
    if above < checked.levels() - 1 {
        put_refined(alloc, checked, defs, above, asked, given);
    } else {
        given.put("no such segment");
    }
}
