//! Packets from bytes and back.
ghost use Rattle.std.specs.Prelude.{◌≡◌, All, IfOk, IfSome, option_map};
ghost use Rattle.cocoon_num.specs.Packets as packets;
ghost use Rattle.cocoon_num.specs.PacketForms.{FieldsFit};
ghost use Rattle.cocoon_resolve.specs.Readers.{field_widths};
ghost use Rattle.cocoon_syntax.specs.TreeOf.{design_of};
ghost use Rattle.cocoon_types.specs.Design.{layout};
ghost use Rattle.role_meaning.specs.Located.{entered_from, sent_of};

use crate::place::Packet;
use cocoon_num::{List, NoMemory};
use cocoon_resolve::Checked;
use packed_fields::at_once::{enters_at_once, leaves_at_once};
use packed_fields::{cut_fields, join_fields};
use role_values::laws::{fields_are_declared, headers_are_whole};
use std::alloc::Global;

/// The packet that enters from some bytes; `None` where they are shorter than the headers. The
/// payload is what follows the header bytes. The meaning is that of docs/LANGUAGE.md, "Packets".
pub fn enter(alloc: Global, checked: &Checked, bytes: &[u8]) -> Result<Option<Packet>, NoMemory>
    ensures enters { IfOk result (λ packet.
        option_map (entered_from (design_of checked.now) bytes.now) packet
        ≡ packets.enter (layout (design_of checked.now)) bytes.now) }
    ensures fits { IfOk result (λ packet. IfSome packet (λ p.
        FieldsFit (field_widths (design_of checked.now)) p.fields)) }
{
    enters_at_once();
    fields_are_declared();
    headers_are_whole();
    checked.design();
    let count = checked.header_bytes() as usize;
    if bytes.len() < count {
        return Ok(None);
    }
    let (headers, _) = bytes.split_at(count);
    let fields = cut_fields(alloc, checked.field_widths(), headers)?;
    Ok(Some(Packet {
        fields: List::from(fields),
    }))
}

/// The bytes of a packet, and then the payload. The meaning is that of docs/LANGUAGE.md, "Packets".
pub fn leave(
    alloc: Global,
    checked: &Checked,
    packet: &Packet,
    payload: &[u8],
) -> Result<Vec<u8>, NoMemory>
    requires { FieldsFit (field_widths (design_of checked.now)) packet.now.fields }
    ensures { IfOk result (λ bytes. bytes.items ≡ packets.leave (layout (design_of checked.now))
        (sent_of (design_of checked.now) packet.now) payload.now) }
{
    leaves_at_once();
    fields_are_declared();
    headers_are_whole();
    checked.design();
    let mut bytes = join_fields(alloc, checked.field_widths(), packet.fields.items())?;
    bytes.extend_from_slice(payload)?;
    Ok(bytes)
}
