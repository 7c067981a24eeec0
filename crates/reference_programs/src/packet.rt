//! Packets from bytes and back, bit by bit.
ghost use Rattle.std.specs.Prelude.{◌≡◌, IfOk, IfSome, IsTrue, length, option_map};
ghost use Rattle.cocoon_num.specs.Packets as spec;
ghost use Rattle.cocoon_num.specs.Packets.{header_bytes, header_fields};
ghost use Rattle.cocoon_num.specs.PacketForms.{FieldsFit, PacketFits};
ghost use Rattle.reference_programs.specs.Seen.{entered_of};
ghost use Rattle.reference_programs.specs.Widths.{is_header, is_layout};

use crate::bits::{bits_of_bytes, bits_of_fields, bytes_of_bits, fields_of_bits};
use crate::layouts::total;
use cocoon_num::{List, NoMemory};
use std::alloc::Global;

/// The numbers of the fields, header by header.
pub type Packet = List<List<u64>>;

/// What enters from bytes: a packet, and the bytes behind its headers.
#[derive(Drop)]
pub struct Entered {
    pub packet: Packet,
    pub payload: Vec<u8>,
}

/// The fields of a header, of its bytes.
fn header_fields(alloc: Global, widths: &[u8], bytes: &[u8]) -> Result<List<u64>, NoMemory>
    requires header { IsTrue (is_header widths.now) }
    requires long { spec.byte_count widths.now ≡ length bytes.now }
    ensures { IfOk result (λ fields. fields ≡ header_fields widths.now bytes.now) }
{
    let bits = bits_of_bytes(alloc, bytes)?;
    let fields = fields_of_bits(alloc, widths, &bits)?;
    Ok(List::from(fields))
}

/// The bytes of a header, of its fields.
fn header_bytes(alloc: Global, widths: &[u8], fields: &[u64]) -> Result<Vec<u8>, NoMemory>
    requires header { IsTrue (is_header widths.now) }
    requires fit { FieldsFit widths.now fields.now }
    ensures { IfOk result (λ bytes. bytes.items ≡ header_bytes widths.now fields.now) }
{
    let bits = bits_of_fields(alloc, widths, fields)?;
    let count = bits.len() / 8;
    bytes_of_bits(alloc, &bits, count)
}

/// The packet of these headers that the bytes begin with, and the bytes behind it. `None` where the bytes are shorter
/// than the headers. The layout has a list of widths for each header, as `is_layout` tests it.
pub fn enter(alloc: Global, layout: &[List<u8>], bytes: &[u8]) -> Result<Option<Entered>, NoMemory>
    requires { IsTrue (is_layout layout.now) }
    ensures enters { IfOk result (λ entered.
        option_map entered_of entered ≡ spec.enter layout.now bytes.now) }
    ensures fits { IfOk result (λ entered. IfSome entered (λ e. PacketFits layout.now e.packet)) }
{
    let mut packet = Vec::new(alloc);
    let mut rest = bytes;
    for widths in layout {
        let count = total(widths.items()) / 8;
        if (rest.len() as u128) < count {
            return Ok(None);
        }
        let (header, behind) = rest.split_at(count as usize);
        packet.push(header_fields(alloc, widths.items(), header)?)?;
        rest = behind;
    }
    let payload = rest.to_vec(alloc)?;
    Ok(Some(Entered {
        packet: List::from(packet),
        payload,
    }))
}

/// The bytes of a packet of these headers, and then the payload. The layout is as `is_layout` tests it.
pub fn leave(
    alloc: Global,
    layout: &[List<u8>],
    packet: &Packet,
    payload: &[u8],
) -> Result<Vec<u8>, NoMemory>
    requires layout { IsTrue (is_layout layout.now) }
    requires fits { PacketFits layout.now packet.now }
    ensures { IfOk result (λ bytes. bytes.items ≡ spec.leave layout.now packet.now payload.now) }
{
    let mut bytes = Vec::new(alloc);
    let headers = packet.items();
    for (index, widths) in layout.iter().enumerate() {
        let header = header_bytes(alloc, widths.items(), headers[index].items())?;
        bytes.extend_from_slice(&header)?;
    }
    bytes.extend_from_slice(payload)?;
    Ok(bytes)
}
