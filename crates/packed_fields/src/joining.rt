//! Bytes of fields.
ghost use Rattle.std.specs.Prelude.{◌≡◌, ◌+◌, ◌*◌, ◌%◌, ◌<◌, ◌≤◌, ◌^◌, IfOk, IsTrue, length};
ghost use Rattle.cocoon_num.specs.Lists.{each};
ghost use Rattle.cocoon_num.specs.PacketForms.{FieldsFit};
ghost use Rattle.cocoon_num.specs.Packets.{byte_count, header_bytes, total};
ghost use Rattle.cocoon_num.specs.Sorts.{is_declared_width};
ghost use Rattle.packed_fields.specs.Bits.{bits_made, IsWriting, number_made};

use cocoon_num::NoMemory;
use std::alloc::Global;

/// The bits that are not written yet, the last `count` bits of `pending`, and where they go: behind the first `at` bytes.
#[derive(Clone, Copy, Drop)]
struct Unwritten {
    at: usize,
    pending: u128,
    count: u32,
}

/// Writes whole bytes of what is pending.
fn flush(start: Unwritten, bytes: &mut [u8]) -> Unwritten
    requires writing { IsWriting start bytes.old }
    requires few { start.count < 72 }
    requires room { bits_made start ≤ 8 * length bytes.old }
    ensures writing { IsWriting result bytes.new }
    ensures short { result.count < 8 }
    ensures bits { bits_made result ≡ bits_made start }
    ensures number { number_made result bytes.new ≡ number_made start bytes.old }
{
    let mut left = start;
    while left.count >= 8 {
        let behind = left.count - 8;
        bytes[left.at] = (left.pending >> behind) as u8;
        left = Unwritten {
            at: left.at + 1,
            pending: left.pending % (1 << behind),
            count: behind,
        };
    }
    left
}

/// Writes the last bits of a number, so many.
fn write(left: Unwritten, bytes: &mut [u8], width: u32, number: u64) -> Unwritten
    requires writing { IsWriting left bytes.old }
    requires short { left.count < 8 }
    requires narrow { width ≤ 64 }
    requires fits { number < 2 ^ width }
    requires room { bits_made left + width ≤ 8 * length bytes.old }
    ensures writing { IsWriting result bytes.new }
    ensures short { result.count < 8 }
    ensures bits { bits_made result ≡ bits_made left + width }
    ensures number { number_made result bytes.new
        ≡ number_made left bytes.old * 2 ^ width + number }
{
    let more = Unwritten {
        at: left.at,
        pending: left.pending * (1 << width) + u128::from(number),
        count: left.count + width,
    };
    flush(more, bytes)
}

/// Sets the bytes to those of fields of these widths in bits, which make as many. It takes no memory.
pub fn join_into(bytes: &mut [u8], widths: &[u8], fields: &[u64])
    requires declared { IsTrue (each is_declared_width widths.now) }
    requires whole { total widths.now % 8 ≡ 0 }
    requires fit { FieldsFit widths.now fields.now }
    requires many { length bytes.old ≡ byte_count widths.now }
    ensures bytes { bytes.new ≡ header_bytes widths.now fields.now }
{
    let mut left = Unwritten {
        at: 0,
        pending: 0,
        count: 0,
    };
    for (index, width) in widths.iter().enumerate() {
        left = write(left, bytes, u32::from(*width), fields[index]);
    }
}

/// How many whole bytes fields of these widths in bits fill.
#[tactic(auto, using(crate::proofs::Steps::bits_more))]
pub fn byte_count(widths: &[u8]) -> Result<usize, NoMemory>
    ensures { IfOk result (λ count. count ≡ byte_count widths.now) }
{
    let mut bits: usize = 0;
    for width in widths {
        match bits.checked_add(usize::from(*width)) {
            Some(more) => bits = more,
            None => return Err(NoMemory),
        }
    }
    Ok(bits / 8)
}

/// The bytes of fields of these widths in bits, which make whole bytes.
pub fn join_fields(alloc: Global, widths: &[u8], fields: &[u64]) -> Result<Vec<u8>, NoMemory>
    requires declared { IsTrue (each is_declared_width widths.now) }
    requires whole { total widths.now % 8 ≡ 0 }
    requires fit { FieldsFit widths.now fields.now }
    ensures { IfOk result (λ bytes. bytes.items ≡ header_bytes widths.now fields.now) }
{
    let count = byte_count(widths)?;
    let mut bytes = vec![in alloc; 0; count]?;
    join_into(&mut bytes, widths, fields);
    Ok(bytes)
}
