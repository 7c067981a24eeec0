//! Fields of bytes.
ghost use Rattle.std.specs.Prelude.{◌≡◌, ◌∷◌, ◌+◌, ◌*◌, ◌<◌, ◌≤◌, ◌^◌, IfOk, IsTrue, length};
ghost use Rattle.cocoon_num.specs.Lists.{each};
ghost use Rattle.cocoon_num.specs.PacketForms.{FieldsFit};
ghost use Rattle.cocoon_num.specs.Packets.{header_fields, total};
ghost use Rattle.cocoon_num.specs.Sorts.{is_declared_width};
ghost use Rattle.packed_fields.specs.Bits.{bits_left, IsReading, number_left};

use cocoon_num::NoMemory;
use std::alloc::Global;

/// The bits that are left to read: the last `count` bits of `pending`, and then the bytes.
#[derive(Drop)]
struct Reader<'b> {
    bytes: &'b [u8],
    pending: u128,
    count: u32,
}

/// The first byte, and the others.
fn first_byte<'b>(bytes: &'b [u8]) -> (u8, &'b [u8])
    requires { 0 < length bytes.now }
    ensures { bytes.entry.now ≡ result.0 ∷ result.1.now }
{
    (bytes[0], &bytes[1..])
}

impl Reader<'_> {
    /// Reads bytes until so many bits are pending.
    fn fill(&mut self, width: u32)
        requires reading { IsReading self.old }
        requires short { self.old.count < 8 }
        requires narrow { width ≤ 64 }
        requires within { width ≤ bits_left self.old }
        ensures reading { IsReading self.new }
        ensures enough { width ≤ self.new.count }
        ensures short { self.new.count < width + 8 }
        ensures bits { bits_left self.new ≡ bits_left self.old }
        ensures number { number_left self.new ≡ number_left self.old }
    {
        while self.count < width {
            let (byte, rest) = first_byte(self.bytes);
            self.pending = self.pending * 256 + u128::from(byte);
            self.count += 8;
            self.bytes = rest;
        }
    }

    /// The number of the next bits, so many.
    fn read(&mut self, width: u32) -> u64
        requires reading { IsReading self.old }
        requires short { self.old.count < 8 }
        requires narrow { width ≤ 64 }
        requires within { width ≤ bits_left self.old }
        ensures reading { IsReading self.new }
        ensures short { self.new.count < 8 }
        ensures fits { result < 2 ^ width }
        ensures bits { bits_left self.old ≡ width + bits_left self.new }
        ensures number { number_left self.old
            ≡ result * 2 ^ bits_left self.new + number_left self.new }
    {
        self.fill(width);
        let behind = self.count - width;
        let field = self.pending >> behind;
        self.pending %= 1 << behind;
        self.count = behind;
        field as u64
    }
}

/// Sets the fields to those of these widths in bits that some bytes hold, which are as many as the widths say. It
/// takes no memory.
pub fn cut_into(fields: &mut [u64], widths: &[u8], bytes: &[u8])
    requires declared { IsTrue (each is_declared_width widths.now) }
    requires long { total widths.now ≡ 8 * length bytes.now }
    requires many { length fields.old ≡ length widths.now }
    ensures fields { fields.new ≡ header_fields widths.now bytes.now }
    ensures fits { FieldsFit widths.now fields.new }
{
    let mut reader = Reader {
        bytes,
        pending: 0,
        count: 0,
    };
    for (index, width) in widths.iter().enumerate() {
        fields[index] = reader.read(u32::from(*width));
    }
}

/// The fields of these widths in bits that some bytes hold, which are as many as the widths say.
pub fn cut_fields(alloc: Global, widths: &[u8], bytes: &[u8]) -> Result<Vec<u64>, NoMemory>
    requires declared { IsTrue (each is_declared_width widths.now) }
    requires long { total widths.now ≡ 8 * length bytes.now }
    ensures fields { IfOk result (λ fields. fields.items ≡ header_fields widths.now bytes.now) }
    ensures fits { IfOk result (λ fields. FieldsFit widths.now fields.items) }
{
    let mut fields = vec![in alloc; 0; widths.len()]?;
    cut_into(&mut fields, widths, bytes);
    Ok(fields)
}
