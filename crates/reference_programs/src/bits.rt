//! Numbers as bits, and bits as numbers, the most significant bit first.
ghost use Rattle.std.specs.Prelude.{◌≡◌, ◌+◌, ◌*◌, ◌<◌, ◌≤◌, ◌++◌, ◌^◌, IfOk, IsTrue, OnOk, length};
ghost use Rattle.cocoon_num.specs.Lists.{each};
ghost use Rattle.cocoon_num.specs.Packets.{cut, eights, packed, total};
ghost use Rattle.cocoon_num.specs.PacketForms.{FieldsFit};
ghost use Rattle.cocoon_num.specs.Sorts.{is_declared_width};
ghost use Rattle.reference_programs.specs.Widths.{bits_of, ones};

use cocoon_num::NoMemory;
use std::alloc::Global;

/// Puts the last `width` bits of a number behind the others.
fn push_bits(bits: &mut Vec<u8>, width: u8, number: u64) -> Result<(), NoMemory>
    requires { width ≤ 64 }
    ensures { OnOk result (bits.new.items ≡ bits.old.items ++ cut (ones width) number) }
{
    for done in 0..width {
        let shift = width - 1 - done;
        bits.push(((number >> shift) % 2) as u8)?;
    }
    Ok(())
}

/// The bits of bytes.
pub fn bits_of_bytes(alloc: Global, bytes: &[u8]) -> Result<Vec<u8>, NoMemory>
    ensures bits { IfOk result (λ v. v.items ≡ bits_of (eights (length bytes.now)) bytes.now) }
{
    let mut bits = Vec::new(alloc);
    for byte in bytes {
        push_bits(&mut bits, 8, u64::from(*byte))?;
    }
    Ok(bits)
}

/// The bits of fields of these widths.
pub fn bits_of_fields(alloc: Global, widths: &[u8], fields: &[u64]) -> Result<Vec<u8>, NoMemory>
    requires narrow { IsTrue (each is_declared_width widths.now) }
    requires fit { FieldsFit widths.now fields.now }
    ensures { IfOk result (λ v. v.items ≡ bits_of widths.now fields.now) }
{
    let mut bits = Vec::new(alloc);
    for (index, width) in widths.iter().enumerate() {
        push_bits(&mut bits, *width, fields[index])?;
    }
    Ok(bits)
}

/// The number that at most 64 bits make.
fn number(bits: &[u8]) -> u64
    requires few { length bits.now ≤ 64 }
    requires fit { FieldsFit (ones (length bits.now)) bits.now }
    ensures number { result ≡ packed (ones (length bits.now)) bits.now }
    ensures fits { result < 2 ^ length bits.now }
{
    let mut number = 0;
    for bit in bits {
        number = number * 2 + u64::from(*bit);
    }
    number
}

/// The fields of these widths that bits make, which are as many as the widths say.
pub fn fields_of_bits(alloc: Global, widths: &[u8], bits: &[u8]) -> Result<Vec<u64>, NoMemory>
    requires narrow { IsTrue (each is_declared_width widths.now) }
    requires long { total widths.now ≡ length bits.now }
    requires fit { FieldsFit (ones (length bits.now)) bits.now }
    ensures { IfOk result (λ v.
        v.items ≡ cut widths.now (packed (ones (length bits.now)) bits.now)) }
{
    let mut fields = Vec::new(alloc);
    let mut rest = bits;
    for width in widths {
        let (prefix, back) = rest.split_at(usize::from(*width));
        fields.push(number(prefix))?;
        rest = back;
    }
    Ok(fields)
}

/// The bytes that bits make.
pub fn bytes_of_bits(alloc: Global, bits: &[u8], count: usize) -> Result<Vec<u8>, NoMemory>
    requires long { 8 * count ≡ length bits.now }
    requires fit { FieldsFit (ones (length bits.now)) bits.now }
    ensures { IfOk result (λ v.
        v.items ≡ cut (eights count) (packed (ones (length bits.now)) bits.now)) }
{
    let mut bytes = Vec::new(alloc);
    let mut rest = bits;
    for _done in 0..count {
        let (prefix, back) = rest.split_at(8);
        bytes.push(number(prefix) as u8)?;
        rest = back;
    }
    Ok(bytes)
}
