//! Registers of a program: made, copied, and filled from bytes.
ghost use Rattle.std.specs.Prelude.{◌≡◌, ◌*◌, IfOk, IsTrue, length, replicate};
ghost use Rattle.cocoon_num.specs.Lists.{each};
ghost use Rattle.cocoon_num.specs.PacketForms.{FieldsFit};
ghost use Rattle.cocoon_num.specs.Packets.{header_fields, total};
ghost use Rattle.cocoon_num.specs.Sorts.{is_declared_width};
ghost use Rattle.p4_run.specs.States.{fields_fit};

use crate::faults::fits_width;
use crate::registers::Registers;
use cocoon_num::NoMemory;
use packed_fields::cut_into;
use std::alloc::Global;

/// Registers of zeros, so many.
pub(crate) fn zero_registers(
    alloc: Global,
    field_count: usize,
    meta_count: usize,
) -> Result<Registers, NoMemory>
    ensures fields { IfOk result (λ r. r.fields.items ≡ replicate field_count 0) }
    ensures meta { IfOk result (λ r. r.meta.items ≡ replicate meta_count 0) }
{
    let fields = vec![in alloc; 0; field_count]?;
    let meta = vec![in alloc; 0; meta_count]?;
    Ok(Registers {
        fields,
        meta,
        verdict: 0,
        egress_port: 0,
        group: 0,
        own: 0,
    })
}

/// Sets all to those of the other, which has as many.
pub(crate) fn copy_from(registers: &mut Registers, other: &Registers)
    requires fields { length registers.old.fields.items ≡ length other.now.fields.items }
    requires meta { length registers.old.meta.items ≡ length other.now.meta.items }
    ensures fields { registers.new.fields.items ≡ other.now.fields.items }
    ensures meta { registers.new.meta.items ≡ other.now.meta.items }
    ensures verdict { registers.new.verdict ≡ other.now.verdict }
    ensures egress_port { registers.new.egress_port ≡ other.now.egress_port }
    ensures group { registers.new.group ≡ other.now.group }
{
    registers.fields.copy_from_slice(&other.fields);
    registers.meta.copy_from_slice(&other.meta);
    registers.verdict = other.verdict;
    registers.egress_port = other.egress_port;
    registers.group = other.group;
}

/// Sets the fields to those that some bytes hold, and the meta fields to zeros; nothing is decided.
pub(crate) fn fill(registers: &mut Registers, widths: &[u8], bytes: &[u8])
    requires declared { IsTrue (each is_declared_width widths.now) }
    requires long { total widths.now ≡ 8 * length bytes.now }
    requires many { length registers.old.fields.items ≡ length widths.now }
    ensures fields { registers.new.fields.items ≡ header_fields widths.now bytes.now }
    ensures fits { FieldsFit widths.now registers.new.fields.items }
    ensures meta { registers.new.meta.items ≡ replicate (length registers.old.meta.items) 0 }
    ensures verdict { registers.new.verdict ≡ 0 }
    ensures egress_port { registers.new.egress_port ≡ 0 }
    ensures group { registers.new.group ≡ 0 }
{
    cut_into(&mut registers.fields, widths, bytes);
    set_zero(&mut registers.meta);
    registers.verdict = 0;
    registers.egress_port = 0;
    registers.group = 0;
}

fn set_zero(numbers: &mut [u64])
    ensures { numbers.new ≡ replicate (length numbers.old) 0 }
{
    for number in numbers.iter_mut() {
        *number = 0;
    }
}

/// Whether each number fits its width, and there are as many.
pub(crate) fn numbers_fit(widths: &[u8], numbers: &[u64]) -> bool
    ensures { result ≡ fields_fit widths.now numbers.now }
{
    if widths.len() != numbers.len() {
        return false;
    }
    for (index, width) in widths.iter().enumerate() {
        if !fits_width(*width, numbers[index]) {
            return false;
        }
    }
    true
}
