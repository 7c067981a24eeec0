//! The inputs of a goal, and their values under an assignment.
ghost use Rattle.std.specs.Prelude.{if◌then◌else◌, ◌≡◌, ◌≤◌, ◌<◌, IfOk, Some, false, length, slice_get, slice_index_or};
ghost use Rattle.bv_terms.specs.Arenas.{inputs_in};
ghost use Rattle.cnf_core.specs.Satisfying.{makes_true};
ghost use Rattle.cocoon_num.specs.BitsOf.{value_of};
ghost use Rattle.cocoon_num.specs.Values.{number};
ghost use Rattle.bit_blast.specs.Blasting.{InputRow, row_of};
ghost use Rattle.bit_blast.specs.Emitted.{numbers};
ghost use Rattle.bit_blast.specs.InputTables.{CanMap, IsInputRow, IsMapped};
ghost use Rattle.bit_blast.specs.Readings.{number_read};

use crate::bit::Bit;
use crate::input_bits::InputBits;
use crate::table::Table;
use bv_terms::{InputId, Terms};
use cnf_core::Assignment;
use cocoon_num::{Bits, NoMemory};
use std::alloc::Global;
use std::marker::Model;

/// The bits of the inputs of an arena, in the clauses of a goal.
#[derive(Drop)]
pub struct InputMap {
    inputs: Vec<InputBits>,
}

impl Model for InputMap {
    ghost use Rattle.std.specs.Prelude.{List, map};
    ghost use Rattle.bit_blast.specs.Blasting.{InputRow, row_of};

    ghost Value = { List InputRow };

    ghost view = { λ m. map row_of m.inputs.items };
}

fn is_set(values: &[bool], at: usize) -> bool
    ensures { result ≡ slice_index_or values.now at false }
{
    match values.get(at) {
        Some(value) => *value,
        None => false,
    }
}

fn holds(assignment: &Assignment, bit: Bit) -> bool
    ensures { result ≡ makes_true assignment.now bit.number }
{
    let lit = bit.lit();
    let is_set = is_set(assignment.values.items(), lit.variable() as usize - 1);
    if lit.number < 0 { !is_set } else { is_set }
}

/// 1 where the bit is true, else 0.
fn digit(assignment: &Assignment, bit: Bit) -> u128
    ensures { result ≡ (if makes_true assignment.now bit.number then 1 else 0) }
{
    u128::from(holds(assignment, bit))
}

/// The number of these bits.
fn value(assignment: &Assignment, bits: &[Bit]) -> u128
    requires { length bits.now ≤ 128 }
    ensures { result ≡ number_read (makes_true assignment.now) (numbers bits.now) }
{
    let mut value = 0;
    let mut at = bits.len();
    while at > 0 {
        at -= 1;
        value = value * 2 + digit(assignment, bits[at]);
    }
    value
}

impl InputBits {
    fn read(&self, assignment: &Assignment) -> Bits
        ensures { value_of result ≡ number self.now.width
            (number_read (makes_true assignment.now) (numbers self.now.bits.items)) }
    {
        Bits::new(self.width, value(assignment, &self.bits))
    }

    /// The bits of an input of the arena.
    fn of(
        alloc: Global,
        terms: &Terms,
        table: &Table,
        input: InputId,
    ) -> Result<InputBits, NoMemory>
        requires there { input < inputs_in terms.now }
        requires table { CanMap terms.now table.now }
        ensures { IfOk result (λ bits. IsInputRow terms.now table.now input (row_of bits)) }
    {
        let term = terms.input_term(input);
        Ok(InputBits {
            width: terms.width(term),
            bits: Vec::from_slice(alloc, table.bits(term))?,
        })
    }
}

impl InputMap {
    /// The bits of all inputs of the arena.
    pub(crate) fn new(alloc: Global, terms: &Terms, table: &Table) -> Result<InputMap, NoMemory>
        requires { CanMap terms.now table.now }
        ensures { IfOk result (λ map. IsMapped terms.now table.now (inputs_in terms.now) map) }
    {
        let mut inputs = Vec::new(alloc);
        for input in 0..terms.input_count() {
            inputs.push(InputBits::of(alloc, terms, table, input)?)?;
        }
        Ok(InputMap { inputs })
    }

    /// The value of an input under an assignment of the variables: 0, if the goal does not have it.
    pub fn read(&self, assignment: &Assignment, input: InputId) -> Bits
        requires { input < length self.now }
        ensures { (row : InputRow) → slice_get self.now input ≡ Some row
            → value_of result
            ≡ number row.width (number_read (makes_true assignment.now) row.bits) }
    {
        self.inputs[input as usize].read(assignment)
    }
}
