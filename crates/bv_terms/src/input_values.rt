//! Values of some inputs.
ghost use Rattle.std.specs.Prelude.{◌≡◌, ◌%◌, ◌^◌, IfOk, map};
ghost use Rattle.bv_terms.specs.Copies.{new_name};
ghost use Rattle.bv_terms.specs.Values.{values_of};

use crate::node::InputId;
use cocoon_num::{Bits, NoMemory};
use std::alloc::Global;

/// The place of an input among these: behind them all, if it is not there.
fn place(inputs: &[InputId], input: InputId) -> usize
    ensures { result ≡ new_name 0 inputs.now input }
{
    for at in 0..inputs.len() {
        if inputs[at] == input {
            return at;
        }
    }
    inputs.len()
}

/// Values of some inputs, by the places of the inputs. The inputs are few, so they are looked through
/// one by one.
#[derive(Clone, Copy)]
pub struct InputValues<'v> {
    pub inputs: &'v [InputId],
    /// Their values, in the same order. More may stand behind them.
    pub values: &'v [Bits],
}

impl InputValues<'_> {
    /// The number of an input; 0 if it has no value.
    pub fn number(&self, input: InputId) -> u128
        ensures { result ≡ values_of self.now.inputs.now self.now.values.now input }
    {
        match self.values.get(place(self.inputs, input)) {
            Some(bits) => bits.value,
            None => 0,
        }
    }

    /// Its low 64 bits.
    fn low(&self, input: InputId) -> u64
        ensures { result
            ≡ values_of self.now.inputs.now self.now.values.now input % 2 ^ 64 }
    {
        (self.number(input) % 0x1_0000_0000_0000_0000) as u64
    }

    /// The low 64 bits of those of some inputs, in order.
    pub fn numbers(&self, alloc: Global, inputs: &[InputId]) -> Result<Vec<u64>, NoMemory>
        ensures { IfOk result (λ numbers. numbers.items
            ≡ map (λ i. values_of self.now.inputs.now self.now.values.now i % 2 ^ 64) inputs.now) }
    {
        let mut numbers = Vec::new(alloc);
        for input in inputs {
            numbers.push(self.low(*input))?;
        }
        Ok(numbers)
    }
}
