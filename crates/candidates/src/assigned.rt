//! The values of inputs under an assignment.
ghost use Rattle.std.specs.Prelude.{◌≡◌, IfOk, length, map};
ghost use Rattle.bv_terms.specs.Arenas.{inputs_in};
ghost use Rattle.cnf_core.specs.Satisfying.{makes_true};
ghost use Rattle.cocoon_num.specs.BitsOf.{value_of};
ghost use Rattle.candidates.specs.Assigned.{row_value};

use bit_blast::InputMap;
use bv_terms::{Env, Terms};
use cnf_core::Assignment;
use cocoon_num::{Bits, List, NoMemory};
use std::alloc::Global;

/// The values of all inputs of the arena.
fn values(
    alloc: Global,
    terms: &Terms,
    inputs: &InputMap,
    assignment: &Assignment,
) -> Result<Vec<Bits>, NoMemory>
    requires { length inputs.now ≡ inputs_in terms.now }
    ensures { IfOk result (λ values. map value_of values.items
        ≡ map (row_value (makes_true assignment.now)) inputs.now) }
{
    let mut values = Vec::new(alloc);
    for input in 0..terms.input_count() {
        values.push(inputs.read(assignment, input))?;
    }
    Ok(values)
}

/// An environment with these values, and without functions.
pub fn environment(
    alloc: Global,
    terms: &Terms,
    inputs: &InputMap,
    assignment: &Assignment,
) -> Result<Env, NoMemory>
    requires { length inputs.now ≡ inputs_in terms.now }
    ensures { IfOk result (λ env. map value_of env.inputs
        ≡ map (row_value (makes_true assignment.now)) inputs.now) }
{
    let inputs = values(alloc, terms, inputs, assignment)?;
    Ok(Env {
        inputs: List::from(inputs),
        tables: List::from(Vec::new(alloc)),
    })
}
