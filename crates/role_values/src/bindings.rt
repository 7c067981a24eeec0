//! Variables and their values, the last that was bound first.
ghost use Rattle.std.specs.Prelude.{◌≡◌, ◌<◌, ◌≤◌, ◌^◌, IfOk, map, option_map};
ghost use Rattle.cocoon_num.specs.Names.{same_name};
ghost use Rattle.cocoon_num.specs.Values as values;
ghost use Rattle.cocoon_num.specs.Values.{fits_width};
ghost use Rattle.cocoon_syntax.specs.TreeOf.{param_of};
ghost use Rattle.cocoon_types.specs.Design.{widths_of};
ghost use Rattle.cocoon_types.specs.Val as val;
ghost use Rattle.role_values.specs.Bound.{env_of};
ghost use Rattle.role_values.specs.DeclaredWidths.{AllDeclared};
ghost use Rattle.role_values.specs.Meant.{meant};

use crate::value::Value;
use cocoon_num::{Bits, NoMemory, Text};
use cocoon_syntax::Param;
use std::alloc::Global;

/// A variable and its value.
#[derive(Drop)]
pub struct Binding {
    pub name: Text,
    pub value: Value,
}

/// Whether two names are the same.
#[tactic(auto, using(crate::proofs::Names::same_is))]
pub(crate) fn is_same(name: &[u8], other: &[u8]) -> bool
    ensures { result ≡ same_name name.now other.now }
{
    name == other
}

/// Whether a number fits a width in bits.
#[tactic(auto, using(crate::proofs::Names::shifted_one))]
pub fn fits(width: u32, number: u128) -> bool
    requires { width ≤ 64 }
    ensures { result ≡ fits_width width number }
{
    number < 1 << width
}

/// The number of a width in bits.
pub fn number_value(width: u32, number: u128) -> Value
    requires wide { 1 ≤ width }
    requires narrow { width ≤ 64 }
    requires fits { number < 2 ^ width }
    ensures { meant result ≡ values.number width number }
{
    Value::Number(Bits::new(width as u8, number))
}

/// The value of the variable that a name stands for.
pub(crate) fn variable(bindings: &[Binding], name: &[u8]) -> Option<Value>
    ensures { option_map meant result ≡ val.variable (env_of bindings.now) name.now }
{
    let mut at = bindings.len();
    while at > 0 {
        at -= 1;
        let binding = &bindings[at];
        if is_same(name, binding.name.bytes()) {
            return Some(binding.value);
        }
    }
    None
}

/// The parameters with these numbers, where they are as many and fit.
pub fn bind(
    alloc: Global,
    params: &[Param],
    args: &[u128],
) -> Result<Option<Vec<Binding>>, NoMemory>
    requires { AllDeclared (widths_of (map param_of params.now)) }
    ensures { IfOk result (λ bound. option_map (λ bs. env_of bs.items) bound
        ≡ val.bind (map param_of params.now) args.now) }
{
    if params.len() != args.len() {
        return Ok(None);
    }
    let mut bindings = Vec::new(alloc);
    let mut at = params.len();
    while at > 0 {
        at -= 1;
        let param = &params[at];
        let number = args[at];
        if !fits(param.width, number) {
            return Ok(None);
        }
        let name = Text::from(alloc, param.name.text.bytes())?;
        let value = number_value(param.width, number);
        bindings.push(Binding { name, value })?;
    }
    Ok(Some(bindings))
}
