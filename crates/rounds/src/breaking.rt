//! The instance that a candidate breaks.
ghost use Rattle.std.specs.Prelude.{◌<◌, ◌≤◌, IfOk, IsTrue, length};
ghost use Rattle.cocoon_resolve.specs.Readers.{all_assumptions};
ghost use Rattle.cocoon_syntax.specs.TreeOf.{design_of};
ghost use Rattle.cocoon_types.specs.Design.{functions, last_level};
ghost use Rattle.fun_instances.specs.Taking.{NumbersFit, OfAssumption};
ghost use Rattle.rounds.specs.Steps.{IsInstance};

use bv_terms::Terms;
use cnf_core::Instance;
use cocoon_num::{List, NoMemory, Text};
use cocoon_resolve::Checked;
use cocoon_syntax::{AssumeDecl, Param};
use discharge::Met;
use fun_instances::value_instance;
use query_laws::instance_laws::earlier_levels_come_first;
use role_values::bindings::{fits, number_value};
use role_values::{Binding, Scene, State, Value, evaluate};
use runtime_defs::Defs;
use runtime_defs::laws::params_are_declared;
use std::alloc::Global;

/// The assumption of this number at these values. Its term is made to see that it has one.
pub(crate) fn broken(
    alloc: Global,
    checked: &Checked,
    number: u32,
    values: List<u64>,
) -> Result<Instance, NoMemory>
    requires number { number < length (all_assumptions (design_of checked.now)) }
    requires fit { OfAssumption (design_of checked.now) number (λ a. NumbersFit a values) }
    ensures { IfOk result (IsInstance (design_of checked.now) number values) }
{
    let mut own = Terms::new(alloc);
    let term = value_instance(alloc, checked, number, values.items(), &mut own)?;
    prove!(term < own.count());
    Ok(Instance { number, values })
}

/// The assumption of a number, if it is one of the levels up to this one.
fn assumption_to(checked: &Checked, level: u32, number: u32) -> Option<&AssumeDecl>
    requires { level ≤ last_level (design_of checked.now) }
{
    earlier_levels_come_first();
    if number < checked.assume_count(level) {
        Some(checked.assumption(number))
    } else {
        None
    }
}

/// A number of this width in bits, if it has it.
fn of_width(width: u32, number: u64) -> Option<Value> {
    let number = u128::from(number);
    if 1 <= width && width <= 64 && fits(width, number) {
        Some(number_value(width, number))
    } else {
        None
    }
}

/// The variables of parameters with these values, if each has the width of its parameter.
fn variables(
    alloc: Global,
    params: &[Param],
    values: &[u64],
) -> Result<Option<Vec<Binding>>, NoMemory> {
    let mut variables = Vec::new(alloc);
    for (param, value) in params.iter().zip(values).rev() {
        let Some(value) = of_width(param.width, *value) else {
            return Ok(None);
        };
        let name = Text::from(alloc, param.name.text.bytes())?;
        variables.push(Binding { name, value })?;
    }
    Ok(Some(variables))
}

/// Whether a design has so many functions.
fn has_functions(checked: &Checked, count: u32) -> bool
    ensures { IsTrue result → count ≤ length (functions (design_of checked.now)) }
{
    if count == 0 {
        return true;
    }
    let design = checked.design();
    checked.names().function(design, count - 1).is_some()
}

/// Whether an assumption is false with these variables, under these definitions.
fn is_false(
    alloc: Global,
    checked: &Checked,
    defs: &Defs,
    assumption: &AssumeDecl,
    variables: Vec<Binding>,
) -> Result<bool, NoMemory> {
    let Ok(before) = u32::try_from(defs.tables().len()) else {
        return Ok(false);
    };
    if !has_functions(checked, before) {
        return Ok(false);
    }
    params_are_declared();
    let _design = checked.design();
    let scene = Scene {
        checked,
        defs,
        before,
        headers: &[],
    };
    let fields = Vec::new(alloc);
    let state = State { variables, fields };
    match evaluate(alloc, &scene, &state, &assumption.body)? {
        Some(Value::Truth(truth)) => Ok(!truth),
        _ => Ok(false),
    }
}

/// Whether a candidate breaks what another one was found to break: the same assumption at the same
/// values. This takes an evaluation, and no search.
pub(crate) fn breaks_too(
    alloc: Global,
    checked: &Checked,
    level: u32,
    met: &Met,
    defs: &Defs,
) -> Result<bool, NoMemory>
    requires { level ≤ last_level (design_of checked.now) }
{
    let Met::Broken(number, values) = met else {
        return Ok(false);
    };
    let Some(assumption) = assumption_to(checked, level, *number) else {
        return Ok(false);
    };
    match variables(alloc, &assumption.params, values.items())? {
        Some(variables) => is_false(alloc, checked, defs, assumption, variables),
        None => Ok(false),
    }
}
