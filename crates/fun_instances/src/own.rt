//! The terms of assumptions over inputs of their own.
ghost use Rattle.std.specs.Prelude.{◌≡◌, ◌<◌, ◌≤◌, [], IfOk, OnOk, length, map};
ghost use Rattle.std.specs.List.{AllByRecursion};
ghost use Rattle.cocoon_resolve.specs.Readers.{all_assumptions};
ghost use Rattle.cocoon_syntax.specs.TreeOf.{design_of, param_of};
ghost use Rattle.cocoon_types.specs.Design.{widths_of};
ghost use Rattle.bv_terms.specs.Arenas.{term_at};
ghost use Rattle.bv_terms.specs.TermTrees.{IsWidth};
ghost use Rattle.expr_terms.specs.Sizes.{AreSizes, expr_nodes, most_nodes};
ghost use Rattle.fun_instances.specs.AssumptionTerms as spec;
ghost use Rattle.fun_instances.specs.OwnInputs.{HasInputs, HasInputsOf, IsNewInput};
ghost use Rattle.fun_instances.specs.Taking.{OfAssumption};

use crate::assumptions::assumption_term;
use bv_terms::{TermId, Terms};
use cocoon_num::NoMemory;
use cocoon_resolve::Checked;
use cocoon_syntax::Param;
use expr_terms::CallSizes;
use std::alloc::Global;

/// A new input of the width of a parameter.
fn parameter_input(terms: &mut Terms, param: &Param) -> Result<TermId, NoMemory>
    requires { IsWidth param.now.width }
    ensures { IfOk result (λ id. IsNewInput terms.old terms.new param.now.width id) }
{
    terms.input(param.width as u8)
}

/// An input for each parameter, of its width.
fn parameter_inputs(
    alloc: Global,
    params: &[Param],
    terms: &mut Terms,
) -> Result<Vec<TermId>, NoMemory>
    requires fresh { terms.old ≡ [] }
    requires widths { AllByRecursion IsWidth (widths_of (map param_of params.now)) }
    ensures { IfOk result (λ ids.
        HasInputs terms.new ids.items (widths_of (map param_of params.now))) }
{
    let mut inputs = Vec::new(alloc);
    for param in params {
        inputs.push(parameter_input(terms, param)?)?;
    }
    Ok(inputs)
}

/// The term of the assumption of a number in an arena that has no terms yet: its parameters are the
/// inputs from 0 on, in their order. Time and memory are as for `assumption_term`.
pub fn own_term(
    alloc: Global,
    checked: &Checked,
    sizes: &CallSizes,
    assumption: u32,
    terms: &mut Terms,
) -> Result<TermId, NoMemory>
    requires sizes { AreSizes (design_of checked.now) sizes.now }
    requires number { assumption < length (all_assumptions (design_of checked.now)) }
    requires fresh { terms.old ≡ [] }
    ensures there { IfOk result (λ id. id < length terms.new) }
    ensures term { OfAssumption (design_of checked.now) assumption (λ a. IfOk result (λ id.
        term_at terms.new id ≡ spec.own_term (design_of checked.now) a)) }
    ensures inputs { OfAssumption (design_of checked.now) assumption
        (λ a. OnOk result (HasInputsOf (widths_of a.params) terms.new)) }
    ensures small { OfAssumption (design_of checked.now) assumption
        (λ a. OnOk result (expr_nodes (design_of checked.now) a.body ≤ most_nodes)) }
{
    let _design = checked.design();
    let assumed = checked.assumption(assumption);
    let inputs = parameter_inputs(alloc, &assumed.params, terms)?;
    assumption_term(alloc, checked, sizes, assumption, &inputs, terms)
}
