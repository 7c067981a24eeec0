//! New inputs of an arena.
ghost use Rattle.std.specs.Prelude.{◌≡◌, ◌+◌, All, IfOk, length, map, OnOk};
ghost use Rattle.cocoon_syntax.specs.TreeOf.{param_of};
ghost use Rattle.cocoon_types.specs.Design.{widths_of};
ghost use Rattle.bv_terms.specs.Arenas.{KeepsTerms, inputs_in};
ghost use Rattle.expr_terms.specs.Variables.{MakesAll};
ghost use Rattle.role_values.specs.DeclaredWidths.{AllDeclared};
ghost use Rattle.obligation_laws.specs.States.{input_term, inputs_from};
ghost use Rattle.obligation_gen.specs.ShownTrees.{ShowsInputs};

use bv_terms::{InputId, TermId, Terms};
use cocoon_num::NoMemory;
use cocoon_syntax::Param;
use std::alloc::Global;

/// Inputs, and their terms.
#[derive(Drop)]
pub(crate) struct Inputs {
    pub(crate) numbers: Vec<InputId>,
    pub(crate) terms: Vec<TermId>,
}

/// The widths of parameters, in bits.
pub(crate) fn param_widths(alloc: Global, params: &[Param]) -> Result<Vec<u8>, NoMemory>
    requires { AllDeclared (widths_of (map param_of params.now)) }
    ensures { IfOk result (λ widths. widths.items ≡ widths_of (map param_of params.now)) }
{
    let mut widths = Vec::new(alloc);
    for param in params {
        widths.push(param.width as u8)?;
    }
    Ok(widths)
}

/// One input more for each width, in their order.
pub(crate) fn new_inputs(
    alloc: Global,
    widths: &[u8],
    terms: &mut Terms,
) -> Result<Inputs, NoMemory>
    requires { AllDeclared widths.now }
    ensures inputs { IfOk result (λ made. ShowsInputs terms.new made.numbers.items
        (inputs_from (inputs_in terms.old) widths.now)) }
    ensures terms { IfOk result (λ made. MakesAll terms.new made.terms.items
        (map input_term (inputs_from (inputs_in terms.old) widths.now))) }
    ensures next { OnOk result (inputs_in terms.new ≡ inputs_in terms.old + length widths.now) }
    ensures kept { KeepsTerms terms.old terms.new }
{
    let mut made = Inputs {
        numbers: Vec::new(alloc),
        terms: Vec::new(alloc),
    };
    for width in widths {
        made.numbers.push(terms.input_count())?;
        made.terms.push(terms.input(*width)?)?;
    }
    Ok(made)
}
