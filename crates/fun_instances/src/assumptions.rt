//! The terms of assumptions in an arena.
ghost use Rattle.std.specs.Prelude.{◌≡◌, ◌<◌, ◌≤◌, ◌^◌, IfOk, OnOk, length, map};
ghost use Rattle.cocoon_resolve.specs.Readers.{all_assumptions};
ghost use Rattle.cocoon_syntax.specs.TreeOf.{design_of, param_of};
ghost use Rattle.cocoon_types.specs.Design.{widths_of};
ghost use Rattle.bv_terms.specs.Arenas.{KeepsTerms, inputs_in, term_at};
ghost use Rattle.bv_terms.specs.TermTrees as term;
ghost use Rattle.bv_terms.specs.TermTrees.{IsWidth};
ghost use Rattle.expr_terms.specs.Scopes.{Takes};
ghost use Rattle.expr_terms.specs.Sizes.{AreSizes, expr_nodes, most_nodes};
ghost use Rattle.expr_terms.specs.Variables.{Keeps, Makes, MakesAll, terms_at};
ghost use Rattle.fun_instances.specs.AssumptionTerms as spec;
ghost use Rattle.fun_instances.specs.Numbers.{AreConstants};
ghost use Rattle.fun_instances.specs.Taking.{NumbersFit, OfAssumption};

use bv_terms::{TermId, Terms};
use cocoon_num::{Bits, NoMemory};
use cocoon_resolve::Checked;
use cocoon_syntax::Param;
use expr_terms::{CallSizes, bind, expr_term};
use sound_types::laws::{code_literals_fit, declarations_are_typed};
use std::alloc::Global;

/// The term of the assumption of a number, where its parameters stand for these terms. No input is made. The time is in
/// proportion to the nodes of its body with those of its calls; where these are more than 2^25, nothing is made, and the answer
/// is out of memory.
pub fn assumption_term(
    alloc: Global,
    checked: &Checked,
    sizes: &CallSizes,
    assumption: u32,
    args: &[TermId],
    terms: &mut Terms,
) -> Result<TermId, NoMemory>
    requires sizes { AreSizes (design_of checked.now) sizes.now }
    requires number { assumption < length (all_assumptions (design_of checked.now)) }
    requires takes { OfAssumption (design_of checked.now) assumption
        (λ a. Takes terms.old a.params args.now) }
    ensures there { IfOk result (λ id. id < length terms.new) }
    ensures term { OfAssumption (design_of checked.now) assumption (λ a. IfOk result (λ id.
        term_at terms.new id
        ≡ spec.assumption_term (design_of checked.now) a (terms_at terms.old args.now))) }
    ensures small { OfAssumption (design_of checked.now) assumption
        (λ a. OnOk result (expr_nodes (design_of checked.now) a.body ≤ most_nodes)) }
    ensures unmade { OfAssumption (design_of checked.now) assumption
        (λ a. most_nodes < expr_nodes (design_of checked.now) a.body → terms.new ≡ terms.old) }
    ensures kept { KeepsTerms terms.old terms.new }
    ensures inputs { inputs_in terms.new ≡ inputs_in terms.old }
{
    declarations_are_typed();
    code_literals_fit();
    let _design = checked.design();
    let assumed = checked.assumption(assumption);
    let bound = bind(alloc, &assumed.params, args)?;
    expr_term(alloc, checked, sizes, &bound, &[], terms, &assumed.body)
}

/// The term of the assumption of a number at these numbers, one for each of its parameters. The bodies of all functions are
/// counted as well; for the rest time and memory are as above.
pub fn value_instance(
    alloc: Global,
    checked: &Checked,
    assumption: u32,
    values: &[u64],
    terms: &mut Terms,
) -> Result<TermId, NoMemory>
    requires number { assumption < length (all_assumptions (design_of checked.now)) }
    requires fit { OfAssumption (design_of checked.now) assumption
        (λ a. NumbersFit a values.now) }
    ensures there { IfOk result (λ id. id < length terms.new) }
    ensures term { OfAssumption (design_of checked.now) assumption (λ a. IfOk result (λ id.
        term_at terms.new id ≡ spec.value_term (design_of checked.now) a values.now)) }
    ensures small { OfAssumption (design_of checked.now) assumption
        (λ a. OnOk result (expr_nodes (design_of checked.now) a.body ≤ most_nodes)) }
    ensures unmade { OfAssumption (design_of checked.now) assumption
        (λ a. most_nodes < expr_nodes (design_of checked.now) a.body → terms.new ≡ terms.old) }
    ensures kept { KeepsTerms terms.old terms.new }
    ensures inputs { inputs_in terms.new ≡ inputs_in terms.old }
{
    let _design = checked.design();
    let sizes = CallSizes::new(alloc, checked)?;
    let assumed = checked.assumption(assumption);
    if sizes.nodes(checked, &assumed.body).is_none() {
        return Err(NoMemory);
    }
    let args = number_terms(alloc, &assumed.params, values, terms)?;
    assumption_term(alloc, checked, &sizes, assumption, &args, terms)
}

/// A number of the width of a parameter.
fn number_term(terms: &mut Terms, param: &Param, value: u64) -> Result<TermId, NoMemory>
    requires width { IsWidth param.now.width }
    requires fits { value < 2 ^ param.now.width }
    ensures made { IfOk result (λ id. Makes terms.new id (term.constant param.now.width value)) }
    ensures kept { Keeps terms.old terms.new }
{
    terms.constant(Bits::new(param.width as u8, u128::from(value)))
}

/// Numbers of the widths of parameters, in their order.
fn number_terms(
    alloc: Global,
    params: &[Param],
    values: &[u64],
    terms: &mut Terms,
) -> Result<Vec<TermId>, NoMemory>
    requires { AreConstants (widths_of (map param_of params.now)) values.now }
    ensures made { IfOk result (λ ids. MakesAll terms.new ids.items
        (spec.number_terms (widths_of (map param_of params.now)) values.now)) }
    ensures kept { Keeps terms.old terms.new }
{
    let mut made = Vec::new(alloc);
    let mut at = 0;
    while at < values.len() {
        made.push(number_term(terms, &params[at], values[at])?)?;
        at += 1;
    }
    Ok(made)
}
