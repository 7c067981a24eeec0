//! Questions: the last assumption of a design, as a term and by its value.
ghost use Rattle.std.specs.Prelude.{◌≡◌, ◌≤◌, IfSome, IsTrue, length, map};
ghost use Rattle.cocoon_syntax.specs.TreeOf.{assume_of, design_of, param_of};
ghost use Rattle.cocoon_types.specs.Design.{functions};
ghost use Rattle.obligation_tests.specs.Asked.{IsQuestion, are_params, is_param};

use crate::drafts::Draft;
use crate::texts::Question;
use bv_terms::{TermId, Terms};
use case_files::Printer;
use cocoon_num::{Bits, NoMemory, Text};
use cocoon_resolve::Checked;
use cocoon_syntax::{AssumeDecl, Param};
use expr_terms::{CallSizes, bind, expr_term};
use role_values::{Binding, Scene, State, Value, evaluate};
use runtime_defs::laws::params_are_declared;
use sound_types::laws::{code_literals_fit, declarations_are_typed};
use std::alloc::Global;

/// The last assumption of a design.
fn last_assumption(checked: &Checked) -> Option<&AssumeDecl>
    ensures { IfSome result (λ a. IsQuestion (design_of checked.now) (assume_of a.now)) }
{
    declarations_are_typed();
    code_literals_fit();
    let _design = checked.design();
    let count = checked.assume_count(checked.levels() - 1);
    if count == 0 {
        return None;
    }
    Some(checked.assumption(count - 1))
}

/// Whether there is this term, and it is as wide as the parameter.
fn is_param(terms: &Terms, param: &Param, id: TermId) -> bool
    ensures { result ≡ is_param terms.now (param_of param.now) id }
{
    id < terms.count() && u32::from(terms.width(id)) == param.width
}

/// Whether the terms are as many as the parameters, each of its width.
fn are_params(terms: &Terms, params: &[Param], ids: &[TermId]) -> bool
    ensures { IsTrue result → IsTrue (are_params terms.now (map param_of params.now) ids.now) }
{
    if params.len() != ids.len() {
        return false;
    }
    for at in 0..params.len() {
        if !is_param(terms, &params[at], ids[at]) {
            return false;
        }
    }
    true
}

/// The term of a question whose parameters have these terms.
fn question_term(
    alloc: Global,
    checked: &Checked,
    question: &AssumeDecl,
    inputs: &[TermId],
    terms: &mut Terms,
) -> Result<Option<TermId>, NoMemory>
    requires { IsQuestion (design_of checked.now) (assume_of question.now) }
{
    if !are_params(terms, &question.params, inputs) {
        return Ok(None);
    }
    let sizes = CallSizes::new(alloc, checked)?;
    let variables = bind(alloc, &question.params, inputs)?;
    let term = expr_term(
        alloc,
        checked,
        &sizes,
        &variables,
        &[],
        terms,
        &question.body,
    )?;
    Ok(Some(term))
}

fn inputs(alloc: Global, draft: &mut Draft, params: &[Param]) -> Option<Vec<TermId>> {
    let mut inputs = Vec::new(alloc);
    for param in params {
        let input = draft.input(u8::try_from(param.width).ok()?)?;
        inputs.push(input).ok()?;
    }
    Some(inputs)
}

/// The parameters with these numbers, the first one last.
fn variables(alloc: Global, params: &[Param], numbers: &[Bits]) -> Option<Vec<Binding>> {
    let mut variables = Vec::new(alloc);
    for (param, number) in params.iter().zip(numbers).rev() {
        let name = Text::from(alloc, param.name.text.bytes()).ok()?;
        let value = Value::Number(*number);
        variables.push(Binding { name, value }).ok()?;
    }
    Some(variables)
}

/// Whether a design has so many functions.
fn has_functions(checked: &Checked, count: u32) -> bool
    ensures { IsTrue result → count ≤ length (functions (design_of checked.now)) }
{
    if count == 0 {
        return true;
    }
    let design = checked.design();
    checked.names().function(design, count - 1).is_some()
}

/// The value of a question at these numbers.
fn question_value(
    alloc: Global,
    question: &Question,
    assumption: &AssumeDecl,
    numbers: &[Bits],
) -> Option<bool> {
    let (checked, defs) = (&question.checked, &question.defs);
    let before = u32::try_from(defs.tables().len()).ok()?;
    if !has_functions(checked, before) {
        return None;
    }
    params_are_declared();
    let _design = checked.design();
    let scene = Scene {
        checked,
        defs,
        before,
        headers: &[],
    };
    let variables = variables(alloc, &assumption.params, numbers)?;
    let fields = Vec::new(alloc);
    let state = State { variables, fields };
    match evaluate(alloc, &scene, &state, &assumption.body).ok()?? {
        Value::Truth(truth) => Some(truth),
        Value::Number(_) => None,
    }
}

/// The term of the question, if there is one. Its parameters become the inputs.
pub(crate) fn term(
    alloc: Global,
    question: &Question,
    draft: &mut Draft,
) -> Result<Option<TermId>, NoMemory> {
    let Some(assumption) = last_assumption(&question.checked) else {
        return Ok(None);
    };
    match inputs(alloc, draft, &assumption.params) {
        Some(inputs) => {
            let (checked, terms) = (&question.checked, &mut draft.terms);
            question_term(alloc, checked, assumption, &inputs, terms)
        }
        None => Ok(None),
    }
}

/// The value of its expression at these numbers, as a number of width 1.
pub(crate) fn value_at(alloc: Global, question: &Question, numbers: &[Bits]) -> Option<Bits> {
    let assumption = last_assumption(&question.checked)?;
    let truth = question_value(alloc, question, assumption, numbers)?;
    Some(Bits::new(1, u128::from(truth)))
}

/// Puts whether the question has this term: `DECLARATIONS :: WORDS`.
pub(crate) fn put_term(rt: &HostRuntime, above: &str, asked: &str, given: &mut Printer) {
    let (declared, words) = asked.split_once(" :: ").unwrap_or((asked, ""));
    let mut draft = Draft::new(rt.alloc());
    let term = match Question::read(rt, above, declared) {
        Some(question) => term(rt.alloc(), &question, &mut draft),
        None => Ok(None),
    };
    given.put(match term {
        Ok(Some(term)) if draft.read(words) == Some(term) => "same",
        Ok(Some(_)) => "another",
        Ok(None) => "no question",
        Err(NoMemory) => "no memory",
    });
}
