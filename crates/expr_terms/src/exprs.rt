//! The terms of expressions: of the parts before the whole, down the tree and, at a call of a function with a body, down the
//! functions before it.
ghost use Rattle.std.specs.Prelude.{◌≡◌, ◌<◌, ◌≤◌, IfOk, OnOk, Some, length, map, slice_get};
ghost use Rattle.cocoon_num.specs.Tree.{FunctionDecl as Declared};
ghost use Rattle.cocoon_syntax.specs.TreeOf.{design_of, expr_of, exprs_of, function_of};
ghost use Rattle.cocoon_types.specs.Design.{functions};
ghost use Rattle.bv_terms.specs.Arenas.{KeepsTerms, inputs_in, term_at};
ghost use Rattle.obligation_laws.specs.TermOf.{call_in, term_context, term_of, terms_of};
ghost use Rattle.expr_terms.specs.Finds.{body_term, called};
ghost use Rattle.expr_terms.specs.Scopes.{AreTyped, CanCall, CanMake, CanMakeAll, CanMakeBody, IsSeen, IsTyped, IsWhole, Takes, design_in, term_in, terms_in};
ghost use Rattle.expr_terms.specs.Sizes.{AreSizes, expr_nodes, exprs_nodes, functions_before, most_nodes};
ghost use Rattle.expr_terms.specs.Variables.{AreThere, Keeps, Makes, MakesAll, terms_at, variables_of};

use crate::fields::field;
use crate::functions::{Scope, find, result_bits};
use crate::operators::{apply, binary, constant, named, not, pick, slice};
use crate::sizes::CallSizes;
use crate::variables::{Variable, bind, variable_named};
use bv_terms::{TermId, Terms};
use cocoon_num::{Bits, NoMemory};
use cocoon_resolve::Checked;
use cocoon_syntax::{Expr, ExprKind};
use declarations::FunId;
use sound_types::laws::code_literals_fit;
use std::alloc::Global;

/// Where expressions of roles and assumptions stand.
fn whole<'d>(checked: &'d Checked, sizes: &CallSizes) -> Scope<'d>
    requires { AreSizes (design_of checked.now) sizes.now }
    ensures { IsWhole (design_of checked.now) result }
{
    code_literals_fit();
    let before = sizes.function_count(checked);
    let headers = &checked.design().headers;
    Scope {
        checked,
        before,
        headers,
    }
}

/// The term of an expression of a design, where these variables and fields are in scope, the fields header by header in the
/// order of declaration. No input is made. The time is in proportion to the nodes of the expression with those of its
/// calls; where these are more than 2^25, nothing is made, and the answer is out of memory.
pub fn expr_term(
    alloc: Global,
    checked: &Checked,
    sizes: &CallSizes,
    variables: &[Variable<'_>],
    fields: &[TermId],
    terms: &mut Terms,
    expr: &Expr,
) -> Result<TermId, NoMemory>
    requires sizes { AreSizes (design_of checked.now) sizes.now }
    requires typed { IsTyped (design_of checked.now) terms.old variables.now fields.now
        (expr_of expr.now) }
    ensures there { IfOk result (λ id. id < length terms.new) }
    ensures term { IfOk result (λ id. term_at terms.new id
        ≡ term_of (term_context (design_of checked.now)) (variables_of terms.old variables.now)
        (terms_at terms.old fields.now) (expr_of expr.now)) }
    ensures small { OnOk result
        (expr_nodes (design_of checked.now) (expr_of expr.now) ≤ most_nodes) }
    ensures unmade { most_nodes < expr_nodes (design_of checked.now) (expr_of expr.now)
        → terms.new ≡ terms.old }
    ensures kept { KeepsTerms terms.old terms.new }
    ensures inputs { inputs_in terms.new ≡ inputs_in terms.old }
{
    if sizes.nodes(checked, expr).is_none() {
        return Err(NoMemory);
    }
    make(
        alloc,
        &whole(checked, sizes),
        variables,
        fields,
        terms,
        expr,
    )
}

/// The terms of some expressions that are numbers, from left to right, likewise. Their nodes are counted together.
pub fn expr_terms(
    alloc: Global,
    checked: &Checked,
    sizes: &CallSizes,
    variables: &[Variable<'_>],
    fields: &[TermId],
    terms: &mut Terms,
    exprs: &[Expr],
) -> Result<Vec<TermId>, NoMemory>
    requires sizes { AreSizes (design_of checked.now) sizes.now }
    requires typed { AreTyped (design_of checked.now) terms.old variables.now fields.now
        (exprs_of (map expr_of exprs.now)) }
    ensures there { IfOk result (λ ids. AreThere terms.new ids.items) }
    ensures terms { IfOk result (λ ids. terms_at terms.new ids.items
        ≡ terms_of (term_context (design_of checked.now)) (variables_of terms.old variables.now)
        (terms_at terms.old fields.now) (exprs_of (map expr_of exprs.now))) }
    ensures small { OnOk result
        (exprs_nodes (design_of checked.now) (exprs_of (map expr_of exprs.now)) ≤ most_nodes) }
    ensures unmade { most_nodes
        < exprs_nodes (design_of checked.now) (exprs_of (map expr_of exprs.now))
        → terms.new ≡ terms.old }
    ensures kept { KeepsTerms terms.old terms.new }
    ensures inputs { inputs_in terms.new ≡ inputs_in terms.old }
{
    if sizes.all_nodes(checked, exprs).is_none() {
        return Err(NoMemory);
    }
    make_all(
        alloc,
        &whole(checked, sizes),
        variables,
        fields,
        terms,
        exprs,
    )
}

#[cycle(make)]
fn make(
    alloc: Global,
    scope: &Scope<'_>,
    variables: &[Variable<'_>],
    fields: &[TermId],
    terms: &mut Terms,
    expr: &Expr,
) -> Result<TermId, NoMemory>
    requires seen { IsSeen scope.now }
    requires typed { CanMake scope.now terms.old variables.now fields.now (expr_of expr.now) }
    ensures made { IfOk result (λ id. Makes terms.new id
        (term_in scope.now terms.old variables.now fields.now (expr_of expr.now))) }
    ensures kept { Keeps terms.old terms.new }
{
    match &expr.kind {
        ExprKind::Name(name) => named(terms, variable_named(variables, name.bytes())),
        ExprKind::Field(header, name) => {
            let (header, name) = (header.text.bytes(), name.text.bytes());
            named(terms, field(scope.headers, fields, header, name))
        }
        ExprKind::Lit(number) => constant(terms, *number),
        ExprKind::Truth(truth) => constant(terms, Bits::new(1, u128::from(*truth))),
        ExprKind::Call(function, args) => {
            let args = make_all(alloc, scope, variables, fields, terms, args)?;
            call(alloc, scope, terms, function.text.bytes(), &args)
        }
        ExprKind::Unary(_, a) => {
            let a = make(alloc, scope, variables, fields, terms, a)?;
            not(terms, a)
        }
        ExprKind::Binary(op, a, b) => {
            let a = make(alloc, scope, variables, fields, terms, a)?;
            let b = make(alloc, scope, variables, fields, terms, b)?;
            binary(terms, *op, a, b)
        }
        ExprKind::Slice(a, high, low) => {
            let a = make(alloc, scope, variables, fields, terms, a)?;
            slice(terms, a, *high, *low)
        }
        ExprKind::Pick(condition, a, b) => {
            let condition = make(alloc, scope, variables, fields, terms, condition)?;
            let a = make(alloc, scope, variables, fields, terms, a)?;
            let b = make(alloc, scope, variables, fields, terms, b)?;
            pick(terms, condition, a, b)
        }
    }
}

/// Of some expressions, from left to right.
#[cycle(make)]
fn make_all(
    alloc: Global,
    scope: &Scope<'_>,
    variables: &[Variable<'_>],
    fields: &[TermId],
    terms: &mut Terms,
    exprs: &[Expr],
) -> Result<Vec<TermId>, NoMemory>
    requires seen { IsSeen scope.now }
    requires typed { CanMakeAll scope.now terms.old variables.now fields.now
        (exprs_of (map expr_of exprs.now)) }
    ensures made { IfOk result (λ ids. MakesAll terms.new ids.items
        (terms_in scope.now terms.old variables.now fields.now
        (exprs_of (map expr_of exprs.now)))) }
    ensures kept { Keeps terms.old terms.new }
{
    let mut made = Vec::new(alloc);
    for expr in exprs {
        made.push(make(alloc, scope, variables, fields, terms, expr)?)?;
    }
    Ok(made)
}

/// A call of a function by its name.
#[cycle(make)]
fn call(
    alloc: Global,
    scope: &Scope<'_>,
    terms: &mut Terms,
    name: &[u8],
    args: &[TermId],
) -> Result<TermId, NoMemory>
    requires seen { IsSeen scope.now }
    requires can { CanCall scope.now terms.old name.now args.now }
    ensures made { IfOk result (λ id. Makes terms.new id
        (call_in (functions_before (design_in scope.now) scope.now.before) name.now
        (terms_at terms.old args.now))) }
    ensures kept { Keeps terms.old terms.new }
{
    match find(scope.checked, scope.before, name) {
        Some(number) => call_function(alloc, scope, terms, number, args),
        None => named(terms, None),
    }
}

/// A call of the function of a number, at run time or by its body.
#[cycle(make)]
fn call_function(
    alloc: Global,
    scope: &Scope<'_>,
    terms: &mut Terms,
    number: FunId,
    args: &[TermId],
) -> Result<TermId, NoMemory>
    requires seen { IsSeen scope.now }
    requires within { number < scope.now.before }
    requires takes { (g : Declared) → slice_get (functions (design_in scope.now)) number ≡ Some g
        → Takes terms.old g.params args.now }
    ensures made { (g : Declared) → slice_get (functions (design_in scope.now)) number ≡ Some g
        → IfOk result (λ id. Makes terms.new id
        (called (design_in scope.now) number g (terms_at terms.old args.now) g.body)) }
    ensures kept { Keeps terms.old terms.new }
{
    let function = scope.checked.function(number);
    match &function.body {
        Some(body) => {
            let bound = bind(alloc, &function.params, args)?;
            make_body(alloc, scope, number, &bound, terms, body)
        }
        None => apply(terms, number, args, result_bits(function.result)),
    }
}

/// The body of the function of a number, which sees the functions before it.
#[cycle(make)]
fn make_body(
    alloc: Global,
    scope: &Scope<'_>,
    number: FunId,
    bound: &[Variable<'_>],
    terms: &mut Terms,
    body: &Expr,
) -> Result<TermId, NoMemory>
    requires seen { IsSeen scope.now }
    requires within { number < scope.now.before }
    requires typed { CanMakeBody scope.now terms.old number bound.now (expr_of body.now) }
    ensures made { IfOk result (λ id. Makes terms.new id
        (body_term (design_in scope.now) number (variables_of terms.old bound.now)
        (expr_of body.now))) }
    ensures kept { Keeps terms.old terms.new }
{
    let inner = Scope {
        before: number,
        headers: &[],
        ..*scope
    };
    make(alloc, &inner, bound, &[], terms, body)
}
