//! The values of expressions: of a part before the whole, down the tree and, where a function has a
//! body, down the functions before it.
ghost use Rattle.std.specs.Prelude.{◌≡◌, ◌<◌, IfOk, map, OnOk, option_and_then, option_map, slice_get, Some};
ghost use Rattle.cocoon_num.specs.Tree.{FunctionDecl};
ghost use Rattle.cocoon_num.specs.Values.{apply_binary, apply_pick, apply_slice, apply_unary, as_number, with_all, with_both};
ghost use Rattle.cocoon_syntax.specs.TreeOf.{binary_of, design_of, expr_of, function_of, unary_of};
ghost use Rattle.cocoon_types.specs.Design.{functions};
ghost use Rattle.role_values.specs.Kept.{KeepsValues};
ghost use Rattle.role_values.specs.Meant.{meant};
ghost use Rattle.role_values.specs.Scenes.{all_values, applied, body_value, called_by, HasPacket, SeesFunctions, value_in};

use crate::bindings::{Binding, bind, variable};
use crate::fields::read_field;
use crate::functions::{find, table_at, table_value};
use crate::kept::{KeptCalls, call_key};
use crate::operators::{binary, pick, slice, unary};
use crate::value::Value;
use cocoon_num::NoMemory;
use cocoon_resolve::Checked;
use cocoon_syntax::{BinaryOp, Expr, ExprKind, FunctionDecl as Function, HeaderDecl, UnaryOp};
use declarations::FunId;
use runtime_defs::Defs;
use std::alloc::Global;

/// What expressions see beside variables and fields: the headers, which are none in a function, and the
/// first functions of the design, so many, with the definitions of those that have no body.
#[derive(Clone, Copy, Drop)]
pub struct Scene<'d> {
    pub checked: &'d Checked,
    pub defs: &'d Defs,
    /// How many functions are seen.
    pub before: u32,
    pub headers: &'d [HeaderDecl],
}

/// The variables and the numbers of the packet's fields, at one point of a run.
#[derive(Drop)]
pub struct State {
    /// The last that was bound last.
    pub variables: Vec<Binding>,
    /// Header by header, in the order of declaration.
    pub fields: Vec<u64>,
}

fn unary_of_one(op: UnaryOp, operand: Option<Value>) -> Option<Value>
    ensures { option_map meant result
        ≡ option_and_then (apply_unary (unary_of op)) (option_map meant operand) }
{
    unary(op, operand?)
}

fn binary_of_both(op: BinaryOp, first: Option<Value>, second: Option<Value>) -> Option<Value>
    ensures { option_map meant result ≡ with_both (apply_binary (binary_of op))
        (option_map meant first) (option_map meant second) }
{
    binary(op, first?, second?)
}

fn slice_of(operand: Option<Value>, high: u32, low: u32) -> Option<Value>
    ensures { option_map meant result
        ≡ option_and_then (λ v. apply_slice v high low) (option_map meant operand) }
{
    slice(operand?, high, low)
}

fn pick_of_all(
    condition: Option<Value>,
    first: Option<Value>,
    second: Option<Value>,
) -> Option<Value>
    ensures { option_map meant result ≡ with_all apply_pick
        (option_map meant condition) (option_map meant first) (option_map meant second) }
{
    pick(condition?, first?, second?)
}

fn number_of_value(value: Option<Value>) -> Option<u128>
    ensures { result ≡ option_and_then as_number (option_map meant value) }
{
    value?.number()
}

/// The value of an expression; none where it has none, or where it calls a table with numbers that do
/// not fit it. No call of a function with a body is evaluated twice with the same arguments: the time is
/// in proportion to the nodes of the expression and of the bodies of the calls that differ, and for each
/// look-up to the rows that are looked at, of a table whose rows compare all bits to the logarithm of
/// its rows; a name is looked up among all that are in scope, and a call among those that are kept.
pub fn evaluate(
    alloc: Global,
    scene: &Scene<'_>,
    state: &State,
    expr: &Expr,
) -> Result<Option<Value>, NoMemory>
    requires functions { SeesFunctions scene.now }
    requires packet { HasPacket scene.now state.now }
    ensures { IfOk result (λ v. option_map meant v
        ≡ value_in scene.now state.now (expr_of expr.now)) }
{
    let mut calls = KeptCalls::new(alloc);
    value_of(alloc, scene, state, &mut calls, expr)
}

/// The numbers that some expressions give, from left to right. No call is evaluated twice.
pub fn evaluate_all(
    alloc: Global,
    scene: &Scene<'_>,
    state: &State,
    exprs: &[Expr],
) -> Result<Option<Vec<u128>>, NoMemory>
    requires functions { SeesFunctions scene.now }
    requires packet { HasPacket scene.now state.now }
    ensures { IfOk result (λ ns. option_map (λ v. v.items) ns
        ≡ all_values scene.now state.now (map expr_of exprs.now)) }
{
    let mut calls = KeptCalls::new(alloc);
    numbers_of(alloc, scene, state, &mut calls, exprs)
}

/// The value of an expression, where the values of these calls are known.
#[cycle(value_of)]
fn value_of(
    alloc: Global,
    scene: &Scene<'_>,
    state: &State,
    calls: &mut KeptCalls,
    expr: &Expr,
) -> Result<Option<Value>, NoMemory>
    requires functions { SeesFunctions scene.now }
    requires packet { HasPacket scene.now state.now }
    requires keeps { KeepsValues scene.now calls.old }
    ensures value { IfOk result (λ v. option_map meant v
        ≡ value_in scene.now state.now (expr_of expr.now)) }
    ensures keeps { OnOk result (KeepsValues scene.now calls.new) }
{
    match &expr.kind {
        ExprKind::Name(name) => Ok(variable(&state.variables, name.bytes())),
        ExprKind::Field(header, field) => {
            let (header, field) = (header.text.bytes(), field.text.bytes());
            Ok(read_field(scene.headers, &state.fields, header, field))
        }
        ExprKind::Lit(number) => Ok(Some(Value::Number(*number))),
        ExprKind::Truth(truth) => Ok(Some(Value::Truth(*truth))),
        ExprKind::Call(function, args) => match numbers_of(alloc, scene, state, calls, args)? {
            Some(args) => apply(alloc, scene, calls, function.text.bytes(), &args),
            None => Ok(None),
        },
        ExprKind::Unary(op, a) => Ok(unary_of_one(*op, value_of(alloc, scene, state, calls, a)?)),
        ExprKind::Binary(op, a, b) => {
            let a = value_of(alloc, scene, state, calls, a)?;
            let b = value_of(alloc, scene, state, calls, b)?;
            Ok(binary_of_both(*op, a, b))
        }
        ExprKind::Slice(a, high, low) => {
            Ok(slice_of(value_of(alloc, scene, state, calls, a)?, *high, *low))
        }
        ExprKind::Pick(condition, a, b) => {
            let condition = value_of(alloc, scene, state, calls, condition)?;
            let a = value_of(alloc, scene, state, calls, a)?;
            let b = value_of(alloc, scene, state, calls, b)?;
            Ok(pick_of_all(condition, a, b))
        }
    }
}

/// The numbers of some expressions, where the values of these calls are known.
#[cycle(value_of)]
fn numbers_of(
    alloc: Global,
    scene: &Scene<'_>,
    state: &State,
    calls: &mut KeptCalls,
    exprs: &[Expr],
) -> Result<Option<Vec<u128>>, NoMemory>
    requires functions { SeesFunctions scene.now }
    requires packet { HasPacket scene.now state.now }
    requires keeps { KeepsValues scene.now calls.old }
    ensures numbers { IfOk result (λ ns. option_map (λ v. v.items) ns
        ≡ all_values scene.now state.now (map expr_of exprs.now)) }
    ensures keeps { OnOk result (KeepsValues scene.now calls.new) }
{
    let mut found = Vec::new(alloc);
    for expr in exprs {
        match number_of_value(value_of(alloc, scene, state, calls, expr)?) {
            Some(number) => found.push(number)?,
            None => return Ok(None),
        }
    }
    Ok(Some(found))
}

/// The value of a function at some numbers.
#[cycle(value_of)]
fn apply(
    alloc: Global,
    scene: &Scene<'_>,
    calls: &mut KeptCalls,
    name: &[u8],
    args: &[u128],
) -> Result<Option<Value>, NoMemory>
    requires functions { SeesFunctions scene.now }
    requires keeps { KeepsValues scene.now calls.old }
    ensures value { IfOk result (λ v. option_map meant v ≡ applied scene.now name.now args.now) }
    ensures keeps { OnOk result (KeepsValues scene.now calls.new) }
{
    match find(scene.checked, scene.defs, scene.before, name) {
        Some(number) => call(alloc, scene, calls, number, args),
        None => Ok(None),
    }
}

/// The value of the function of a number, by its table or by its body.
#[cycle(value_of)]
fn call(
    alloc: Global,
    scene: &Scene<'_>,
    calls: &mut KeptCalls,
    number: FunId,
    args: &[u128],
) -> Result<Option<Value>, NoMemory>
    requires functions { SeesFunctions scene.now }
    requires within { number < scene.now.before }
    requires keeps { KeepsValues scene.now calls.old }
    ensures value { (g : FunctionDecl)
        → slice_get (functions (design_of scene.now.checked.now)) number ≡ Some g
        → IfOk result (λ v. option_map meant v ≡ called_by scene.now number g args.now) }
    ensures keeps { OnOk result (KeepsValues scene.now calls.new) }
{
    let function = scene.checked.function(number);
    match &function.body {
        Some(body) => call_once(alloc, scene, calls, number, function, body, args),
        None => match table_at(scene.defs, number) {
            Some(table) => table_value(alloc, function.result, scene.defs, number, table, args),
            None => Ok(None),
        },
    }
}

/// The value of a function with a body: the value that is kept of the call, or else that of the body,
/// which is then kept.
#[cycle(value_of)]
fn call_once(
    alloc: Global,
    scene: &Scene<'_>,
    calls: &mut KeptCalls,
    number: FunId,
    function: &Function,
    body: &Expr,
    args: &[u128],
) -> Result<Option<Value>, NoMemory>
    requires functions { SeesFunctions scene.now }
    requires within { number < scene.now.before }
    requires keeps { KeepsValues scene.now calls.old }
    requires is { slice_get (functions (design_of scene.now.checked.now)) number
        ≡ Some (function_of function.now) }
    requires body { function.now.body ≡ Some body.now }
    ensures value { IfOk result (λ v. option_map meant v
        ≡ called_by scene.now number (function_of function.now) args.now) }
    ensures keeps { OnOk result (KeepsValues scene.now calls.new) }
{
    let key = call_key(alloc, number, args)?;
    if let Some(value) = calls.get(&key) {
        return Ok(value);
    }
    let value = call_bound(alloc, scene, calls, number, function, body, args)?;
    calls.keep(key, value)?;
    Ok(value)
}

/// The value of the body of a function at some numbers.
#[cycle(value_of)]
fn call_bound(
    alloc: Global,
    scene: &Scene<'_>,
    calls: &mut KeptCalls,
    number: FunId,
    function: &Function,
    body: &Expr,
    args: &[u128],
) -> Result<Option<Value>, NoMemory>
    requires functions { SeesFunctions scene.now }
    requires within { number < scene.now.before }
    requires keeps { KeepsValues scene.now calls.old }
    requires is { slice_get (functions (design_of scene.now.checked.now)) number
        ≡ Some (function_of function.now) }
    requires body { function.now.body ≡ Some body.now }
    ensures value { IfOk result (λ v. option_map meant v
        ≡ called_by scene.now number (function_of function.now) args.now) }
    ensures keeps { OnOk result (KeepsValues scene.now calls.new) }
{
    match bind(alloc, &function.params, args)? {
        Some(variables) => call_body(alloc, scene, calls, number, variables, body),
        None => Ok(None),
    }
}

/// The value of the body of the function of a number, with its arguments.
#[cycle(value_of)]
fn call_body(
    alloc: Global,
    scene: &Scene<'_>,
    calls: &mut KeptCalls,
    number: FunId,
    variables: Vec<Binding>,
    body: &Expr,
) -> Result<Option<Value>, NoMemory>
    requires functions { SeesFunctions scene.now }
    requires within { number < scene.now.before }
    requires keeps { KeepsValues scene.now calls.old }
    ensures value { IfOk result (λ v. option_map meant v
        ≡ body_value scene.now number variables.items (expr_of body.now)) }
    ensures keeps { OnOk result (KeepsValues scene.now calls.new) }
{
    let fields = Vec::new(alloc);
    let state = State { variables, fields };
    let inner = Scene {
        before: number,
        headers: &[],
        ..*scene
    };
    value_of(alloc, &inner, &state, calls, body)
}
