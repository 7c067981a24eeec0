//! Calls of functions: their arguments, tables and results.
ghost use Rattle.std.specs.Prelude.{◌≡◌, ◌<◌, ◌++◌, IfOk, map, slice_get, Some};
ghost use Rattle.cocoon_num.specs.Tree.{Design};
ghost use Rattle.cocoon_syntax.specs.TreeOf.{function_of, param_of, result_of};
ghost use Rattle.cocoon_types.specs.Design.{functions};
ghost use Rattle.p4_ir.specs.P4Tree.{p_lit};
ghost use Rattle.p4_ir.specs.Program.{expr_of, stmt_of, table_of};
ghost use Rattle.lowering.specs.Lower as lower;
ghost use Rattle.lowering.specs.Lower.{after_args, fields_from, var_name};
ghost use Rattle.lower_code.specs.Growth.{applied_code, applied_counts, applied_fields, counts_of, grown, keeps_result, reached, so_far, table_for, with_expr};
ghost use Rattle.lower_code.specs.Variables.{variables_of};

use crate::made::{FieldName, Lowering, Made, after};
use crate::variables::{Variable, parameters};
use cocoon_num::{Bits, List, NoMemory};
use cocoon_syntax::{FunctionDecl, Param, ResultKind};
use declarations::FunId;
use p4_ir::{P4Binary, P4Expr, P4Stmt, Table};
use std::alloc::Global;

/// Sets the meta fields from the first on to arguments.
fn set_fields(code: &mut Vec<P4Stmt>, first: u32, args: Vec<P4Expr>) -> Result<(), NoMemory>
    ensures { IfOk result (λ u. map stmt_of code.new.items
        ≡ map stmt_of code.old.items ++ lower.sets first (map expr_of args.items)) }
{
    let mut field = first;
    for arg in args {
        code.push(P4Stmt::SetMeta(field, arg))?;
        field = after(field)?;
    }
    Ok(())
}

/// The numbers of the meta fields of parameters, from the first on.
fn numbers(alloc: Global, first: u32, params: &[Param]) -> Result<Vec<u32>, NoMemory>
    ensures { IfOk result (λ ns. ns.items ≡ lower.numbers_from first (map param_of params.now)) }
{
    let mut numbers = Vec::new(alloc);
    let mut number = first;
    for _ in params {
        numbers.push(number)?;
        number = after(number)?;
    }
    Ok(numbers)
}

/// The width of the field that a result is kept in.
fn kind_width(kind: ResultKind) -> u32
    ensures { result ≡ lower.kind_width (result_of kind) }
{
    match kind {
        ResultKind::Width(width) => width,
        ResultKind::Truth => 1,
    }
}

fn bit(alloc: Global, value: u128) -> Result<Box<P4Expr>, NoMemory>
    requires { value < 2 }
    ensures { IfOk result (λ e. expr_of e.value ≡ p_lit 1 value) }
{
    Ok(Box::new(alloc, P4Expr::Lit(Bits::new(1, value)))?)
}

/// A result as it is kept in a field: a truth value as a bit.
fn kept(alloc: Global, kind: ResultKind, value: P4Expr) -> Result<P4Expr, NoMemory>
    ensures { IfOk result (λ e. expr_of e ≡ lower.kept (result_of kind) (expr_of value)) }
{
    match kind {
        ResultKind::Width(_) => Ok(value),
        ResultKind::Truth => {
            let condition = Box::new(alloc, value)?;
            let first = bit(alloc, 1)?;
            Ok(P4Expr::Pick(condition, first, bit(alloc, 0)?))
        }
    }
}

/// A result as it is read from its field.
fn read_back(alloc: Global, kind: ResultKind, field: u32) -> Result<P4Expr, NoMemory>
    ensures { IfOk result (λ e. expr_of e ≡ lower.read_back (result_of kind) field) }
{
    match kind {
        ResultKind::Width(_) => Ok(P4Expr::Meta(field)),
        ResultKind::Truth => {
            let kept = Box::new(alloc, P4Expr::Meta(field))?;
            Ok(P4Expr::Binary(P4Binary::Equal, kept, bit(alloc, 1)?))
        }
    }
}

/// Applies the next table to arguments for these parameters: its keys and its result, of this width, get fields.
fn apply_table(
    alloc: Global,
    to: &mut Lowering,
    code: &mut Vec<P4Stmt>,
    params: &[Param],
    exact: bool,
    width: u32,
    args: Vec<P4Expr>,
) -> Result<Table, NoMemory>
    ensures state { (d : Design) → IfOk result (λ t. so_far d to.new code.new.items
        ≡ grown (so_far d to.old code.old.items)
        (applied_code (map expr_of args.items) (counts_of to.old.counts))
        (applied_fields (map param_of params.now) width (counts_of to.old.counts))
        (applied_counts (map param_of params.now) (counts_of to.old.counts))) }
    ensures table { IfOk result (λ t. table_of t
        ≡ table_for exact (map param_of params.now) (counts_of to.old.counts)) }
{
    let number = to.counts.app;
    let first = to.counts.field;
    set_fields(code, first, args)?;
    code.push(P4Stmt::Apply(number))?;
    to.make_keys(number, params)?;
    let result = to.make_field(FieldName::Result(number), width)?;
    to.counts.app = after(number)?;
    let keys = List::from(numbers(alloc, first, params)?);
    Ok(Table {
        number,
        exact,
        keys,
        result,
    })
}

/// A call of the function of this number by its table.
pub(crate) fn by_table(
    alloc: Global,
    to: &mut Lowering,
    code: &mut Vec<P4Stmt>,
    number: FunId,
    function: &FunctionDecl,
    args: Vec<P4Expr>,
) -> Result<P4Expr, NoMemory>
    ensures { (d : Design) → slice_get (functions d) number ≡ Some (function_of function.now)
        → IfOk result (λ e. reached d to.new code.new.items e
        ≡ with_expr (so_far d to.old code.old.items) (lower.by_table (function_of function.now)
        (map expr_of args.items) (counts_of to.old.counts))) }
{
    let width = kind_width(function.result);
    let table = apply_table(alloc, to, code, &function.params, false, width, args)?;
    let value = read_back(alloc, function.result, table.result)?;
    to.made.push(Made::Table(table, number))?;
    Ok(value)
}

/// All parameters but the last, which stands for the fork's choice.
fn params_before_last(params: &[Param]) -> &[Param]
    ensures { map param_of result.now ≡ lower.params_before_last (map param_of params.now) }
{
    match params.split_last() {
        Some((_, before)) => before,
        None => params,
    }
}

/// A look-up of the group of a fork by the function of this number.
pub(crate) fn by_group(
    alloc: Global,
    to: &mut Lowering,
    code: &mut Vec<P4Stmt>,
    number: FunId,
    function: &FunctionDecl,
    args: Vec<P4Expr>,
) -> Result<P4Expr, NoMemory>
    ensures { (d : Design) → slice_get (functions d) number ≡ Some (function_of function.now)
        → IfOk result (λ e. reached d to.new code.new.items e
        ≡ with_expr (so_far d to.old code.old.items) (lower.by_group (function_of function.now)
        (map expr_of args.items) (counts_of to.old.counts))) }
{
    let table = apply_table(
        alloc,
        to,
        code,
        params_before_last(&function.params),
        true,
        16,
        args,
    )?;
    let result = table.result;
    to.made.push(Made::Group(table, number))?;
    Ok(P4Expr::Meta(result))
}

/// Keeps arguments in fields, as the variables of a function's body.
pub(crate) fn bind_args<'d>(
    alloc: Global,
    to: &mut Lowering,
    code: &mut Vec<P4Stmt>,
    function: &'d FunctionDecl,
    args: Vec<P4Expr>,
) -> Result<Vec<Variable<'d>>, NoMemory>
    ensures state { (d : Design) → IfOk result (λ vs. so_far d to.new code.new.items
        ≡ grown (so_far d to.old code.old.items)
        (lower.sets to.old.counts.field (map expr_of args.items))
        (fields_from var_name to.old.counts.variable to.old.counts.field
        (function_of function.now).params)
        (after_args (function_of function.now) (counts_of to.old.counts))) }
    ensures variables { IfOk result (λ vs. variables_of vs.items
        ≡ lower.variables_from to.old.counts.field (function_of function.now).params) }
{
    let variables = parameters(alloc, to.counts.field, &function.params)?;
    set_fields(code, to.counts.field, args)?;
    to.make_parameters(&function.params)?;
    Ok(variables)
}

/// Keeps the value of a function's body in a field of its own.
pub(crate) fn keep_result(
    alloc: Global,
    to: &mut Lowering,
    code: &mut Vec<P4Stmt>,
    kind: ResultKind,
    value: P4Expr,
) -> Result<P4Expr, NoMemory>
    ensures { (d : Design) → IfOk result (λ e. reached d to.new code.new.items e
        ≡ with_expr (so_far d to.old code.old.items)
        (keeps_result (result_of kind) (expr_of value) (counts_of to.old.counts))) }
{
    let value = kept(alloc, kind, value)?;
    let field = to.make_variable(kind_width(kind))?;
    code.push(P4Stmt::SetMeta(field, value))?;
    read_back(alloc, kind, field)
}
