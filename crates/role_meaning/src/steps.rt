//! Statements without blocks.
ghost use Rattle.std.specs.Prelude.{◌≡◌, if◌then◌else◌, IfOk, map, None, OnOk, option_and_then, option_map, Some};
ghost use Rattle.cocoon_num.specs.Tree as tree;
ghost use Rattle.cocoon_num.specs.Values.{as_number};
ghost use Rattle.cocoon_syntax.specs.TreeOf.{block_of, expr_of, exprs_of, name_of, stmt_of};
ghost use Rattle.role_meaning.specs.Levels.{CanRun, truth_in};
ghost use Rattle.role_meaning.specs.Progresses.{ended_of, EndsAt, Enters, Fits, Grows, picked, Runs, set_to};
ghost use Rattle.role_values.specs.Meant.{meant};
ghost use Rattle.role_values.specs.Scenes.{value_in};

use crate::level::{Level, is_true, truth};
use crate::place::Loc;
use crate::progress::{End, Progress};
use cocoon_num::NoMemory;
use cocoon_syntax::{Expr, Name, Stmt};
use role_values::fields::write_field;
use role_values::{Value, evaluate, evaluate_all};
use std::alloc::Global;

fn falls_if(does: bool) -> Option<End>
    ensures { result ≡ (if does then Some End.Falls else None) }
{
    if does { Some(End::Falls) } else { None }
}

pub(crate) fn bind_value(
    alloc: Global,
    level: &Level<'_>,
    progress: &mut Progress<'_>,
    name: &Name,
    expr: &Expr,
) -> Result<Option<End>, NoMemory>
    requires ready { CanRun level.now }
    requires fits { Fits level.now progress.old }
    ensures runs { IfOk result (λ end. Runs level.now progress.old
        (tree.let_ 0 (name_of name.now) 0 (expr_of expr.now)) end progress.new) }
    ensures fits { OnOk result (Fits level.now progress.new) }
    ensures grows { OnOk result (Grows progress.old progress.new) }
{
    let Some(value) = evaluate(alloc, &level.scene, &progress.state, expr)? else {
        return Ok(None);
    };
    progress.bind(alloc, name, value)?;
    Ok(Some(End::Falls))
}

/// Sets a field to a number that fits it.
fn write(
    level: &Level<'_>,
    progress: &mut Progress<'_>,
    header: &Name,
    field: &Name,
    number: u128,
) -> Option<End>
    requires ready { CanRun level.now }
    requires fits { Fits level.now progress.old }
    ensures writes { ended_of level.now result progress.new
        ≡ set_to level.now progress.old header.now.text field.now.text number }
    ensures fits { Fits level.now progress.new }
    ensures same { progress.new.state.variables ≡ progress.old.state.variables }
{
    let (header, field) = (header.text.bytes(), field.text.bytes());
    let headers = level.scene.headers;
    falls_if(write_field(headers, &mut progress.state.fields, header, field, number))
}

pub(crate) fn set_field(
    alloc: Global,
    level: &Level<'_>,
    progress: &mut Progress<'_>,
    header: &Name,
    field: &Name,
    expr: &Expr,
) -> Result<Option<End>, NoMemory>
    requires ready { CanRun level.now }
    requires fits { Fits level.now progress.old }
    ensures runs { IfOk result (λ end. Runs level.now progress.old
        (tree.set_field 0 (name_of header.now) (name_of field.now) (expr_of expr.now))
        end progress.new) }
    ensures fits { OnOk result (Fits level.now progress.new) }
    ensures same { OnOk result (progress.new.state.variables ≡ progress.old.state.variables) }
{
    match number_of_value(evaluate(alloc, &level.scene, &progress.state, expr)?) {
        Some(number) => Ok(write(level, progress, header, field, number)),
        None => Ok(None),
    }
}

fn number_of_value(value: Option<Value>) -> Option<u128>
    ensures { result ≡ option_and_then as_number (option_map meant value) }
{
    value?.number()
}

pub(crate) fn choose_variable(
    alloc: Global,
    level: &Level<'_>,
    progress: &mut Progress<'_>,
    name: &Name,
    width: u32,
) -> Result<Option<End>, NoMemory>
    requires { Fits level.now progress.old }
    ensures runs { IfOk result (λ end. Runs level.now progress.old
        (tree.havoc_var 0 (name_of name.now) width) end progress.new) }
    ensures fits { OnOk result (Fits level.now progress.new) }
    ensures grows { OnOk result (Grows progress.old progress.new) }
{
    match progress.choose(width) {
        Some(value) => {
            progress.bind(alloc, name, value)?;
            Ok(Some(End::Falls))
        }
        None => Ok(None),
    }
}

pub(crate) fn choose_field(
    level: &Level<'_>,
    progress: &mut Progress<'_>,
    header: &Name,
    field: &Name,
) -> Option<End>
    requires ready { CanRun level.now }
    requires fits { Fits level.now progress.old }
    ensures runs { Runs level.now progress.old
        (tree.havoc_field 0 (name_of header.now) (name_of field.now)) result progress.new }
    ensures fits { Fits level.now progress.new }
    ensures same { progress.new.state.variables ≡ progress.old.state.variables }
{
    let choice = progress.take()?;
    write(level, progress, header, field, u128::from(choice))
}

/// Falls where a condition is true.
pub(crate) fn fall_where(
    alloc: Global,
    level: &Level<'_>,
    progress: &Progress<'_>,
    condition: &Expr,
) -> Result<Option<End>, NoMemory>
    requires ready { CanRun level.now }
    requires fits { Fits level.now progress.now }
    ensures { IfOk result (λ end. Runs level.now progress.now
        (tree.filter 0 (expr_of condition.now)) end progress.now) }
{
    Ok(falls_if(is_true(alloc, &level.scene, &progress.state, condition)?))
}

/// One of two blocks, by the value of a condition.
pub(crate) fn pick<'b>(
    alloc: Global,
    level: &Level<'_>,
    progress: &Progress<'_>,
    condition: &Expr,
    first: &'b [Stmt],
    second: &'b [Stmt],
) -> Result<Option<&'b [Stmt]>, NoMemory>
    requires ready { CanRun level.now }
    requires fits { Fits level.now progress.now }
    ensures { IfOk result (λ block. option_map (λ b. block_of (map stmt_of b.now)) block
        ≡ picked (truth_in (value_in level.now.scene progress.now.state (expr_of condition.now)))
        (block_of (map stmt_of first.now)) (block_of (map stmt_of second.now))) }
{
    match truth(alloc, &level.scene, &progress.state, condition)? {
        Some(true) => Ok(Some(first)),
        Some(false) => Ok(Some(second)),
        None => Ok(None),
    }
}

/// Binds the variable of a fork to a choice. False where there is none that fits, or the condition
/// is not true of it.
pub(crate) fn enter_fork(
    alloc: Global,
    level: &Level<'_>,
    progress: &mut Progress<'_>,
    name: &Name,
    width: u32,
    condition: &Expr,
) -> Result<bool, NoMemory>
    requires ready { CanRun level.now }
    requires fits { Fits level.now progress.old }
    ensures enters { IfOk result (λ does. Enters level.now progress.old
        (name_of name.now) width (expr_of condition.now) does progress.new) }
    ensures fits { OnOk result (Fits level.now progress.new) }
    ensures grows { OnOk result (Grows progress.old progress.new) }
{
    match progress.choose(width) {
        Some(value) => {
            progress.bind(alloc, name, value)?;
            is_true(alloc, &level.scene, &progress.state, condition)
        }
        None => Ok(false),
    }
}

pub(crate) fn send(
    alloc: Global,
    level: &Level<'_>,
    progress: &Progress<'_>,
    role: &Name,
    args: &[Expr],
) -> Result<Option<End>, NoMemory>
    requires ready { CanRun level.now }
    requires fits { Fits level.now progress.now }
    ensures at { IfOk result (λ end. EndsAt level.now end) }
    ensures runs { IfOk result (λ end. Runs level.now progress.now
        (tree.send 0 (name_of role.now) (exprs_of (map expr_of args.now))) end progress.now) }
{
    match evaluate_all(alloc, &level.scene, &progress.state, args)? {
        Some(values) => Ok(sent(level.arrive(alloc, role.text.bytes(), &values)?)),
        None => Ok(None),
    }
}

fn sent(at: Option<Loc>) -> Option<End>
    ensures { result ≡ option_map End.Sends at }
{
    Some(End::Sends(at?))
}
