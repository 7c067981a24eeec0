//! The tables of all functions.
ghost use Rattle.std.specs.Prelude.{◌≡◌, ◌<◌, ◌≤◌, All, false, IfOk, length, map, nat_lt, true};
ghost use Rattle.cocoon_num.specs.Lists.{is_one_of};
ghost use Rattle.cocoon_num.specs.Values.{truth};
ghost use Rattle.cocoon_resolve.specs.Resolved.{Resolves};
ghost use Rattle.cocoon_syntax.specs.TreeOf.{design_of, function_of, param_of, result_of};
ghost use Rattle.cocoon_types.specs.Design.{functions, widths_of};
ghost use Rattle.runtime_defs.specs.Printable as spec;
ghost use Rattle.runtime_defs.specs.Printable.{FitsDesign, literal_functions};
ghost use Rattle.runtime_defs.specs.EntryPlaces.{result_value};
ghost use Rattle.cocoon_types.specs.Names.{IsNamed};
ghost use Rattle.runtime_defs.specs.Made.{ArePlaces, HasWidths, IsPlace, IsTable, IsWidth};
ghost use Rattle.runtime_defs.specs.Tables.{AreOfDesign, HaveFirstRows};

use crate::defaults::Defaults;
use crate::literal_functions::is_literal;
use crate::lookups::Lookup;
use crate::rows::rows_of;
use cocoon_num::{Bits, FunRow, FunTable, List, NoMemory};
use cocoon_resolve::Checked;
use cocoon_syntax::{FunctionDecl, Param, ResultKind};
use declarations::FunId;
use std::alloc::Global;

fn width_of(param: &Param) -> u8
    requires { IsWidth param.now.width }
    ensures { result ≡ param.now.width }
{
    param.width as u8
}

fn param_widths(alloc: Global, params: &[Param]) -> Result<Vec<u8>, NoMemory>
    requires { All IsWidth (widths_of (map param_of params.now)) }
    ensures { IfOk result (λ widths. widths.items ≡ widths_of (map param_of params.now)) }
{
    let mut widths = Vec::new(alloc);
    for param in params {
        widths.push(width_of(param))?;
    }
    Ok(widths)
}

/// The width of a result: a truth value is a number of width 1.
fn result_width(kind: ResultKind) -> u8
    requires { IsWidth (spec.result_width (result_of kind)) }
    ensures { result ≡ spec.result_width (result_of kind) }
{
    match kind {
        ResultKind::Width(width) => width as u8,
        ResultKind::Truth => 1,
    }
}

/// `false`. A number has no such value; the rules do not let it come to that.
fn false_value(kind: ResultKind) -> Result<Bits, NoMemory>
    ensures width { IfOk result (λ value. value.width ≡ spec.result_width (result_of kind)) }
    ensures value { IfOk result (λ value. result_value (result_of kind) value ≡ truth false) }
{
    match kind {
        ResultKind::Width(_) => Err(NoMemory),
        ResultKind::Truth => Ok(Bits::new(1, 0)),
    }
}

/// The default of the function of this number, which has these rows.
fn default_of(
    checked: &Checked,
    number: FunId,
    function: &FunctionDecl,
    rows: &[FunRow],
    defaults: Defaults,
) -> Result<Bits, NoMemory>
    requires { HasWidths (function_of function.now) }
    ensures width { IfOk result (λ value.
        value.width ≡ spec.result_width (function_of function.now).result) }
    ensures literal { is_one_of (literal_functions (design_of checked.now))
        (function_of function.now).name.text ≡ true → IfOk result (λ value.
        result_value (function_of function.now).result value ≡ truth false) }
{
    if is_literal(checked, function.name.text.bytes()) {
        return false_value(function.result);
    }
    Ok(defaults.of(number, result_width(function.result), rows))
}

/// The table of a function that is defined at run time.
fn table_of(
    alloc: Global,
    checked: &Checked,
    number: FunId,
    function: &FunctionDecl,
    lookups: &[Lookup],
    defaults: Defaults,
) -> Result<FunTable, NoMemory>
    requires { HasWidths (function_of function.now) }
    ensures { IfOk result (λ table. IsTable (design_of checked.now)
        lookups.now number (function_of function.now) table) }
{
    let widths = param_widths(alloc, &function.params)?;
    let rows = rows_of(alloc, &widths, number, lookups)?;
    let default = default_of(checked, number, function, &rows, defaults)?;
    Ok(FunTable {
        widths: List::from(widths),
        rows: List::from(rows),
        default,
    })
}

/// What stands at the place of a function.
fn place_of(
    alloc: Global,
    checked: &Checked,
    number: FunId,
    function: &FunctionDecl,
    lookups: &[Lookup],
    defaults: Defaults,
) -> Result<Option<FunTable>, NoMemory>
    requires { HasWidths (function_of function.now) }
    ensures { IfOk result (λ place. IsPlace (design_of checked.now)
        lookups.now number (function_of function.now) place) }
{
    match function.body {
        None => {
            let table = table_of(alloc, checked, number, function, lookups, defaults)?;
            Ok(Some(table))
        }
        Some(_) => Ok(None),
    }
}

/// Whether the design has a function of this number.
fn is_function(checked: &Checked, number: FunId) -> bool
    ensures is { result ≡ nat_lt number (length (functions (design_of checked.now))) }
    ensures few { result ≡ true → number < 128 }
{
    checked.names().function(checked.design(), number).is_some()
}

/// How many functions the design has.
fn function_count(checked: &Checked) -> u32
    ensures count { result ≡ length (functions (design_of checked.now)) }
    ensures bound { result ≤ 128 }
{
    let mut count = 0;
    while is_function(checked, count) {
        count += 1;
    }
    count
}

/// The design keeps the rules, and its functions have names.
fn keeps_rules(checked: &Checked)
    ensures resolves { Resolves (design_of checked.now) }
    ensures named { All IsNamed (functions (design_of checked.now)) }
{
    checked.design();
    checked.know_reading();
}

/// A place for each function, in the order of declaration.
fn places_of(
    alloc: Global,
    checked: &Checked,
    lookups: &[Lookup],
    defaults: Defaults,
) -> Result<Vec<Option<FunTable>>, NoMemory>
    ensures { IfOk result (λ tables. ArePlaces (design_of checked.now)
        lookups.now 0 (functions (design_of checked.now)) tables.items) }
{
    keeps_rules(checked);
    let mut tables = Vec::new(alloc);
    for number in 0..function_count(checked) {
        let function = checked.function(number);
        tables.push(place_of(alloc, checked, number, function, lookups, defaults)?)?;
    }
    Ok(tables)
}

/// A table for each function that is defined at run time: a row for each list of arguments that it
/// was looked up at, all bits of which give what it gave there first. No row comes twice. The
/// default is `false` where it must be, else it is one of these.
pub fn tables_of(
    alloc: Global,
    checked: &Checked,
    lookups: &[Lookup],
    defaults: Defaults,
) -> Result<Vec<Option<FunTable>>, NoMemory>
    requires { AreOfDesign (design_of checked.now) lookups.now }
    ensures fits { IfOk result (λ tables. FitsDesign (design_of checked.now) tables.items) }
    ensures rows { IfOk result (λ tables. HaveFirstRows lookups.now tables.items) }
{
    let tables = places_of(alloc, checked, lookups, defaults)?;
    Ok(tables)
}
