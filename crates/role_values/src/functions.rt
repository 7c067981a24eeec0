//! Functions of a design: which one a name stands for, and the values of those that have tables.
ghost use Rattle.std.specs.Prelude.{◌≡◌, if◌then◌else◌, IfOk, None, option_map, Some};
ghost use Rattle.cocoon_syntax.specs.TreeOf.{design_of, result_of};
ghost use Rattle.role_values.specs.ByTables as by;
ghost use Rattle.role_values.specs.ByTables.{all_fit_widths, CanEvaluate, HasShape};
ghost use Rattle.role_values.specs.DeclaredWidths.{AllDeclared};
ghost use Rattle.role_values.specs.Finds.{Finds};
ghost use Rattle.role_values.specs.Meant.{meant};

use crate::bindings::{fits, is_same};
use crate::value::Value;
use cocoon_num::{Bits, FunTable, NoMemory};
use cocoon_resolve::Checked;
use cocoon_syntax::ResultKind;
use declarations::FunId;
use runtime_defs::Defs;
use std::alloc::Global;

/// The number of the last function of a name among the first functions, so many.
pub(crate) fn find(checked: &Checked, defs: &Defs, before: u32, name: &[u8]) -> Option<FunId>
    requires { CanEvaluate (design_of checked.now) defs.now before }
    ensures { Finds (design_of checked.now) defs.now before name.now result }
{
    let mut at = before;
    while at > 0 {
        at -= 1;
        if is_same(name, checked.function(at).name.text.bytes()) {
            return Some(at);
        }
    }
    None
}

/// The table of a function, if it has one.
pub(crate) fn table_at(defs: &Defs, function: FunId) -> Option<&FunTable>
    ensures { option_map (λ t. t.now) result ≡ by.table_at defs.now function }
{
    defs.tables().get(function as usize)?.as_ref()
}

/// The arguments, where they fit the widths of a table.
fn narrow(alloc: Global, widths: &[u8], args: &[u128]) -> Result<Option<Vec<u64>>, NoMemory>
    requires { AllDeclared widths.now }
    ensures { IfOk result (λ narrowed. option_map (λ ns. ns.items) narrowed
        ≡ (if all_fit_widths widths.now args.now then Some args.now else None)) }
{
    if widths.len() != args.len() {
        return Ok(None);
    }
    let mut narrowed = Vec::new(alloc);
    for (index, number) in args.iter().enumerate() {
        if !fits(u32::from(widths[index]), *number) {
            return Ok(None);
        }
        narrowed.push(*number as u64)?;
    }
    Ok(Some(narrowed))
}

/// What a result of a table stands for.
fn result_value(kind: ResultKind, result_bits: Bits) -> Value
    ensures { meant result ≡ by.result_value (result_of kind) result_bits }
{
    match kind {
        ResultKind::Width(_) => Value::Number(result_bits),
        ResultKind::Truth => Value::Truth(result_bits.value == 1),
    }
}

/// The value of the table of a function at arguments that fit it.
pub(crate) fn table_value(
    alloc: Global,
    kind: ResultKind,
    defs: &Defs,
    function: FunId,
    table: &FunTable,
    args: &[u128],
) -> Result<Option<Value>, NoMemory>
    requires shape { HasShape table.now }
    requires is_there { by.table_at defs.now function ≡ Some table.now }
    ensures { IfOk result (λ v. option_map meant v
        ≡ by.table_value (result_of kind) (Some table.now) args.now) }
{
    match narrow(alloc, table.widths.items(), args)? {
        Some(args) => Ok(Some(result_value(kind, defs.look(function, &args)))),
        None => Ok(None),
    }
}
