//! The rows of a function: of those at equal arguments the first.
ghost use Rattle.std.specs.Prelude.{◌≡◌, ◌≤◌, ◌-◌, ◌^◌, IfOk, List as Items, OnOk, not};
ghost use Rattle.cocoon_num.specs.declared.fun_table.FunRow.{FunRow as Row};
ghost use Rattle.runtime_defs.specs.Printable.{all_ones};
ghost use Rattle.numbering.specs.KeyPlaces.{Holds};
ghost use Rattle.runtime_defs.specs.Places.{AllDeclared};
ghost use Rattle.runtime_defs.specs.RowKeys.{row_keys};
ghost use Rattle.runtime_defs.specs.FirstRows.{first_rows, has_values, with_row};
ghost use Rattle.runtime_defs.specs.LookupRows as spec;
ghost use Rattle.runtime_defs.specs.LookupRows.{rows_for};

use crate::lookups::Lookup;
use cocoon_num::{FunRow, List, NoMemory};
use declarations::FunId;
use numbering::key_table::KeyTable;
use std::alloc::Global;

/// Ones in so many bits.
#[tactic(auto, using(crate::proofs::Masks::ones_are))]
pub(crate) fn ones(width: u8) -> u64
    requires some { 1 ≤ width }
    requires few { width ≤ 64 }
    ensures { result ≡ 2 ^ width - 1 }
{
    u64::MAX >> (64 - width)
}

/// Masks that compare all bits of numbers of these widths.
fn masks(alloc: Global, widths: &[u8]) -> Result<Vec<u64>, NoMemory>
    requires { AllDeclared widths.now }
    ensures { IfOk result (λ masks. masks.items ≡ all_ones widths.now) }
{
    let mut masks = Vec::with_capacity(alloc, widths.len())?;
    for width in widths {
        masks.push(ones(*width))?;
    }
    Ok(masks)
}

/// The row that gives at these arguments what the function gave.
fn row(alloc: Global, widths: &[u8], lookup: &Lookup) -> Result<FunRow, NoMemory>
    requires { AllDeclared widths.now }
    ensures { IfOk result (λ row. row ≡ spec.row_of widths.now lookup.now) }
{
    let values = lookup.args.items().to_vec(alloc)?;
    let masks = masks(alloc, widths)?;
    Ok(FunRow {
        values: List::from(values),
        masks: List::from(masks),
        result: lookup.result,
    })
}

/// Whether none of the rows has these values. The keys are those of the rows.
fn is_new(keys: &KeyTable, values: &[u64]) -> bool
    ensures { (rows : Items Row) → Holds keys.now (row_keys rows)
        → result ≡ not (has_values rows values.now) }
{
    keys.place(values).is_none()
}

/// Pushes the row, unless one has its arguments. The keys are those of the rows.
#[tactic(auto, using(crate::proofs::Keys::kept_row, crate::proofs::Keys::keys_more, crate::proofs::Keys::new_row))]
fn push_row(
    alloc: Global,
    widths: &[u8],
    lookup: &Lookup,
    keys: &mut KeyTable,
    rows: &mut Vec<FunRow>,
) -> Result<(), NoMemory>
    requires widths { AllDeclared widths.now }
    requires keys { Holds keys.old (row_keys rows.old.items) }
    ensures rows { OnOk result
        (rows.new.items ≡ with_row rows.old.items (spec.row_of widths.now lookup.now)) }
    ensures keys { OnOk result (Holds keys.new (row_keys rows.new.items)) }
{
    let args = lookup.args.items();
    if !is_new(keys, args) {
        return Ok(());
    }
    keys.append(alloc, args)?;
    rows.push(row(alloc, widths, lookup)?)?;
    Ok(())
}

/// The rows of the function of this number, in the order of the lookups.
pub(crate) fn rows_of(
    alloc: Global,
    widths: &[u8],
    function: FunId,
    lookups: &[Lookup],
) -> Result<Vec<FunRow>, NoMemory>
    requires { AllDeclared widths.now }
    ensures { IfOk result (λ rows.
        rows.items ≡ first_rows (rows_for widths.now function lookups.now)) }
{
    let mut keys = KeyTable::new(alloc);
    let mut rows = Vec::new(alloc);
    for lookup in lookups {
        if lookup.function == function {
            push_row(alloc, widths, lookup, &mut keys, &mut rows)?;
        }
    }
    Ok(rows)
}
