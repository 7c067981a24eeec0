//! Parts of rows, laid side by side.
ghost use Rattle.std.specs.Prelude.{All, ◌≡◌, ◌+◌, ◌++◌, ◌≤◌, drop, IfOk, length, map, OnOk, take};
ghost use Rattle.p4_ir.specs.NetOf.{key_row_of};
ghost use Rattle.row_search.specs.Keyed.{HasKeys};
ghost use Rattle.row_search.specs.Laid as spec;

use cocoon_num::NoMemory;
use p4_ir::KeyRow;
use std::alloc::Global;

/// So many numbers from an index on.
#[inline(always)]
pub(crate) fn laid_row(values: &[u64], at: usize, count: usize) -> &[u64]
    requires { at + count ≤ length values.now }
    ensures { result.now ≡ take count (drop at values.now) }
{
    &values[at..at + count]
}

/// The results of some rows.
pub(crate) fn row_results(alloc: Global, rows: &[KeyRow]) -> Result<Vec<u64>, NoMemory>
    ensures { IfOk result (λ v. v.items ≡ spec.results_of (map key_row_of rows.now)) }
{
    let mut results = Vec::new(alloc);
    for row in rows {
        results.push(row.result)?;
    }
    Ok(results)
}

/// Appends numbers, each in the bits of its mask.
fn push_masked(laid: &mut Vec<u64>, masks: &[u64], numbers: &[u64]) -> Result<(), NoMemory>
    requires { length numbers.now ≡ length masks.now }
    ensures { OnOk result (laid.new.items ≡ laid.old.items ++ spec.masked masks.now numbers.now) }
{
    for (index, mask) in masks.iter().enumerate() {
        laid.push(numbers[index] & *mask)?;
    }
    Ok(())
}

/// The values of some rows, each in the bits of these masks.
pub(crate) fn masked_values(
    alloc: Global,
    masks: &[u64],
    rows: &[KeyRow],
) -> Result<Vec<u64>, NoMemory>
    requires { All (HasKeys (length masks.now)) rows.now }
    ensures { IfOk result (λ v. v.items ≡ spec.masked_values masks.now (map key_row_of rows.now)) }
{
    let mut laid = Vec::new(alloc);
    for row in rows {
        push_masked(&mut laid, masks, row.values.items())?;
    }
    Ok(laid)
}
