//! The rows of one part, each with its place among all rows as its result.
ghost use Rattle.std.specs.Prelude.{◌≡◌, IfOk, length, map};
ghost use Rattle.p4_ir.specs.NetOf.{key_row_of};
ghost use Rattle.row_search.specs.Placed as spec;

use cocoon_num::copies::Copied;
use cocoon_num::{List, NoMemory};
use p4_ir::{KeyRow, TableRows};
use std::alloc::Global;

/// The same row, with its place as its result.
fn placed_row(alloc: Global, row: &KeyRow, place: usize) -> Result<KeyRow, NoMemory>
    ensures { IfOk result (λ placed. key_row_of placed ≡ spec.placed place (key_row_of row.now)) }
{
    let copy = row.copy(alloc)?;
    let KeyRow { values, masks, .. } = copy;
    Ok(KeyRow {
        values,
        masks,
        result: place as u64,
    })
}

/// The rows of a part, in their order, for which the place behind all rows says that none matches.
pub(crate) fn placed_rows(
    alloc: Global,
    rows: &[KeyRow],
    numbers: &[u8],
    part: usize,
) -> Result<TableRows, NoMemory>
    requires { length numbers.now ≡ length rows.now }
    ensures rows { IfOk result (λ made. map key_row_of made.rows
        ≡ spec.placed_in part 0 numbers.now (map key_row_of rows.now)) }
    ensures none { IfOk result (λ made. made.default ≡ length rows.now) }
{
    let mut placed = Vec::new(alloc);
    for (place, row) in rows.iter().enumerate() {
        if usize::from(numbers[place]) == part {
            placed.push(placed_row(alloc, row, place)?)?;
        }
    }
    Ok(TableRows {
        number: 0,
        default: rows.len() as u64,
        rows: List::from(placed),
    })
}
