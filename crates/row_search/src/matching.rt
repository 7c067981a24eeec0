//! The rows of a table that can match where one key has a given number.
ghost use Rattle.std.specs.Prelude.{◌≡◌, get_or, IfOk, map};
ghost use Rattle.p4_ir.specs.NetOf.{key_row_of};
ghost use Rattle.row_search.specs.Matching as spec;

use cocoon_num::copies::Copied;
use cocoon_num::{List, NoMemory};
use p4_ir::{KeyRow, TableRows};
use std::alloc::Global;

/// The number at a place, or 0 behind the last.
fn number_at(numbers: &[u64], place: usize) -> u64
    ensures { result ≡ get_or numbers.now place 0 }
{
    match numbers.get(place) {
        Some(number) => *number,
        None => 0,
    }
}

/// Whether a number has the bits that a row asks for at a place.
pub(crate) fn can_match(row: &KeyRow, place: usize, number: u64) -> bool
    ensures { result ≡ spec.can_match place number (key_row_of row.now) }
{
    let mask = number_at(row.masks.items(), place);
    let value = number_at(row.values.items(), place);
    number & mask == value & mask
}

/// The rows whose bits a number has, in their order.
pub(crate) fn matching_rows(
    alloc: Global,
    rows: &[KeyRow],
    default: u64,
    place: usize,
    number: u64,
) -> Result<TableRows, NoMemory>
    ensures rows { IfOk result (λ made. map key_row_of made.rows
        ≡ spec.matching place number (map key_row_of rows.now)) }
    ensures default { IfOk result (λ made. made.default ≡ default) }
{
    let mut matching = Vec::new(alloc);
    for row in rows {
        if can_match(row, place, number) {
            matching.push(row.copy(alloc)?)?;
        }
    }
    Ok(TableRows {
        number: 0,
        default,
        rows: List::from(matching),
    })
}
