//! Rows in parts: what a part finds is the place of a row.
ghost use Rattle.std.specs.Prelude.{All, ◌≡◌, ◌<◌, get_or, IfOk, length, List, map, true, ℕ};
ghost use Rattle.row_search.specs.Held.{key_count};
ghost use Rattle.row_search.specs.Keyed.{HasKeys, keyed};
ghost use Rattle.p4_ir.specs.NetOf.{key_row_of};
ghost use Rattle.p4_ir.specs.Switch.{table_result};
ghost use Rattle.row_search.specs.GroupsHeld.{parted_answer};
ghost use Rattle.row_search.specs.Least.{FindPlaces, FindsPlace};
ghost use Rattle.row_search.specs.Least as least;
ghost use Rattle.row_search.specs.Placed as spec;

use crate::FlatRows;
use crate::dividing::part_count;
use crate::parts::PartedRows;
use crate::placing::placed_rows;
use cocoon_num::NoMemory;
use p4_ir::KeyRow;
use std::alloc::Global;

// ---- laying

fn row_results(alloc: Global, rows: &[KeyRow]) -> Result<Vec<u64>, NoMemory>
    ensures { IfOk result (λ v. v.items ≡ spec.results_of (map key_row_of rows.now)) }
{
    let mut results = Vec::new(alloc);
    for row in rows {
        results.push(row.result)?;
    }
    Ok(results)
}

/// The rows of one part.
fn laid_part(
    alloc: Global,
    count: usize,
    rows: &[KeyRow],
    numbers: &[u8],
    part: usize,
) -> Result<FlatRows, NoMemory>
    requires rows { All (HasKeys count) rows.now }
    requires numbers { length numbers.now ≡ length rows.now }
    ensures keys { IfOk result (λ laid. key_count laid ≡ count) }
    ensures place { IfOk result (λ laid.
        FindsPlace count part numbers.now (map key_row_of rows.now) laid) }
{
    let placed = placed_rows(alloc, rows, numbers, part)?;
    let laid = FlatRows::new(alloc, count, &placed)?;
    Ok(laid)
}

fn laid_parts(
    alloc: Global,
    count: usize,
    rows: &[KeyRow],
    numbers: &[u8],
) -> Result<Vec<FlatRows>, NoMemory>
    requires rows { All (HasKeys count) rows.now }
    requires numbers { length numbers.now ≡ length rows.now }
    ensures keys { IfOk result (λ parts. All (λ part. key_count part ≡ count) parts.items) }
    ensures places { IfOk result (λ parts.
        FindPlaces count (λ number. true) numbers.now (map key_row_of rows.now) parts.items) }
{
    let mut parts = Vec::new(alloc);
    let most = part_count(numbers);
    for part in 0..most {
        parts.push(laid_part(alloc, count, rows, numbers, part)?)?;
    }
    Ok(parts)
}

// ---- looking

#[inline(always)]
fn earlier(one: u64, other: u64) -> u64
    ensures { result ≡ least.earlier one other }
{
    if other < one { other } else { one }
}

/// The result of the row at a place, where there is one.
#[inline(always)]
fn result_at(results: &[u64], place: u64, default: u64) -> u64
    ensures { result ≡ get_or results.now place default }
{
    match results.get(place as usize) {
        Some(found) => *found,
        None => default,
    }
}

/// The least place that parts find, or another that is before it.
fn least_place(parts: &[FlatRows], place: u64, keys: &[u32], meta: &[u64]) -> u64
    requires some { 0 < length keys.now }
    requires many { All (λ part. length keys.now ≡ key_count part) parts.now }
    requires keys { All (λ key. key < length meta.now) keys.now }
    ensures { result ≡ least.least_place place parts.now (keyed meta.now keys.now) }
{
    let mut found = place;
    for part in parts {
        found = earlier(found, part.look(keys, meta));
    }
    found
}

impl PartedRows {
    /// Lays the rows of a table with so many keys in the parts of these numbers.
    pub(crate) fn new(
        alloc: Global,
        count: usize,
        rows: &[KeyRow],
        default: u64,
        numbers: &[u8],
    ) -> Result<PartedRows, NoMemory>
        requires rows { All (HasKeys count) rows.now }
        requires numbers { length numbers.now ≡ length rows.now }
        ensures count { IfOk result (λ laid. laid.count ≡ count) }
        ensures answers { (xs : List ℕ) → length xs ≡ count → IfOk result (λ laid.
            parted_answer laid xs ≡ table_result (map key_row_of rows.now) default xs) }
    {
        let parts = laid_parts(alloc, count, rows, numbers)?;
        let results = row_results(alloc, rows)?;
        Ok(PartedRows {
            count,
            parts,
            results,
            default,
        })
    }

    /// The result of the first row that matches the numbers in some keys, else the default.
    pub(crate) fn look(&self, keys: &[u32], meta: &[u64]) -> u64
        requires some { 0 < length keys.now }
        requires many { length keys.now ≡ self.now.count }
        requires keys { All (λ key. key < length meta.now) keys.now }
        ensures { result ≡ parted_answer self.now (keyed meta.now keys.now) }
    {
        let none = self.results.len() as u64;
        let place = least_place(&self.parts, none, keys, meta);
        result_at(&self.results, place, self.default)
    }
}
