//! Rows that all have the same masks, in the order of their values.
ghost use Rattle.std.specs.Prelude.{All, ◌≡◌, ◌*◌, ◌<◌, IfOk, length, List, map, ℕ};
ghost use Rattle.std.proofs.Props.{props};
ghost use Rattle.p4_ir.specs.NetOf.{key_row_of};
ghost use Rattle.row_search.specs.Keyed.{HasKeys};
ghost use Rattle.row_search.specs.Laid.{Ascend, laid_at, masked_values, results_of};
ghost use Rattle.row_search.specs.Pairs.{found, pairs_of};

use crate::first_results::{LaidPairs, first_pairs};
use crate::laying::{masked_values, row_results};
use cocoon_num::NoMemory;
use p4_ir::KeyRow;
use std::alloc::Global;

/// The masks of all rows; the values of the rows in the bits of these, in ascending order, the first of equal rows only, one
/// row after another; and the results.
#[derive(Drop)]
pub(crate) struct SortedRows {
    pub(crate) masks: Vec<u64>,
    pub(crate) values: Vec<u64>,
    pub(crate) results: Vec<u64>,
    ghost some: { 0 < length masks.items },
    ghost many: { length values.items ≡ length results.items * length masks.items },
    ghost sorted: { Ascend (laid_at (length masks.items) values.items)
        (length results.items) } by { Prim.hlevel props },
}

impl SortedRows {
    /// Rows whose masks are these.
    pub(crate) fn new(alloc: Global, masks: &[u64], rows: &[KeyRow]) -> Result<SortedRows, NoMemory>
        requires some { 0 < length masks.now }
        requires rows { All (HasKeys (length masks.now)) rows.now }
        ensures masks { IfOk result (λ s. s.masks.items ≡ masks.now) }
        ensures found { IfOk result (λ s. (xs : List ℕ) → found
            (pairs_of (length s.masks.items) s.values.items s.results.items) xs
            ≡ found (pairs_of (length masks.now) (masked_values masks.now (map key_row_of rows.now))
            (results_of (map key_row_of rows.now))) xs) }
    {
        let values = masked_values(alloc, masks, rows)?;
        let results = row_results(alloc, rows)?;
        let LaidPairs { values, results } = first_pairs(alloc, masks.len(), &values, &results)?;
        Ok(SortedRows {
            masks: masks.to_vec(alloc)?,
            values,
            results,
        })
    }
}
