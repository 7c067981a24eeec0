//! Rows of which one key mostly has a number that is known beforehand: those that can match it are laid besides, in groups. All
//! are kept for other numbers, in their order.
ghost use Rattle.std.specs.Prelude.{All, ◌≡◌, ◌<◌, get_or, IfOk, length, List, map, ℕ};
ghost use Rattle.row_search.specs.Keyed.{HasKeys, keyed};
ghost use Rattle.p4_ir.specs.NetOf.{key_row_of};
ghost use Rattle.p4_ir.specs.Switch.{table_result};
ghost use Rattle.row_search.specs.GroupsHeld.{key_count};
ghost use Rattle.row_search.specs.GroupsLaid.{known_answer};

use crate::grouped::GroupedRows;
use crate::known_rows::KnownRows;
use crate::matching::matching_rows;
use cocoon_num::NoMemory;
use p4_ir::TableRows;
use std::alloc::Global;

/// The place of a key among those of a table, and a number that it mostly has.
#[derive(Clone, Copy, Drop)]
pub struct Hint {
    pub place: usize,
    pub number: u64,
}

/// The number in the key at a place.
#[inline(always)]
fn number_in(keys: &[u32], meta: &[u64], place: usize) -> u64
    requires place { place < length keys.now }
    requires keys { All (λ key. key < length meta.now) keys.now }
    ensures { result ≡ get_or (keyed meta.now keys.now) place 0 }
{
    meta[keys[place] as usize]
}

impl KnownRows {
    /// Lays the rows of a table with so many keys.
    pub(crate) fn new(
        alloc: Global,
        count: usize,
        rows: &TableRows,
        hint: Hint,
    ) -> Result<KnownRows, NoMemory>
        requires rows { All (HasKeys count) rows.now.rows }
        requires place { hint.place < count }
        ensures count { IfOk result (λ laid. key_count laid.all ≡ count) }
        ensures answers { (xs : List ℕ) → length xs ≡ count → IfOk result (λ laid.
            known_answer laid xs
            ≡ table_result (map key_row_of rows.now.rows) rows.now.default xs) }
    {
        let Hint { place, number } = hint;
        let chosen = matching_rows(alloc, rows.rows.items(), rows.default, place, number)?;
        let matching = GroupedRows::new(alloc, count, &chosen)?;
        let all = GroupedRows::in_order(alloc, count, rows)?;
        Ok(KnownRows {
            place,
            number,
            matching,
            all,
        })
    }

    /// The result of the first row that matches the numbers in some keys, else the default.
    #[inline(always)]
    pub(crate) fn look(&self, keys: &[u32], meta: &[u64]) -> u64
        requires some { 0 < length keys.now }
        requires many { length keys.now ≡ key_count self.now.all }
        requires keys { All (λ key. key < length meta.now) keys.now }
        ensures { result ≡ known_answer self.now (keyed meta.now keys.now) }
    {
        if number_in(keys, meta, self.place) == self.number {
            self.matching.look(keys, meta)
        } else {
            self.all.look(keys, meta)
        }
    }
}
