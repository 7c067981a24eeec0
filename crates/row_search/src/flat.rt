//! The rows of one table, laid flat.
ghost use Rattle.std.specs.Prelude.{All, ◌≡◌, ◌<◌, IfOk, IsTrue, length, map, List, ℕ};
ghost use Rattle.cocoon_num.specs.Lists.{each};
ghost use Rattle.cocoon_num.specs.Names.{same_name};
ghost use Rattle.p4_ir.specs.NetOf.{key_row_of, table_rows_of};
ghost use Rattle.row_search.specs.Held.{FormAnswers, Holds, key_count, looked_up, share_masks};
ghost use Rattle.row_search.specs.Keyed.{HasKeys, keyed};

use crate::scanned::ScannedRows;
use crate::sorted::SortedRows;
use cocoon_num::NoMemory;
use p4_ir::{KeyRow, TableRows};
use std::alloc::Global;

/// In which of two ways rows are laid.
#[derive(Drop)]
pub(crate) enum Form {
    /// The rows have different masks.
    Scanned(ScannedRows),
    /// All rows have the same masks.
    Sorted(SortedRows),
}

/// The rows of one table: a look-up reads no memory but a few flat lists. Where all rows have the same masks, as literal rows
/// have, its time grows with the logarithm of their number, else with the number.
#[derive(Drop)]
pub struct FlatRows {
    pub(crate) default: u64,
    pub(crate) form: Form,
}

#[tactic(auto, using(crate::proofs::ScanFacts::same_is))]
fn is_same(one: &[u64], other: &[u64]) -> bool
    ensures { result ≡ same_name one.now other.now }
{
    one == other
}

/// Whether all rows have these masks.
fn have_masks(rows: &[KeyRow], masks: &[u64]) -> bool
    ensures { result ≡ each (share_masks masks.now) (map key_row_of rows.now) }
{
    for row in rows {
        if !is_same(row.masks.items(), masks) {
            return false;
        }
    }
    true
}

fn scanned(alloc: Global, count: usize, rows: &[KeyRow]) -> Result<Form, NoMemory>
    requires { All (HasKeys count) rows.now }
    ensures { (default : ℕ) → IfOk result (λ form.
        FormAnswers count form default (map key_row_of rows.now)) }
{
    Ok(Form::Scanned(ScannedRows::new(alloc, count, rows)?))
}

fn sorted(alloc: Global, masks: &[u64], rows: &[KeyRow]) -> Result<Form, NoMemory>
    requires some { 0 < length masks.now }
    requires rows { All (HasKeys (length masks.now)) rows.now }
    requires masks { IsTrue (each (share_masks masks.now) (map key_row_of rows.now)) }
    ensures { (default : ℕ) → IfOk result (λ form.
        FormAnswers (length masks.now) form default (map key_row_of rows.now)) }
{
    Ok(Form::Sorted(SortedRows::new(alloc, masks, rows)?))
}

fn laid(alloc: Global, count: usize, rows: &[KeyRow]) -> Result<Form, NoMemory>
    requires { All (HasKeys count) rows.now }
    ensures { (default : ℕ) → IfOk result (λ form.
        FormAnswers count form default (map key_row_of rows.now)) }
{
    if rows.is_empty() {
        return scanned(alloc, count, rows);
    }
    let masks = rows[0].masks.items();
    if !masks.is_empty() && have_masks(rows, masks) {
        sorted(alloc, masks, rows)
    } else {
        scanned(alloc, count, rows)
    }
}

impl FlatRows {
    /// Lays the rows of a table with so many keys.
    pub fn new(alloc: Global, count: usize, rows: &TableRows) -> Result<FlatRows, NoMemory>
        requires { All (HasKeys count) rows.now.rows }
        ensures { IfOk result (λ flat. Holds count flat (table_rows_of rows.now)) }
    {
        let form = laid(alloc, count, rows.rows.items())?;
        Ok(FlatRows {
            default: rows.default,
            form,
        })
    }

    /// Lays them to be looked at in their order, which takes less time than to sort them, also where all have the same masks.
    pub fn in_order(alloc: Global, count: usize, rows: &TableRows) -> Result<FlatRows, NoMemory>
        requires { All (HasKeys count) rows.now.rows }
        ensures { IfOk result (λ flat. Holds count flat (table_rows_of rows.now)) }
    {
        let form = scanned(alloc, count, rows.rows.items())?;
        let default = rows.default;
        Ok(FlatRows { default, form })
    }

    /// The result of the first row that matches the numbers in the table's keys, else the default.
    pub fn look(&self, keys: &[u32], meta: &[u64]) -> u64
        requires some { 0 < length keys.now }
        requires many { length keys.now ≡ key_count self.now }
        requires keys { All (λ key. key < length meta.now) keys.now }
        ensures { result ≡ looked_up self.now (keyed meta.now keys.now) }
    {
        match &self.form {
            Form::Scanned(rows) => rows.look(self.default, keys, meta),
            Form::Sorted(rows) => rows.look(self.default, keys, meta),
        }
    }
}
