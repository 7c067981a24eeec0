//! The rows of one table, laid whole or in parts.
ghost use Rattle.std.specs.Prelude.{All, ◌≡◌, ◌<◌, IfOk, length};
ghost use Rattle.p4_ir.specs.NetOf.{table_rows_of};
ghost use Rattle.row_search.specs.Keyed.{HasKeys, keyed};
ghost use Rattle.row_search.specs.GroupsHeld.{FormHolds, Holds, key_count, looked_up};

use crate::FlatRows;
use crate::dividing::{part_count, part_numbers};
use crate::parts::PartedRows;
use cocoon_num::NoMemory;
use p4_ir::TableRows;
use std::alloc::Global;

#[derive(Drop)]
pub(crate) enum Form {
    /// All rows are one part.
    Whole(FlatRows),
    Parted(PartedRows),
}

/// The rows of one table. The time of a look-up grows with the number of different masks that many rows have, for each of these
/// with the logarithm of the number of its rows, and with the number of all other rows.
#[derive(Drop)]
pub struct GroupedRows {
    pub(crate) form: Form,
}

fn whole(alloc: Global, count: usize, rows: &TableRows) -> Result<Form, NoMemory>
    requires { All (HasKeys count) rows.now.rows }
    ensures { IfOk result (λ form. FormHolds count form (table_rows_of rows.now)) }
{
    Ok(Form::Whole(FlatRows::new(alloc, count, rows)?))
}

fn ordered(alloc: Global, count: usize, rows: &TableRows) -> Result<Form, NoMemory>
    requires { All (HasKeys count) rows.now.rows }
    ensures { IfOk result (λ form. FormHolds count form (table_rows_of rows.now)) }
{
    Ok(Form::Whole(FlatRows::in_order(alloc, count, rows)?))
}

fn parted(alloc: Global, count: usize, rows: &TableRows, numbers: &[u8]) -> Result<Form, NoMemory>
    requires rows { All (HasKeys count) rows.now.rows }
    requires numbers { length numbers.now ≡ length rows.now.rows }
    ensures { IfOk result (λ form. FormHolds count form (table_rows_of rows.now)) }
{
    let listed = rows.rows.items();
    Ok(Form::Parted(PartedRows::new(alloc, count, listed, rows.default, numbers)?))
}

fn laid(alloc: Global, count: usize, rows: &TableRows) -> Result<Form, NoMemory>
    requires { All (HasKeys count) rows.now.rows }
    ensures { IfOk result (λ form. FormHolds count form (table_rows_of rows.now)) }
{
    let numbers = part_numbers(alloc, rows.rows.items())?;
    if part_count(&numbers) <= 1 {
        whole(alloc, count, rows)
    } else {
        parted(alloc, count, rows, &numbers)
    }
}

impl GroupedRows {
    /// Lays the rows of a table with so many keys.
    pub fn new(alloc: Global, count: usize, rows: &TableRows) -> Result<GroupedRows, NoMemory>
        requires { All (HasKeys count) rows.now.rows }
        ensures { IfOk result (λ laid. Holds count laid (table_rows_of rows.now)) }
    {
        Ok(GroupedRows {
            form: laid(alloc, count, rows)?,
        })
    }

    /// Lays them as one part that is looked at in order, which takes the least time.
    pub(crate) fn in_order(
        alloc: Global,
        count: usize,
        rows: &TableRows,
    ) -> Result<GroupedRows, NoMemory>
        requires { All (HasKeys count) rows.now.rows }
        ensures { IfOk result (λ laid. Holds count laid (table_rows_of rows.now)) }
    {
        Ok(GroupedRows {
            form: ordered(alloc, count, rows)?,
        })
    }

    /// The result of the first row that matches the numbers in the table's keys, else the default.
    #[inline(always)]
    pub fn look(&self, keys: &[u32], meta: &[u64]) -> u64
        requires some { 0 < length keys.now }
        requires many { length keys.now ≡ key_count self.now }
        requires keys { All (λ key. key < length meta.now) keys.now }
        ensures { result ≡ looked_up self.now (keyed meta.now keys.now) }
    {
        match &self.form {
            Form::Whole(rows) => rows.look(keys, meta),
            Form::Parted(rows) => rows.look(keys, meta),
        }
    }
}
