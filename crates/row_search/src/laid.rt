//! The rows of one table, as they are looked up.
ghost use Rattle.std.specs.Prelude.{All, ◌≡◌, ◌<◌, IfOk, length};
ghost use Rattle.p4_ir.specs.NetOf.{table_rows_of};
ghost use Rattle.row_search.specs.Keyed.{HasKeys, keyed};
ghost use Rattle.row_search.specs.GroupsLaid.{FormHolds, Holds, key_count, looked_up};

use crate::grouped::GroupedRows;
use crate::known::Hint;
use crate::known_rows::KnownRows;
use crate::matching::can_match;
use cocoon_num::NoMemory;
use p4_ir::{KeyRow, TableRows};
use std::alloc::Global;

#[derive(Drop)]
pub(crate) enum Form {
    Plain(GroupedRows),
    /// Most rows cannot match a number that one key mostly has.
    Known(KnownRows),
}

/// The rows of one table, for look-ups.
#[derive(Drop)]
pub struct LaidRows {
    pub(crate) form: Form,
}

/// Whether no more than half of some rows, which are many, can match where a key has a number.
fn drops_half(rows: &[KeyRow], hint: Hint) -> bool {
    let mut left = rows.len() / 2;
    for row in rows {
        if can_match(row, hint.place, hint.number) {
            if left == 0 {
                return false;
            }
            left -= 1;
        }
    }
    rows.len() > 16
}

fn plain(alloc: Global, count: usize, rows: &TableRows) -> Result<Form, NoMemory>
    requires { All (HasKeys count) rows.now.rows }
    ensures { IfOk result (λ form. FormHolds count form (table_rows_of rows.now)) }
{
    Ok(Form::Plain(GroupedRows::new(alloc, count, rows)?))
}

fn known(alloc: Global, count: usize, rows: &TableRows, hint: Hint) -> Result<Form, NoMemory>
    requires rows { All (HasKeys count) rows.now.rows }
    requires place { hint.place < count }
    ensures { IfOk result (λ form. FormHolds count form (table_rows_of rows.now)) }
{
    Ok(Form::Known(KnownRows::new(alloc, count, rows, hint)?))
}

impl LaidRows {
    /// Lays the rows of a table with so many keys. A hint says which number one key mostly has.
    pub fn new(
        alloc: Global,
        count: usize,
        rows: &TableRows,
        hint: Option<Hint>,
    ) -> Result<LaidRows, NoMemory>
        requires { All (HasKeys count) rows.now.rows }
        ensures { IfOk result (λ laid. Holds count laid (table_rows_of rows.now)) }
    {
        let form = laid_form(alloc, count, rows, hint)?;
        Ok(LaidRows { form })
    }

    /// The result of the first row that matches the numbers in the table's keys, else the default.
    #[inline(always)]
    pub fn look(&self, keys: &[u32], meta: &[u64]) -> u64
        requires some { 0 < length keys.now }
        requires many { length keys.now ≡ key_count self.now }
        requires keys { All (λ key. key < length meta.now) keys.now }
        ensures { result ≡ looked_up self.now (keyed meta.now keys.now) }
    {
        match &self.form {
            Form::Plain(rows) => rows.look(keys, meta),
            Form::Known(rows) => rows.look(keys, meta),
        }
    }
}

fn laid_form(
    alloc: Global,
    count: usize,
    rows: &TableRows,
    hint: Option<Hint>,
) -> Result<Form, NoMemory>
    requires { All (HasKeys count) rows.now.rows }
    ensures { IfOk result (λ form. FormHolds count form (table_rows_of rows.now)) }
{
    let Some(hint) = hint else {
        return plain(alloc, count, rows);
    };
    if hint.place < count && drops_half(rows.rows.items(), hint) {
        known(alloc, count, rows, hint)
    } else {
        plain(alloc, count, rows)
    }
}
