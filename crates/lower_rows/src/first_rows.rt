//! What the first rows of a table say, of those that compare all bits.
ghost use Rattle.std.specs.Prelude.{◌≡◌, IfOk, List, ℕ, None, OnOk, ◌==◌};
ghost use Rattle.lower_rows.specs.FirstRows.{is_some_true, noted, said_by, said_first};

use cocoon_num::{FunRow, NoMemory};
use std::alloc::Global;
use std::collections::BTreeMap;

/// For the values of rows, whether their first row is true.
#[derive(Drop)]
pub(crate) struct FirstRows {
    said: BTreeMap<Vec<u64>, bool>,
}

/// Whether the result is the true value, which is 1.
fn is_true(row: &FunRow) -> bool
    ensures { result ≡ (row.now.result.value == 1) }
{
    row.result.value == 1
}

impl FirstRows {
    fn new(alloc: Global) -> FirstRows
        ensures { (x : List ℕ) → said_by result x ≡ None }
    {
        FirstRows {
            said: BTreeMap::new(alloc),
        }
    }

    /// Notes what a row says.
    fn note(&mut self, alloc: Global, row: &FunRow) -> Result<(), NoMemory>
        ensures { (x : List ℕ) → OnOk result (said_by self.new x
            ≡ noted row.now x (said_by self.old x)) }
    {
        let values = row.values.items().to_vec(alloc)?;
        self.said.insert(values, is_true(row))?;
        Ok(())
    }

    /// Those of a table's rows. They are noted from the last to the first, so that the first decides.
    pub(crate) fn of(alloc: Global, rows: &[FunRow]) -> Result<FirstRows, NoMemory>
        ensures { IfOk result (λ said. (x : List ℕ) → said_by said x ≡ said_first rows.now x) }
    {
        let mut first = FirstRows::new(alloc);
        let mut at = rows.len();
        while at > 0 {
            at -= 1;
            first.note(alloc, &rows[at])?;
        }
        Ok(first)
    }

    /// Whether the first row of these values is true; where there is none, no.
    pub(crate) fn is_true(&self, values: &[u64]) -> bool
        ensures { result ≡ is_some_true (said_by self.now values.now) }
    {
        match self.said.get(values) {
            Some(truth) => *truth,
            None => false,
        }
    }
}
