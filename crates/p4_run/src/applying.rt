//! Tables with their rows, for resolved statements.
ghost use Rattle.std.specs.Prelude.{All, ◌≡◌, ◌<◌, IfOk, length, List, map, slice_set, ℕ};
ghost use Rattle.row_search.specs.Keyed.{HasKeys, keyed};
ghost use Rattle.p4_ir.specs.NetOf.{key_row_of};
ghost use Rattle.p4_ir.specs.Switch.{table_result};
ghost use Rattle.p4_run.specs.Effects.{applied_to};

use crate::constants::Constants;
use crate::stmt_codes::Application;
use cocoon_num::NoMemory;
use p4_ir::{Table, TableRows};
use row_search::{Hint, LaidRows};
use std::alloc::Global;

/// The first key that mostly has a number which is known.
fn hint(keys: &[u32], constants: &Constants) -> Option<Hint> {
    for (place, key) in keys.iter().enumerate() {
        if let Some(number) = constants.number(*key) {
            return Some(Hint { place, number });
        }
    }
    None
}

impl Application {
    /// A table with its rows, of a program with so many meta fields. No answer depends on the constants.
    pub fn new(
        alloc: Global,
        table: &Table,
        rows: &TableRows,
        constants: &Constants,
        meta_count: usize,
    ) -> Result<Application, NoMemory>
        requires some { 0 < length table.now.keys }
        requires rows { All (HasKeys (length table.now.keys)) rows.now.rows }
        requires keys { All (λ key. key < meta_count) table.now.keys }
        ensures { IfOk result (λ made. (meta : List ℕ) → length meta ≡ meta_count
            → applied_to made meta ≡ slice_set meta table.now.result (table_result
            (map key_row_of rows.now.rows) rows.now.default (keyed meta table.now.keys))) }
    {
        let keys = table.keys.items().to_vec(alloc)?;
        let rows = LaidRows::new(alloc, keys.len(), rows, hint(&keys, constants))?;
        Ok(Application {
            rows,
            keys,
            result: table.result as usize,
            meta_count,
        })
    }
}
