//! The arguments before the choice of a table's rows.
ghost use Rattle.std.specs.Prelude.{◌≡◌, IfOk, map};
ghost use Rattle.declarations.specs.NameNumbers.{firsts};
ghost use Rattle.lower_rows.specs.Numbered.{Holds};
ghost use Rattle.lower_rows.specs.Sets.{row_args};

use crate::args_table::ArgsTable;
use crate::keys::before_last;
use cocoon_num::{FunRow, NoMemory};
use std::alloc::Global;

/// Each once, in the order of their first rows.
pub(crate) fn fork_args(alloc: Global, rows: &[FunRow]) -> Result<ArgsTable, NoMemory>
    ensures { IfOk result (λ t. Holds t (firsts (row_args rows.now))) }
{
    let mut table = ArgsTable::new(alloc);
    for row in rows {
        table.add(alloc, before_last(row.values.items()))?;
    }
    Ok(table)
}
