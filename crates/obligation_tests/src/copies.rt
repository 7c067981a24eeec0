//! Copies of tables.
use cocoon_num::{FunRow, FunTable, List};
use std::alloc::Global;

fn copied_row(alloc: Global, row: &FunRow) -> Option<FunRow> {
    Some(FunRow {
        values: List::from(Vec::from_slice(alloc, row.values.items()).ok()?),
        masks: List::from(Vec::from_slice(alloc, row.masks.items()).ok()?),
        result: row.result,
    })
}

fn copied_table(alloc: Global, table: &FunTable) -> Option<FunTable> {
    let mut rows = Vec::new(alloc);
    for row in table.rows.items() {
        rows.push(copied_row(alloc, row)?).ok()?;
    }
    Some(FunTable {
        widths: List::from(Vec::from_slice(alloc, table.widths.items()).ok()?),
        rows: List::from(rows),
        default: table.default,
    })
}

/// The same tables, in memory of their own.
pub fn copied_tables(alloc: Global, tables: &[Option<FunTable>]) -> Option<Vec<Option<FunTable>>> {
    let mut copies = Vec::new(alloc);
    for table in tables {
        let copy = match table {
            Some(table) => Some(copied_table(alloc, table)?),
            None => None,
        };
        copies.push(copy).ok()?;
    }
    Some(copies)
}
