//! The tables of a program with their rows, as they are applied.
ghost use Rattle.std.specs.Prelude.{◌≡◌, IfOk, IsTrue, map};
ghost use Rattle.cocoon_num.specs.Lists.{each};
ghost use Rattle.numbering.specs.NumberPlaces.{HasPlaces};
ghost use Rattle.p4_ir.specs.Loading.{all_tables};
ghost use Rattle.p4_ir.specs.NetOf.{table_rows_of};
ghost use Rattle.p4_ir.specs.P4Kinds.{kinds_fit, numbers_of};
ghost use Rattle.p4_ir.specs.Program.{program_of};
ghost use Rattle.p4_run.specs.Runs.{AreApplied, IsApplied, own_rows_fit};

use crate::constants::Constants;
use crate::places::table_of_either;
use crate::stmt_codes::Application;
use cocoon_num::NoMemory;
use numbering::number_table::NumberTable;
use p4_ir::{Program, TableRows};
use std::alloc::Global;

/// The table that some rows are of.
fn table_with(
    alloc: Global,
    program: &Program,
    constants: &Constants,
    places: &NumberTable,
    rows: &TableRows,
) -> Result<Application, NoMemory>
    requires places { HasPlaces places.now (numbers_of (all_tables (program_of program.now))) }
    requires kinds { IsTrue (kinds_fit (program_of program.now)) }
    requires rows { IsTrue (own_rows_fit (program_of program.now) (table_rows_of rows.now)) }
    ensures { IfOk result (λ made.
        IsApplied (program_of program.now) (table_rows_of rows.now) made) }
{
    match table_of_either(program, places, rows.number) {
        Some(table) => {
            let meta_count = program.meta.items().len();
            Application::new(alloc, table, rows, constants, meta_count)
        }
        None => unreachable!(),
    }
}

/// The tables that rows are of, in their order.
pub(crate) fn tables_with(
    alloc: Global,
    program: &Program,
    constants: &Constants,
    places: &NumberTable,
    rows: &[TableRows],
) -> Result<Vec<Application>, NoMemory>
    requires places { HasPlaces places.now (numbers_of (all_tables (program_of program.now))) }
    requires kinds { IsTrue (kinds_fit (program_of program.now)) }
    requires rows { IsTrue (each (own_rows_fit (program_of program.now))
        (map table_rows_of rows.now)) }
    ensures { IfOk result (λ tables.
        AreApplied (program_of program.now) (map table_rows_of rows.now) tables.items) }
{
    let mut tables = Vec::new(alloc);
    for own in rows {
        tables.push(table_with(alloc, program, constants, places, own)?)?;
    }
    Ok(tables)
}
