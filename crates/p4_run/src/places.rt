//! What is looked up once, at loading: the widths of all fields, where those of each header begin, and where the table, the
//! rows and the group of each number stand.
ghost use Rattle.std.specs.Prelude.{◌≡◌, ◌++◌, IfOk, List, map, OnOk, option_map, slice_get, ℕ};
ghost use Rattle.numbering.specs.NumberPlaces.{HasPlaces};
ghost use Rattle.packed_fields.specs.AtOnce.{widths_in};
ghost use Rattle.p4_ir.specs.Loading.{all_tables, table_numbers};
ghost use Rattle.p4_ir.specs.NetOf.{group_of, rows_of, table_rows_of};
ghost use Rattle.p4_ir.specs.P4Kinds.{numbers_of};
ghost use Rattle.p4_ir.specs.P4Tree.{field_widths};
ghost use Rattle.p4_ir.specs.Program.{field_of, header_of, program_of, table_of};
ghost use Rattle.p4_ir.specs.Switch.{table_numbered};
ghost use Rattle.p4_run.specs.Places.{layout_of, starts_from};
ghost use Rattle.p4_run.specs.Runs.{ArePlaced, PlacesTables};

use cocoon_num::NoMemory;
use cocoon_num::copies::copy_list;
use numbering::number_table::NumberTable;
use p4_ir::{Group, P4Field, P4Header, Program, RowsFile, Table, TableRows};
use std::alloc::Global;

/// The widths of the fields of some headers, one header after another, and the index of each header's first field.
#[derive(Drop)]
pub(crate) struct FieldWidths {
    pub(crate) widths: Vec<u8>,
    pub(crate) starts: Vec<usize>,
}

fn push_widths(widths: &mut Vec<u8>, fields: &[P4Field]) -> Result<(), NoMemory>
    ensures { OnOk result
        (widths.new.items ≡ widths.old.items ++ field_widths (map field_of fields.now)) }
{
    for field in fields {
        widths.push(field.width)?;
    }
    Ok(())
}

pub(crate) fn field_widths(alloc: Global, headers: &[P4Header]) -> Result<FieldWidths, NoMemory>
    ensures widths { IfOk result (λ w.
        w.widths.items ≡ widths_in (layout_of (map header_of headers.now))) }
    ensures starts { IfOk result (λ w.
        w.starts.items ≡ starts_from 0 (layout_of (map header_of headers.now))) }
{
    let mut widths = Vec::new(alloc);
    let mut starts = Vec::new(alloc);
    for header in headers {
        starts.push(widths.len())?;
        push_widths(&mut widths, header.fields.items())?;
    }
    Ok(FieldWidths { widths, starts })
}

/// The widths of meta fields.
pub(crate) fn meta_widths(alloc: Global, fields: &[P4Field]) -> Result<Vec<u8>, NoMemory>
    ensures { IfOk result (λ widths. widths.items ≡ field_widths (map field_of fields.now)) }
{
    let mut widths = Vec::new(alloc);
    push_widths(&mut widths, fields)?;
    Ok(widths)
}

/// Where the table of each number stands, and where its rows stand.
#[derive(Drop)]
pub(crate) struct TablePlaces {
    /// Among the tables of a program, those of ingress before those of egress.
    pub(crate) tables: NumberTable,
    /// Among the rows of tables.
    pub(crate) rows: NumberTable,
}

/// Some tables more, after the others.
fn append_tables(places: &mut NumberTable, tables: &[Table]) -> Result<(), NoMemory>
    ensures { (numbers : List ℕ) → HasPlaces places.old numbers → OnOk result
        (HasPlaces places.new (numbers ++ numbers_of (map table_of tables.now))) }
{
    for table in tables {
        places.append(table.number)?;
    }
    Ok(())
}

/// Where the table of each number stands, of either control.
fn program_places(alloc: Global, program: &Program) -> Result<NumberTable, NoMemory>
    ensures { IfOk result (λ places.
        HasPlaces places (numbers_of (all_tables (program_of program.now)))) }
{
    let mut places = NumberTable::new(alloc);
    append_tables(&mut places, program.ingress.tables.items())?;
    append_tables(&mut places, program.egress.tables.items())?;
    Ok(places)
}

/// Where the rows of the table of each number stand.
fn row_places(alloc: Global, rows: &[TableRows]) -> Result<NumberTable, NoMemory>
    ensures { IfOk result (λ places.
        HasPlaces places (table_numbers (map table_rows_of rows.now))) }
{
    let mut places = NumberTable::new(alloc);
    for own in rows {
        places.append(own.number)?;
    }
    Ok(places)
}

/// Where the table of each number stands, and where its rows stand.
pub(crate) fn table_places(
    alloc: Global,
    program: &Program,
    rows: &[TableRows],
) -> Result<TablePlaces, NoMemory>
    ensures { IfOk result (λ places.
        PlacesTables (program_of program.now) (map table_rows_of rows.now) places) }
{
    Ok(TablePlaces {
        tables: program_places(alloc, program)?,
        rows: row_places(alloc, rows)?,
    })
}

/// The table at a place, those of ingress before those of egress.
fn table_at(program: &Program, place: usize) -> Option<&Table>
    ensures { option_map (λ t. table_of t.now) result
        ≡ slice_get (all_tables (program_of program.now)) place }
{
    let ingress = program.ingress.tables.items();
    match ingress.get(place) {
        Some(table) => Some(table),
        None => program.egress.tables.items().get(place - ingress.len()),
    }
}

/// The table of this number, of either control. The time grows with the logarithm of the number of tables.
pub(crate) fn table_of_either<'p>(
    program: &'p Program,
    places: &NumberTable,
    number: u32,
) -> Option<&'p Table>
    requires { HasPlaces places.now (numbers_of (all_tables (program_of program.now))) }
    ensures { option_map (λ t. table_of t.now) result
        ≡ table_numbered (all_tables (program_of program.now)) number }
{
    table_at(program, places.place(number))
}

/// The groups, in memory of their own.
pub(crate) fn copied_groups(alloc: Global, rows: &RowsFile) -> Result<Vec<Group>, NoMemory>
    ensures { IfOk result (λ groups. map group_of groups.items ≡ (rows_of rows.now).groups) }
{
    Ok(copy_list(alloc, rows.groups.items())?)
}

/// Where the group of each number stands.
pub(crate) fn group_places(alloc: Global, rows: &RowsFile) -> Result<NumberTable, NoMemory>
    ensures { IfOk result (λ places. ArePlaced places (rows_of rows.now).groups) }
{
    let mut places = NumberTable::new(alloc);
    for group in rows.groups.items() {
        places.append(u32::from(group.number))?;
    }
    Ok(places)
}
