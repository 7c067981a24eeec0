//! The faults of rows that are not loaded into a program, found in the order of the tests.
ghost use Rattle.std.specs.Prelude.{◌≡◌, ◌+◌, ◌^◌, ◌<◌, ◌≤◌, ◌==◌, ◌&&◌, ℕ, [], false, get_or, IfOk, length, List, map, not, nat_le, nat_lt, option_and_then, option_map};
ghost use Rattle.cocoon_num.specs.Lists as lists;
ghost use Rattle.numbering.specs.NumberPlaces.{HasPlaces, place_of};
ghost use Rattle.p4_ir.specs.Loading as loading;
ghost use Rattle.p4_ir.specs.Loading.{all_tables, table_numbers};
ghost use Rattle.p4_ir.specs.NetOf.{group_of, key_row_of, rows_of, table_rows_of};
ghost use Rattle.p4_ir.specs.P4Kinds.{numbers_of};
ghost use Rattle.p4_ir.specs.P4Tree as tree;
ghost use Rattle.p4_ir.specs.Program.{program_of, table_of};
ghost use Rattle.p4_ir.specs.Switch.{table_numbered};
ghost use Rattle.p4_run.specs.FaultOf.{fault_of};
ghost use Rattle.p4_run.specs.Faults as spec;
ghost use Rattle.p4_run.specs.Runs.{PlacesTables};

use crate::places::{TablePlaces, table_of_either};
use cocoon_num::NoMemory;
use numbering::number_table::NumberTable;
use p4_ir::{Group, KeyRow, Program, RowsFile, Table, TableRows};
use std::alloc::Global;

/// Why rows are not loaded into a program.
#[derive(Clone, Copy, Debug, Drop, PartialEq, Eq)]
pub enum LoadFault {
    /// The table of this number is given no rows; it is the least such number.
    MissingTable(u32),
    /// Rows are given of a table of this number, which the program has not, or which has rows already.
    UnknownTable(u32),
    /// Of the table of this number, the row of this index does not fit. The default counts as the row after the last.
    RowShape(u32, u32),
    /// The group of this index has the number 0, or that of a group before it, or members that do not ascend.
    GroupShape(u32),
    NoMemory,
}

impl From<NoMemory> for LoadFault {
    ghost use Rattle.std.specs.Prelude.{◌≡◌};
    ghost use Rattle.p4_run.specs.declared.faults.LoadFault.TheVariants.{NoMemory};

    ghost from_gives = { λ _ fault. fault ≡ NoMemory };

    fn from(_: NoMemory) -> LoadFault {
        LoadFault::NoMemory
    }
}

// ---- tables

/// The program has a table of this number, and the first rows of it are those of this index.
fn is_new(places: &TablePlaces, index: usize, number: u32) -> bool
    ensures { (p : tree.Program) (rows : List tree.TableRows) → PlacesTables p rows places.now
        → result ≡ (lists.has_number number (numbers_of (all_tables p))
        && (place_of (table_numbers rows) number == index)) }
{
    places.tables.has(number) && places.rows.place(number) == index
}

/// The first number in the rows that the program has not, or that stands before it, too.
fn unknown_table(places: &TablePlaces, tables: &[TableRows]) -> Option<u32>
    ensures { (p : tree.Program) → PlacesTables p (map table_rows_of tables.now) places.now
        → result ≡ spec.first_unknown (numbers_of (all_tables p)) []
        (map table_rows_of tables.now) }
{
    for (index, table) in tables.iter().enumerate() {
        if !is_new(places, index, table.number) {
            return Some(table.number);
        }
    }
    None
}

/// The first of some tables that is given no rows.
fn missing_of(tables: &[Table], given: &NumberTable) -> Option<u32>
    ensures { (numbers : List ℕ) → HasPlaces given.now numbers
        → result ≡ spec.first_missing numbers (map table_of tables.now) }
{
    for table in tables {
        if !given.has(table.number) {
            return Some(table.number);
        }
    }
    None
}

/// The first table that is given no rows.
fn missing_table(program: &Program, given: &NumberTable) -> Option<u32>
    ensures { (numbers : List ℕ) → HasPlaces given.now numbers
        → result ≡ spec.first_missing numbers (all_tables (program_of program.now)) }
{
    match missing_of(program.ingress.tables.items(), given) {
        Some(number) => Some(number),
        None => missing_of(program.egress.tables.items(), given),
    }
}

// ---- rows

/// Whether a number fits a width in bits.
pub(crate) fn fits_width(width: u8, number: u64) -> bool
    ensures { result ≡ nat_lt number (2 ^ width) }
{
    width >= 64 || u128::from(number) < 1 << width
}

/// Whether a number that fits a width in bits has all of them.
fn is_full(width: u8, mask: u64) -> bool
    ensures { result ≡ nat_le (2 ^ width) (mask + 1) }
{
    width <= 64 && 1 << width <= u128::from(mask) + 1
}

fn meta_width(program: &Program, index: u32) -> u8
    ensures { result ≡ tree.meta_width (program_of program.now) index }
{
    match program.meta.items().get(index as usize) {
        Some(field) => field.width,
        None => 0,
    }
}

fn key_fits(exact: bool, width: u8, value: u64, mask: u64) -> bool
    ensures { result ≡ loading.key_fits exact width value mask }
{
    fits_width(width, value) && fits_width(width, mask) && (!exact || is_full(width, mask))
}

fn keys_fit(program: &Program, exact: bool, keys: &[u32], values: &[u64], masks: &[u64]) -> bool
    ensures { result ≡ loading.keys_fit (program_of program.now)
        exact keys.now values.now masks.now }
{
    if values.len() != keys.len() {
        return false;
    }
    if masks.len() != keys.len() {
        return false;
    }
    for (index, key) in keys.iter().enumerate() {
        if !key_fits(
            exact,
            meta_width(program, *key),
            values[index],
            masks[index],
        ) {
            return false;
        }
    }
    true
}

fn row_fits(program: &Program, table: &Table, row: &KeyRow) -> bool
    ensures { result ≡ loading.row_fits (program_of program.now) (table_of table.now)
        (key_row_of row.now) }
{
    let (keys, values) = (table.keys.items(), row.values.items());
    keys_fit(program, table.exact, keys, values, row.masks.items())
        && fits_width(meta_width(program, table.result), row.result)
}

/// The index of the first row that does not fit.
fn unfit_among(program: &Program, table: &Table, rows: &[KeyRow]) -> Option<usize>
    ensures { result ≡ spec.first_unfit (program_of program.now) (table_of table.now)
        0 (map key_row_of rows.now) }
{
    for (index, row) in rows.iter().enumerate() {
        if !row_fits(program, table, row) {
            return Some(index);
        }
    }
    None
}

/// The index of the first row of a table that does not fit, if the program has the table.
fn unfit_row(program: &Program, places: &NumberTable, rows: &TableRows) -> Option<usize>
    requires { HasPlaces places.now (numbers_of (all_tables (program_of program.now))) }
    ensures { result ≡ spec.unfit_row (program_of program.now)
        (table_numbered (all_tables (program_of program.now)) rows.now.number)
        (table_rows_of rows.now) }
{
    let table = table_of_either(program, places, rows.number)?;
    let index = unfit_among(program, table, rows.rows.items());
    if index.is_some() {
        return index;
    }
    if fits_width(meta_width(program, table.result), rows.default) {
        None
    } else {
        Some(rows.rows.items().len())
    }
}

/// A count as a number of a fault; there is no memory for more.
fn short_index(index: usize) -> Result<u32, NoMemory>
    ensures { IfOk result (λ number. number ≡ index) }
{
    match u32::try_from(index) {
        Ok(number) => Ok(number),
        Err(_) => Err(NoMemory),
    }
}

/// The first table with a row that does not fit it, and the index of the first such row.
fn row_shape(
    program: &Program,
    places: &NumberTable,
    tables: &[TableRows],
) -> Result<Option<(u32, u32)>, NoMemory>
    requires { HasPlaces places.now (numbers_of (all_tables (program_of program.now))) }
    ensures { IfOk result (λ found. option_map (λ row. spec.row_shape row.0 row.1) found
        ≡ spec.first_row_shape (program_of program.now) (map table_rows_of tables.now)) }
{
    for table in tables {
        if let Some(index) = unfit_row(program, places, table) {
            return Ok(Some((table.number, short_index(index)?)));
        }
    }
    Ok(None)
}

// ---- groups

fn ascend(members: &[u64]) -> bool
    ensures { result ≡ lists.ascend members.now }
{
    let mut at = 1;
    while at < members.len() {
        if members[at - 1] >= members[at] {
            return false;
        }
        at += 1;
    }
    true
}

fn group_fits(group: &Group) -> bool
    ensures { result ≡ loading.group_fits (group_of group.now) }
{
    group.number != 0 && ascend(group.members.items())
}

/// No number was seen yet.
fn unseen(alloc: Global, count: usize) -> Result<Vec<bool>, NoMemory>
    ensures many { IfOk result (λ seen. length seen.items ≡ count) }
    ensures none { IfOk result (λ seen. (n : ℕ) → get_or seen.items n false ≡ false) }
{
    Ok(vec![in alloc; false; count]?)
}

/// The number of a group is not among those that were seen, and it is of its form.
fn is_shaped(seen: &[bool], group: &Group) -> bool
    requires { 65536 ≤ length seen.now }
    ensures { result ≡ (not (get_or seen.now group.now.number false)
        && loading.group_fits (group_of group.now)) }
{
    !seen[group.number as usize] && group_fits(group)
}

/// The index of the first group that is not of its form. The time is in proportion to the groups.
fn group_shape(alloc: Global, groups: &[Group]) -> Result<Option<usize>, NoMemory>
    ensures { IfOk result (λ index. index
        ≡ spec.first_group_shape [] 0 (map group_of groups.now)) }
{
    let mut seen = unseen(alloc, 65536)?;
    for (index, group) in groups.iter().enumerate() {
        let number = group.number as usize;
        if !is_shaped(&seen, group) {
            return Ok(Some(index));
        }
        seen[number] = true;
    }
    Ok(None)
}

// ---- all

/// The first fault, if the rows do not load.
pub(crate) fn load_fault(
    alloc: Global,
    program: &Program,
    rows: &RowsFile,
    places: &TablePlaces,
) -> Result<Option<LoadFault>, NoMemory>
    requires { PlacesTables (program_of program.now) (rows_of rows.now).tables places.now }
    ensures { IfOk result (λ fault. option_and_then fault_of fault
        ≡ spec.load_fault (program_of program.now) (rows_of rows.now)) }
{
    let tables = rows.tables.items();
    if let Some(number) = unknown_table(places, tables) {
        return Ok(Some(LoadFault::UnknownTable(number)));
    }
    if let Some(number) = missing_table(program, &places.rows) {
        return Ok(Some(LoadFault::MissingTable(number)));
    }
    if let Some((table, row)) = row_shape(program, &places.tables, tables)? {
        return Ok(Some(LoadFault::RowShape(table, row)));
    }
    match group_shape(alloc, rows.groups.items())? {
        Some(index) => Ok(Some(LoadFault::GroupShape(short_index(index)?))),
        None => Ok(None),
    }
}
