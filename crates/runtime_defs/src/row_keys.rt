//! Tables whose rows compare all bits are looked up by the values of the rows: the first row with the values decides.
ghost use Rattle.std.specs.Prelude.{◌≡◌, ◌-◌, ◌^◌, ◌≤◌, ◌==◌, ◌&&◌, All, IfOk, Some, length, true};
ghost use Rattle.std.specs.List.{AllZip};
ghost use Rattle.cocoon_num.specs.FunTables.{HasKeys, looked};
ghost use Rattle.cocoon_num.specs.Values.{fits_width};
ghost use Rattle.runtime_defs.specs.Places.{AllDeclared, HasShape, MayHaveShape, all_fit_widths};
ghost use Rattle.runtime_defs.specs.RowKeys as spec;
ghost use Rattle.runtime_defs.specs.RowKeys.{IsKeyed, MayBeKeyed};

use cocoon_num::{Bits, FunRow, FunTable, NoMemory};
use numbering::key_table::KeyTable;
use std::alloc::Global;

/// Ones in so many bits.
#[tactic(auto, using(crate::proofs::Masks::ones_are))]
fn ones(width: u8) -> u64
    requires some { 1 ≤ width }
    requires few { width ≤ 64 }
    ensures { result ≡ 2 ^ width - 1 }
{
    u64::MAX >> (64 - width)
}

/// Whether the number has at most so many bits.
fn is_within(width: u8, number: u64) -> bool
    requires some { 1 ≤ width }
    requires few { width ≤ 64 }
    ensures { result ≡ fits_width width number }
{
    number <= ones(width)
}

/// Whether a key compares all of so many bits, and has no more.
fn compares(width: u8, value: u64, mask: u64) -> bool
    requires some { 1 ≤ width }
    requires few { width ≤ 64 }
    ensures { result ≡ (fits_width width value && (mask == 2 ^ width - 1)) }
{
    is_within(width, value) && mask == ones(width)
}

/// Whether a row compares all bits of numbers of these widths, and has such numbers.
fn compares_all(widths: &[u8], row: &FunRow) -> bool
    requires keys { HasKeys (length widths.now) row.now }
    requires widths { AllDeclared widths.now }
    ensures { result ≡ spec.compares_all widths.now row.now.values row.now.masks }
{
    let values = row.values.items();
    let masks = row.masks.items();
    let mut at = 0;
    while at < widths.len() {
        if !compares(widths[at], values[at], masks[at]) {
            return false;
        }
        at += 1;
    }
    true
}

/// Whether so many numbers fit these widths.
fn all_within(widths: &[u8], numbers: &[u64]) -> bool
    requires count { length numbers.now ≡ length widths.now }
    requires widths { AllDeclared widths.now }
    ensures { result ≡ all_fit_widths widths.now numbers.now }
{
    let mut at = 0;
    while at < widths.len() {
        if !is_within(widths[at], numbers[at]) {
            return false;
        }
        at += 1;
    }
    true
}

/// The values of the rows of a table, if each row compares all bits.
fn keys_of(alloc: Global, table: &FunTable) -> Result<Option<KeyTable>, NoMemory>
    requires { HasShape table.now }
    ensures { IfOk result (IsKeyed table.now) }
{
    let mut keys = KeyTable::new(alloc);
    for row in table.rows.items() {
        if !compares_all(table.widths.items(), row) {
            return Ok(None);
        }
        keys.append(alloc, row.values.items())?;
    }
    Ok(Some(keys))
}

/// Those of what stands at the place of a function.
fn place_keys(alloc: Global, place: &Option<FunTable>) -> Result<Option<KeyTable>, NoMemory>
    requires { MayHaveShape place.now }
    ensures { IfOk result (MayBeKeyed place.now) }
{
    match place {
        Some(table) => keys_of(alloc, table),
        None => Ok(None),
    }
}

/// Those of each place.
pub(crate) fn all_keys(
    alloc: Global,
    tables: &[Option<FunTable>],
) -> Result<Vec<Option<KeyTable>>, NoMemory>
    requires { All MayHaveShape tables.now }
    ensures { IfOk result (λ keys. AllZip MayBeKeyed tables.now keys.items) }
{
    let mut keys = Vec::new(alloc);
    for place in tables {
        keys.push(place_keys(alloc, place)?)?;
    }
    Ok(keys)
}

/// The value of a table at numbers that fit it, by the values of its rows.
fn look_by(keys: &KeyTable, table: &FunTable, args: &[u64]) -> Bits
    requires keyed { IsKeyed table.now (Some keys.now) }
    requires fits { all_fit_widths table.now.widths args.now ≡ true }
    ensures { result ≡ looked table.now args.now }
{
    match keys.place(args) {
        Some(place) => table.rows.items()[place as usize].result,
        None => table.default,
    }
}

/// The value of a table at so many numbers as it has parameters.
pub(crate) fn look(keys: &Option<KeyTable>, table: &FunTable, args: &[u64]) -> Bits
    requires keyed { IsKeyed table.now keys.now }
    requires shape { HasShape table.now }
    requires count { length args.now ≡ length table.now.widths }
    ensures { result ≡ looked table.now args.now }
{
    match keys {
        Some(keys) => {
            if all_within(table.widths.items(), args) {
                look_by(keys, table, args)
            } else {
                table.look(args)
            }
        }
        None => table.look(args),
    }
}
