//! The numbers at which tables are true.
ghost use Rattle.std.specs.Prelude.{All, ◌≡◌, ◌==◌, ℕ, filter, if◌then◌else◌, IfOk, None, OnOk, option_map, Some};
ghost use Rattle.std.specs.BTreeSet.{contains, IsOrdered};
ghost use Rattle.std.specs.List.{AllZip};
ghost use Rattle.std.specs.Ordering.{nat_cmp};
ghost use Rattle.cocoon_num.specs.FunTables.{HasKeys};
ghost use Rattle.cocoon_num.specs.Values.{fits_width};
ghost use Rattle.runtime_defs.specs.Places.{MayHaveShape};
ghost use Rattle.runtime_defs.specs.TrueRows.{first_true, IsListed, row_number, true_by};

use cocoon_num::{FunRow, FunTable, NoMemory};
use std::alloc::Global;
use std::collections::BTreeSet;

/// Of a table of one parameter, the numbers whose first row is true; of another table, none. They ascend.
#[derive(Drop)]
pub(crate) struct TrueNumbers {
    pub(crate) all: Vec<u64>,
    /// Those of at most 16 bits.
    pub(crate) short: Vec<u16>,
}

/// Notes what a row says of its number.
fn note_row(row: &FunRow, numbers: &mut BTreeSet<u64>) -> Result<(), NoMemory>
    requires { HasKeys 1 row.now }
    ensures noted { (n : ℕ) → OnOk result (contains nat_cmp numbers.new n
        ≡ (if n == row_number row.now then row.now.result.value == 1
        else contains nat_cmp numbers.old n)) }
    ensures ordered { IsOrdered nat_cmp numbers.new }
{
    let number = row.values.items()[0];
    if row.result.value == 1 {
        numbers.insert(number)?;
    } else {
        numbers.remove(&number);
    }
    Ok(())
}

/// The numbers that are true by some rows, the first row of each number deciding. So the rows are noted from the last to
/// the first.
fn true_set(alloc: Global, rows: &[FunRow]) -> Result<BTreeSet<u64>, NoMemory>
    requires { All (HasKeys 1) rows.now }
    ensures has { IfOk result (λ set. (n : ℕ) → contains nat_cmp set n ≡ first_true rows.now n) }
    ensures ordered { IfOk result (λ set. IsOrdered nat_cmp set) }
{
    let mut numbers = BTreeSet::new(alloc);
    let mut at = rows.len();
    while at > 0 {
        at -= 1;
        note_row(&rows[at], &mut numbers)?;
    }
    Ok(numbers)
}

/// The numbers of a set, which is empty afterwards.
fn in_order(alloc: Global, numbers: &mut BTreeSet<u64>) -> Result<Vec<u64>, NoMemory>
    ensures { IfOk result (λ listed. listed.items ≡ numbers.old.keys) }
{
    let mut listed = Vec::new(alloc);
    while let Some(number) = numbers.pop_first() {
        listed.push(number)?;
    }
    Ok(listed)
}

/// The number, if it has at most 16 bits.
fn short(number: u64) -> Option<u16>
    ensures { option_map (λ n. n) result ≡ (if fits_width 16 number then Some number else None) }
{
    u16::try_from(number).ok()
}

fn short_numbers(alloc: Global, numbers: &[u64]) -> Result<Vec<u16>, NoMemory>
    ensures { IfOk result (λ listed. listed.items ≡ filter (fits_width 16) numbers.now) }
{
    let mut listed = Vec::new(alloc);
    for number in numbers {
        if let Some(number) = short(*number) {
            listed.push(number)?;
        }
    }
    Ok(listed)
}

/// The rows of a table of one parameter; of another, none.
fn single_rows(place: &Option<FunTable>) -> &[FunRow]
    requires { MayHaveShape place.now }
    ensures keys { All (HasKeys 1) result.now }
    ensures rows { (n : ℕ) → first_true result.now n ≡ true_by place.now n }
{
    match place {
        Some(table) => {
            if table.widths.items().len() == 1 {
                table.rows.items()
            } else {
                &[]
            }
        }
        None => &[],
    }
}

impl TrueNumbers {
    /// Those of what stands at the place of a function.
    fn of(alloc: Global, place: &Option<FunTable>) -> Result<TrueNumbers, NoMemory>
        requires { MayHaveShape place.now }
        ensures { IfOk result (IsListed place.now) }
    {
        let mut numbers = true_set(alloc, single_rows(place))?;
        let all = in_order(alloc, &mut numbers)?;
        let short = short_numbers(alloc, &all)?;
        Ok(TrueNumbers { all, short })
    }
}

/// Those of each place.
pub(crate) fn all_numbers(
    alloc: Global,
    tables: &[Option<FunTable>],
) -> Result<Vec<TrueNumbers>, NoMemory>
    requires { All MayHaveShape tables.now }
    ensures { IfOk result (λ numbers. AllZip IsListed tables.now numbers.items) }
{
    let mut numbers = Vec::new(alloc);
    for place in tables {
        numbers.push(TrueNumbers::of(alloc, place)?)?;
    }
    Ok(numbers)
}
