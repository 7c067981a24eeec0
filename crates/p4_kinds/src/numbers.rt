//! The rules of tables, and the numbers of those of a control.
ghost use Rattle.std.specs.Prelude.{◌≡◌, ◌++◌, ◌^◌, ◌-◌, length, map, nat_lt, IfOk};
ghost use Rattle.cocoon_num.specs.Lists.{ascend, each};
ghost use Rattle.p4_ir.specs.P4Kinds as rules;
ghost use Rattle.p4_ir.specs.Program.{program_of, table_of};
ghost use Rattle.p4_kinds.specs.Parts.{ascending, number_after};
ghost use Rattle.p4_kinds.specs.Seen.{HasNumbers};

use cocoon_num::NoMemory;
use p4_ir::{Program, Table};
use std::alloc::Global;
use std::collections::BTreeSet;

/// All number meta fields, of which there are so many.
fn are_below(keys: &[u32], count: usize) -> bool
    ensures { result ≡ each (λ i. nat_lt i count) keys.now }
{
    for key in keys {
        if (*key as usize) >= count {
            return false;
        }
    }
    true
}

/// A table keeps the rules of tables by itself, in this program.
pub fn is_fitting(program: &Program, table: &Table) -> bool
    ensures { result ≡ rules.table_fits (program_of program.now) (table_of table.now) }
{
    let count = program.meta.items().len();
    !table.keys.items().is_empty()
        && are_below(table.keys.items(), count)
        && (table.result as usize) < count
        && table.number < u32::MAX
}

fn are_fitting(program: &Program, tables: &[Table]) -> bool
    ensures { result
        ≡ each (rules.table_fits (program_of program.now)) (map table_of tables.now) }
{
    for table in tables {
        if !is_fitting(program, table) {
            return false;
        }
    }
    true
}

/// The least number that may come after these tables, if each is at least the one that may come
/// next.
fn least_after(tables: &[Table], from: u64) -> Option<u64>
    ensures { result ≡ number_after from (rules.numbers_of (map table_of tables.now)) }
{
    let mut least = from;
    for table in tables {
        let number = u64::from(table.number);
        if number < least {
            return None;
        }
        least = number + 1;
    }
    Some(least)
}

/// The numbers ascend over both controls.
fn are_ascending(program: &Program) -> bool
    ensures { result ≡ ascending (program_of program.now) }
{
    match least_after(program.ingress.tables.items(), 0) {
        Some(least) => least_after(program.egress.tables.items(), least).is_some(),
        None => false,
    }
}

fn ascends(program: &Program) -> bool
    ensures { result ≡ ascend
        (rules.numbers_of (program_of program.now).ingress.tables
        ++ rules.numbers_of (program_of program.now).egress.tables) }
{
    are_ascending(program)
}

pub(crate) fn tables_fit(program: &Program) -> bool
    ensures { result ≡ rules.tables_fit (program_of program.now) }
{
    let ingress = are_fitting(program, program.ingress.tables.items());
    let egress = are_fitting(program, program.egress.tables.items());
    ingress && egress && ascends(program)
}

/// The numbers of these tables.
pub fn numbers_of(alloc: Global, tables: &[Table]) -> Result<BTreeSet<u32>, NoMemory>
    ensures { IfOk result (λ set.
        HasNumbers set.keys (rules.numbers_of (map table_of tables.now))) }
{
    let mut numbers = BTreeSet::new(alloc);
    for table in tables {
        numbers.insert(table.number)?;
    }
    Ok(numbers)
}
