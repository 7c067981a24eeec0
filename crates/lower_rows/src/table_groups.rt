//! The groups of one table.
ghost use Rattle.std.specs.Prelude.{◌≡◌, ◌++◌, All, [], IfOk, List, ℕ, length, map, OnOk, true};
ghost use Rattle.cocoon_num.specs.Lists.{all_distinct};
ghost use Rattle.lowering_correct.specs.Groups as spec;
ghost use Rattle.lower_rows.specs.Grouping.{AddsChoice, grouped_of, keys_of, lists_of, no_members, said_true};
ghost use Rattle.lower_rows.specs.Numbered.{Holds};
ghost use Rattle.lower_rows.specs.Sets.{grouped_with, IsDecided, members_by, row_args, true_first};

use crate::args_table::ArgsTable;
use crate::first_rows::FirstRows;
use crate::fork_args::fork_args;
use crate::keys::{before_last, last};
use cocoon_num::{FunRow, FunTable, NoMemory};
use std::alloc::Global;
use std::collections::BTreeSet;

/// The arguments before the choice, and the choices at which a function is true.
#[derive(Drop)]
pub struct Grouped {
    pub args: Vec<u64>,
    /// They ascend.
    pub members: Vec<u64>,
}

/// An empty set for each list.
fn empty_sets(alloc: Global, lists: &[Vec<u64>]) -> Result<Vec<BTreeSet<u64>>, NoMemory>
    ensures { IfOk result (λ sets. keys_of sets.items ≡ map no_members lists.now) }
{
    let mut sets = Vec::new(alloc);
    for _ in lists {
        sets.push(BTreeSet::new(alloc))?;
    }
    Ok(sets)
}

/// Adds the choice of a row to the set of its arguments, where its values are true.
fn add_choice(
    args: &ArgsTable,
    first: &FirstRows,
    row: &FunRow,
    sets: &mut Vec<BTreeSet<u64>>,
) -> Result<(), NoMemory>
    ensures { OnOk result (AddsChoice args.now first.now row.now sets.old.items sets.new.items) }
{
    let values = row.values.items();
    if first.is_true(values) {
        if let Some(number) = args.number(before_last(values)) {
            if number < sets.len() {
                sets[number].insert(last(values))?;
            }
        }
    }
    Ok(())
}

/// The members of the groups of some arguments, each in order.
fn fill_sets(
    alloc: Global,
    args: &ArgsTable,
    first: &FirstRows,
    rows: &[FunRow],
) -> Result<Vec<BTreeSet<u64>>, NoMemory>
    ensures { (ns : List (List ℕ)) → Holds args.now ns → all_distinct ns ≡ true
        → IfOk result (λ sets. keys_of sets.items
        ≡ map (members_by (said_true first.now) rows.now) ns) }
{
    let mut sets = empty_sets(alloc, &args.lists)?;
    let mut at = rows.len();
    while at > 0 {
        at -= 1;
        add_choice(args, first, &rows[at], &mut sets)?;
    }
    Ok(sets)
}

/// The members of a set, which is empty afterwards.
fn in_order(alloc: Global, numbers: &mut BTreeSet<u64>) -> Result<Vec<u64>, NoMemory>
    ensures { IfOk result (λ listed. listed.items ≡ numbers.old.keys) }
{
    let mut listed = Vec::new(alloc);
    while let Some(number) = numbers.pop_first() {
        listed.push(number)?;
    }
    Ok(listed)
}

/// Puts a group at the end, where it has a member.
fn push_group(groups: &mut Vec<Grouped>, args: Vec<u64>, members: Vec<u64>) -> Result<(), NoMemory>
    ensures { OnOk result (map grouped_of groups.new.items
        ≡ map grouped_of groups.old.items ++ spec.where_members args.items members.items) }
{
    if !members.is_empty() {
        groups.push(Grouped { args, members })?;
    }
    Ok(())
}

/// The members of each set.
fn all_members(alloc: Global, sets: Vec<BTreeSet<u64>>) -> Result<Vec<Vec<u64>>, NoMemory>
    ensures { IfOk result (λ members. lists_of members.items ≡ keys_of sets.items) }
{
    let mut members = Vec::new(alloc);
    for mut set in sets {
        members.push(in_order(alloc, &mut set)?)?;
    }
    Ok(members)
}

/// The groups of these arguments with these members.
fn with_members(
    alloc: Global,
    lists: &[Vec<u64>],
    members: &[Vec<u64>],
) -> Result<Vec<Grouped>, NoMemory>
    ensures { IfOk result (λ groups. map grouped_of groups.items
        ≡ grouped_with (lists_of lists.now) (lists_of members.now)) }
{
    let mut groups = Vec::new(alloc);
    let mut at = 0;
    while at < lists.len() && at < members.len() {
        let args = lists[at].to_vec(alloc)?;
        push_group(&mut groups, args, members[at].to_vec(alloc)?)?;
        at += 1;
    }
    Ok(groups)
}

/// The groups of a table whose rows compare all bits: one for all arguments before the choice at which a choice is true, in
/// the order of their first rows. The time is in proportion to the rows, but for a logarithm.
pub(crate) fn table_groups(alloc: Global, table: &FunTable) -> Result<Vec<Grouped>, NoMemory>
    requires { All (IsDecided table.now) table.now.rows }
    ensures { IfOk result (λ groups. map grouped_of groups.items ≡ spec.table_groups table.now) }
{
    let rows = table.rows.items();
    let args = fork_args(alloc, rows)?;
    let first = FirstRows::of(alloc, rows)?;
    let sets = fill_sets(alloc, &args, &first, rows)?;
    let members = all_members(alloc, sets)?;
    with_members(alloc, &args.lists, &members)
}
