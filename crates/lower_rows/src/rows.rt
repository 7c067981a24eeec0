//! The rows of all tables of a switch.
ghost use Rattle.std.specs.Prelude.{◌≡◌, ◌<◌, ◌≤◌, ◌++◌, ◌-◌, ◌^◌, All, IfOk, Some, flat_map, map, OnOk, option_map};
ghost use Rattle.cocoon_resolve.specs.Kept.{AreDeclared};
ghost use Rattle.cocoon_syntax.specs.TreeOf.{design_of, param_of};
ghost use Rattle.cocoon_types.specs.Design.{widths_of};
ghost use Rattle.runtime_defs.specs.Printable as fitting;
ghost use Rattle.lower_code.specs.Growth.{made_in, made_of, params_at, text_at};
ghost use Rattle.lowering.specs.Lower as lower;
ghost use Rattle.lowering_correct.specs.Groups.{fork_groups};
ghost use Rattle.lowering_correct.specs.SwitchRows as spec;
ghost use Rattle.lower_rows.specs.AllGroups.{fork_group_of};
ghost use Rattle.lower_rows.specs.Words.{HasWord, HasWords};
ghost use Rattle.p4_ir.specs.NetOf.{group_of, key_row_of, rows_of, table_rows_of};
ghost use Rattle.runtime_defs.specs.Fitting.{FitsDesign};
ghost use Rattle.runtime_defs.specs.Guards.{table_named};

use crate::forked::is_same;
use crate::groups::ForkGroup;
use cocoon_num::{FunRow, FunTable, List, NoMemory};
use cocoon_resolve::Checked;
use cocoon_syntax::Param;
use declarations::FunId;
use lower_code::Made;
use p4_ir::{Group, KeyRow, RowsFile, TableRows};
use runtime_defs::Defs;
use std::alloc::Global;

/// The bits of values that masks compare.
fn masked(alloc: Global, values: &[u64], masks: &[u64]) -> Result<Vec<u64>, NoMemory>
    ensures { IfOk result (λ v. v.items ≡ spec.masked values.now masks.now) }
{
    let mut bits = Vec::new(alloc);
    let mut at = 0;
    while at < values.len() && at < masks.len() {
        bits.push(values[at] & masks[at])?;
        at += 1;
    }
    Ok(bits)
}

/// A result as a table holds it.
fn word(value: u128) -> u64
    requires { value < 2 ^ 64 }
    ensures { result ≡ value }
{
    value as u64
}

fn key_row(alloc: Global, row: &FunRow) -> Result<KeyRow, NoMemory>
    requires { HasWord row.now }
    ensures { IfOk result (λ r. key_row_of r ≡ spec.key_row row.now) }
{
    let values = List::from(masked(alloc, row.values.items(), row.masks.items())?);
    let masks = List::from(row.masks.items().to_vec(alloc)?);
    Ok(KeyRow {
        values,
        masks,
        result: word(row.result.value),
    })
}

fn key_rows(alloc: Global, rows: &[FunRow]) -> Result<Vec<KeyRow>, NoMemory>
    requires { All HasWord rows.now }
    ensures { IfOk result (λ rs. map key_row_of rs.items ≡ map spec.key_row rows.now) }
{
    let mut made = Vec::new(alloc);
    for row in rows {
        made.push(key_row(alloc, row)?)?;
    }
    Ok(made)
}

/// The rows of a function's table, in the order of its text.
fn function_rows(alloc: Global, number: u32, table: &FunTable) -> Result<TableRows, NoMemory>
    requires { HasWords table.now }
    ensures { IfOk result (λ rows. table_rows_of rows
        ≡ spec.function_rows number (Some table.now)) }
{
    let rows = List::from(key_rows(alloc, table.rows.items())?);
    Ok(TableRows {
        number,
        default: word(table.default.value),
        rows,
    })
}

/// Ones in so many bits.
#[tactic(auto, using(crate::proofs::Narrow::ones_are_a_word))]
fn ones(width: u32) -> u64
    requires { width ≤ 64 }
    ensures { result ≡ 2 ^ width - 1 }
{
    word((1u128 << width) - 1)
}

/// Masks that compare all bits.
fn all_ones(alloc: Global, params: &[Param]) -> Result<Vec<u64>, NoMemory>
    requires { AreDeclared (widths_of (map param_of params.now)) }
    ensures { IfOk result (λ masks. masks.items
        ≡ fitting.all_ones (widths_of (map param_of params.now))) }
{
    let mut masks = Vec::new(alloc);
    for param in params {
        masks.push(ones(param.width))?;
    }
    Ok(masks)
}

/// The row of a group.
fn group_row(
    alloc: Global,
    masks: &[u64],
    number: u16,
    group: &ForkGroup<'_>,
) -> Result<KeyRow, NoMemory>
    ensures { IfOk result (λ r. key_row_of r
        ≡ record { values = group.now.grouped.args.items; masks = masks.now; result = number }) }
{
    let values = List::from(group.grouped.args.to_vec(alloc)?);
    let masks = List::from(masks.to_vec(alloc)?);
    Ok(KeyRow {
        values,
        masks,
        result: u64::from(number),
    })
}

/// The rows of the groups of the function of this name.
fn group_rows(
    alloc: Global,
    masks: &[u64],
    groups: &[ForkGroup<'_>],
    function: &[u8],
) -> Result<Vec<KeyRow>, NoMemory>
    ensures { IfOk result (λ rs. map key_row_of rs.items
        ≡ spec.rows_from masks.now 1 (map fork_group_of groups.now) function.now) }
{
    let mut rows = Vec::new(alloc);
    let mut number: u16 = 1;
    for group in groups {
        if is_same(function, group.function) {
            rows.push(group_row(alloc, masks, number, group)?)?;
        }
        number = number.checked_add(1).ok_or(NoMemory)?;
    }
    Ok(rows)
}

/// The name of the function of a number.
pub(crate) fn function_name(checked: &Checked, number: FunId) -> &[u8]
    ensures { result.now ≡ text_at (design_of checked.now) number }
{
    match checked.names().function(checked.design(), number) {
        Some(function) => function.name.text.bytes(),
        None => &[],
    }
}

/// Its parameters but the last.
fn group_params(checked: &Checked, number: FunId) -> &[Param]
    ensures { map param_of result.now
        ≡ lower.params_before_last (params_at (design_of checked.now) number) }
{
    match checked.names().function(checked.design(), number) {
        Some(function) => params_before_last(&function.params),
        None => &[],
    }
}

/// All parameters but the last.
fn params_before_last(params: &[Param]) -> &[Param]
    ensures { map param_of result.now ≡ lower.params_before_last (map param_of params.now) }
{
    match params.split_last() {
        Some((_, before)) => before,
        None => params,
    }
}

/// The table of the function of a name.
pub(crate) fn function_table<'d>(
    checked: &Checked,
    defs: &'d Defs,
    name: &[u8],
) -> Option<&'d FunTable>
    ensures { option_map (λ t. t.now) result
        ≡ table_named (design_of checked.now) defs.now name.now }
{
    let number = checked.function_of(name)?;
    defs.tables().get(number as usize)?.as_ref()
}

/// Masks that compare all bits of the arguments of a group.
fn group_masks(alloc: Global, checked: &Checked, number: FunId) -> Result<Vec<u64>, NoMemory>
    ensures { IfOk result (λ masks. masks.items ≡ fitting.all_ones (widths_of
        (lower.params_before_last (params_at (design_of checked.now) number)))) }
{
    checked.design();
    checked.know_reading();
    all_ones(alloc, group_params(checked, number))
}

/// The rows of the table of the function of a name.
fn named_rows(
    alloc: Global,
    checked: &Checked,
    defs: &Defs,
    name: &[u8],
    number: u32,
) -> Result<TableRows, NoMemory>
    requires { FitsDesign (design_of checked.now) defs.now }
    ensures { IfOk result (λ rows. table_rows_of rows ≡ spec.function_rows number
        (table_named (design_of checked.now) defs.now name.now)) }
{
    checked.design();
    checked.know_reading();
    match function_table(checked, defs, name) {
        Some(table) => function_rows(alloc, number, table),
        None => Ok(TableRows {
            number,
            default: 0,
            rows: List::from(Vec::new(alloc)),
        }),
    }
}

/// The rows of a table that was made.
fn made_rows(
    alloc: Global,
    checked: &Checked,
    defs: &Defs,
    groups: &[ForkGroup<'_>],
    part: &Made,
    tables: &mut Vec<TableRows>,
) -> Result<(), NoMemory>
    requires fits { FitsDesign (design_of checked.now) defs.now }
    requires groups { map fork_group_of groups.now
        ≡ fork_groups (design_of checked.now) defs.now }
    ensures { OnOk result (map table_rows_of tables.new.items ≡ map table_rows_of tables.old.items
        ++ spec.made_rows (design_of checked.now) defs.now
        (made_of (design_of checked.now) part.now)) }
{
    match part {
        Made::Field(_) => {}
        Made::Table(table, function) => {
            let name = function_name(checked, *function);
            tables.push(named_rows(alloc, checked, defs, name, table.number)?)?;
        }
        Made::Group(table, function) => {
            let name = function_name(checked, *function);
            let masks = group_masks(alloc, checked, *function)?;
            let rows = List::from(group_rows(alloc, &masks, groups, name)?);
            let number = table.number;
            tables.push(TableRows {
                number,
                default: 0,
                rows,
            })?;
        }
    }
    Ok(())
}

/// The rows of the tables that were made, in order.
fn all_made_rows(
    alloc: Global,
    checked: &Checked,
    defs: &Defs,
    groups: &[ForkGroup<'_>],
    made: &[Made],
    tables: &mut Vec<TableRows>,
) -> Result<(), NoMemory>
    requires fits { FitsDesign (design_of checked.now) defs.now }
    requires groups { map fork_group_of groups.now
        ≡ fork_groups (design_of checked.now) defs.now }
    ensures { OnOk result (map table_rows_of tables.new.items ≡ map table_rows_of tables.old.items
        ++ flat_map (spec.made_rows (design_of checked.now) defs.now)
        (made_in (design_of checked.now) made.now)) }
{
    for part in made {
        made_rows(alloc, checked, defs, groups, part, tables)?;
    }
    Ok(())
}

/// Copies of the groups, numbered from 1.
fn numbered_groups(alloc: Global, groups: &[ForkGroup<'_>]) -> Result<Vec<Group>, NoMemory>
    ensures { IfOk result (λ gs. map group_of gs.items
        ≡ spec.groups_from 1 (map fork_group_of groups.now)) }
{
    let mut numbered = Vec::new(alloc);
    let mut number: u16 = 1;
    for group in groups {
        let members = List::from(group.grouped.members.to_vec(alloc)?);
        numbered.push(Group { number, members })?;
        number = number.checked_add(1).ok_or(NoMemory)?;
    }
    Ok(numbered)
}

/// The rows of a switch, where these tables were made for the two controls. There is no memory where there are more than
/// 65,534 groups, either.
pub fn switch_rows(
    alloc: Global,
    checked: &Checked,
    defs: &Defs,
    groups: &[ForkGroup<'_>],
    ingress: &[Made],
    egress: &[Made],
) -> Result<RowsFile, NoMemory>
    requires fits { FitsDesign (design_of checked.now) defs.now }
    requires groups { map fork_group_of groups.now
        ≡ fork_groups (design_of checked.now) defs.now }
    ensures { IfOk result (λ rows. rows_of rows ≡ spec.switch_rows (design_of checked.now) defs.now
        (made_in (design_of checked.now) (ingress.now ++ egress.now))) }
{
    let mut tables = Vec::new(alloc);
    all_made_rows(alloc, checked, defs, groups, ingress, &mut tables)?;
    all_made_rows(alloc, checked, defs, groups, egress, &mut tables)?;
    let groups = numbered_groups(alloc, groups)?;
    Ok(RowsFile {
        tables: List::from(tables),
        groups: List::from(groups),
    })
}
