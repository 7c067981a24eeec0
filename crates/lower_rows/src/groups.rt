//! The groups of all functions that stand under forks.
ghost use Rattle.std.specs.Prelude.{◌≡◌, ◌++◌, IfOk, map, OnOk, slice_get, Some};
ghost use Rattle.cocoon_num.specs.Tree.{FunctionDecl as Function};
ghost use Rattle.cocoon_syntax.specs.TreeOf.{design_of, function_of};
ghost use Rattle.cocoon_types.specs.Design.{functions};
ghost use Rattle.lowering_correct.specs.Groups as spec;
ghost use Rattle.lower_rows.specs.AllGroups.{fork_group_of, function_groups, IsDecidedAt, of_function, place_groups};
ghost use Rattle.lower_rows.specs.Grouping.{grouped_of};
ghost use Rattle.cocoon_num.specs.declared.fun_table.FunTable.{FunTable as Table};
ghost use Rattle.runtime_defs.specs.Fitting.{FitsDesign};

use crate::forked::is_forked;
use crate::table_groups::{Grouped, table_groups};
use cocoon_num::{FunTable, NoMemory};
use cocoon_resolve::Checked;
use cocoon_syntax::FunctionDecl;
use runtime_defs::Defs;
use std::alloc::Global;

/// A group of the function of a name.
#[derive(Drop)]
pub struct ForkGroup<'d> {
    pub function: &'d [u8],
    pub grouped: Grouped,
}

/// Puts the groups of a function's table at the end, if it stands under forks.
fn push_groups<'d>(
    alloc: Global,
    checked: &'d Checked,
    function: &'d FunctionDecl,
    table: &FunTable,
    groups: &mut Vec<ForkGroup<'d>>,
) -> Result<(), NoMemory>
    requires { IsDecidedAt (design_of checked.now) (function_of function.now) table.now }
    ensures { OnOk result (map fork_group_of groups.new.items
        ≡ map fork_group_of groups.old.items
        ++ function_groups (design_of checked.now) (function_of function.now) (Some table.now)) }
{
    let name = function.name.text.bytes();
    if is_forked(checked, name) {
        let made = table_groups(alloc, table)?;
        push_all(name, made, groups)?;
    }
    Ok(())
}

/// Puts the groups of the function of a name at the end.
fn push_all<'d>(
    function: &'d [u8],
    made: Vec<Grouped>,
    groups: &mut Vec<ForkGroup<'d>>,
) -> Result<(), NoMemory>
    ensures { OnOk result (map fork_group_of groups.new.items ≡ map fork_group_of groups.old.items
        ++ map (of_function function.now) (map grouped_of made.items)) }
{
    for grouped in made {
        groups.push(ForkGroup { function, grouped })?;
    }
    Ok(())
}

/// Puts the groups of what stands at the place of a function at the end.
fn push_place<'d>(
    alloc: Global,
    checked: &'d Checked,
    number: u32,
    place: &Option<FunTable>,
    groups: &mut Vec<ForkGroup<'d>>,
) -> Result<(), NoMemory>
    requires { (f : Function) (t : Table)
        → slice_get (functions (design_of checked.now)) number ≡ Some f
        → place.now ≡ Some t → IsDecidedAt (design_of checked.now) f t }
    ensures { OnOk result (map fork_group_of groups.new.items ≡ map fork_group_of groups.old.items
        ++ place_groups (design_of checked.now) number place.now) }
{
    let Some(table) = place else {
        return Ok(());
    };
    match checked.names().function(checked.design(), number) {
        Some(function) => push_groups(alloc, checked, function, table, groups),
        None => Ok(()),
    }
}

/// The groups of the functions that stand under forks, in the order of declaration. A group's number is its place, from 1.
pub fn fork_groups<'d>(
    alloc: Global,
    checked: &'d Checked,
    defs: &Defs,
) -> Result<Vec<ForkGroup<'d>>, NoMemory>
    requires { FitsDesign (design_of checked.now) defs.now }
    ensures { IfOk result (λ groups. map fork_group_of groups.items
        ≡ spec.fork_groups (design_of checked.now) defs.now) }
{
    let mut groups = Vec::new(alloc);
    let mut number: u32 = 0;
    for place in defs.tables() {
        push_place(alloc, checked, number, place, &mut groups)?;
        number = number.checked_add(1).ok_or(NoMemory)?;
    }
    Ok(groups)
}
