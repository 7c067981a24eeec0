//! How many rows the tables of a switch have, before one is made.
ghost use Rattle.std.specs.Prelude.{◌≡◌, ◌++◌, count_by, flat_map, length, map, nat_lt};
ghost use Rattle.cocoon_num.specs.Names.{same_name};
ghost use Rattle.cocoon_syntax.specs.TreeOf.{design_of};
ghost use Rattle.lower_code.specs.Growth.{made_in, made_of};
ghost use Rattle.lowering_correct.specs.Groups.{fork_groups};
ghost use Rattle.lowering_correct.specs.SwitchRows as spec;
ghost use Rattle.lower_rows.specs.AllGroups.{fork_group_of};
ghost use Rattle.lower_rows.specs.AllRows.{all_rows, room_left, rows_in};

use crate::forked::is_same;
use crate::groups::ForkGroup;
use crate::rows::{function_name, function_table};
use cocoon_resolve::Checked;
use lower_code::Made;
use runtime_defs::Defs;

/// How many groups are of the function of this name.
fn group_count(groups: &[ForkGroup<'_>], function: &[u8]) -> u64
    ensures { result ≡ count_by (λ g. same_name function.now g.function.now) groups.now }
{
    let of_function = groups
        .iter()
        .filter(|group| is_same(function, group.function));
    of_function.count() as u64
}

/// How many rows the table of a part that was made has; a field has none.
fn row_count(checked: &Checked, defs: &Defs, groups: &[ForkGroup<'_>], part: &Made) -> u64
    requires { map fork_group_of groups.now ≡ fork_groups (design_of checked.now) defs.now }
    ensures { result ≡ length (rows_in (spec.made_rows (design_of checked.now) defs.now
        (made_of (design_of checked.now) part.now))) }
{
    match part {
        Made::Field(_) => 0,
        Made::Table(_, function) => {
            let name = function_name(checked, *function);
            match function_table(checked, defs, name) {
                Some(table) => table.rows.items().len() as u64,
                None => 0,
            }
        }
        Made::Group(_, function) => group_count(groups, function_name(checked, *function)),
    }
}

/// The room that the rows of the tables that were made leave; none where they do not fit.
fn room_after(
    checked: &Checked,
    defs: &Defs,
    groups: &[ForkGroup<'_>],
    made: &[Made],
    room: u64,
) -> Option<u64>
    requires { map fork_group_of groups.now ≡ fork_groups (design_of checked.now) defs.now }
    ensures { result ≡ room_left room (length (rows_in
        (flat_map (spec.made_rows (design_of checked.now) defs.now)
        (made_in (design_of checked.now) made.now)))) }
{
    let mut left = room;
    for part in made {
        left = left.checked_sub(row_count(checked, defs, groups, part))?;
    }
    Some(left)
}

/// Whether the tables of a switch would have more rows in all than so many, where these tables were made for the two
/// controls. No row is made.
pub fn has_more_rows(
    checked: &Checked,
    defs: &Defs,
    groups: &[ForkGroup<'_>],
    ingress: &[Made],
    egress: &[Made],
    most: u64,
) -> bool
    requires { map fork_group_of groups.now ≡ fork_groups (design_of checked.now) defs.now }
    ensures { result ≡ nat_lt most (length (all_rows (spec.switch_rows (design_of checked.now)
        defs.now (made_in (design_of checked.now) (ingress.now ++ egress.now))))) }
{
    match room_after(checked, defs, groups, ingress, most) {
        Some(room) => room_after(checked, defs, groups, egress, room).is_none(),
        None => true,
    }
}
