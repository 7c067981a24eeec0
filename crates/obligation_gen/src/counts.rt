//! The leaves of a role's tree, by tables of the new roles.
ghost use Rattle.std.specs.Prelude.{◌≡◌, ◌+◌, ◌++◌, ◌≤◌, ◌<◌, ◌-◌, ◌^◌, ◌∷◌, [], false, filter, IfOk, map, ℕ, OnOk, Some, slice_get, suc};
ghost use Rattle.cocoon_num.specs.Tree.{Refine};
ghost use Rattle.cocoon_syntax.specs.TreeOf.{decl_of, design_of};
ghost use Rattle.cocoon_types.specs.Design.{last_level, role_at};
ghost use Rattle.cocoon_types.specs.Limits.{reported};
ghost use Rattle.refinement.specs.Segments.{is_new};
ghost use Rattle.obligation_laws.specs.Counts.{leaf_count, sends_of, sum_of};
ghost use Rattle.obligation_gen.specs.Tabled.{entries, role_texts, Tells, valued};
ghost use Rattle.obligation_gen.specs.Weighed.{leaves_in};

use crate::ways::{RoleLeaves, body_leaves};
use cocoon_num::NoMemory;
use cocoon_resolve::Checked;
use cocoon_syntax::Decl;
use std::alloc::Global;

/// Whether a role is declared at the level behind a level, and not before.
fn is_new_role(checked: &Checked, above: u32, name: &[u8]) -> bool
    requires { above + 1 < 2 ^ 32 }
    ensures { result ≡ is_new above (design_of checked.now) name.now }
{
    let names = checked.names();
    names.role_at(checked.design(), name, above + 1).is_some()
        && names.role_at(checked.design(), name, above).is_none()
}

/// The leaves behind a role's body, by those behind the roles that it sends to.
fn role_leaves(checked: &Checked, level: u32, name: &[u8], table: &[RoleLeaves]) -> u64
    ensures { result ≡ reported (sum_of (map (leaves_in table.now)
        (sends_of (role_at level (design_of checked.now)) name.now))) }
{
    match checked.names().role_at(checked.design(), name, level) {
        Some(role) => match &role.body {
            Some(body) => body_leaves(body, table),
            None => 0,
        },
        None => 0,
    }
}

/// Notes the role of a declaration, if it is new, with one body more.
fn note_decl<'d>(
    checked: &Checked,
    above: u32,
    decl: &'d Decl,
    table: &[RoleLeaves],
    next: &mut Vec<RoleLeaves<'d>>,
) -> Result<(), NoMemory>
    requires { above + 1 < 2 ^ 32 }
    ensures { OnOk result (entries next.new.items ≡ entries next.old.items
        ++ valued (design_of checked.now) above table.now
        (filter (is_new above (design_of checked.now)) (role_texts (decl_of decl.now ∷ [])))) }
{
    if let Decl::Role(role) = decl {
        let name = role.name.text.bytes();
        if is_new_role(checked, above, name) {
            let leaves = role_leaves(checked, above + 1, name, table);
            next.push(RoleLeaves { name, leaves })?;
        }
    }
    Ok(())
}

/// The table of the new roles with one body more.
fn next_table<'d>(
    alloc: Global,
    checked: &Checked,
    above: u32,
    decls: &'d [Decl],
    table: &[RoleLeaves],
) -> Result<Vec<RoleLeaves<'d>>, NoMemory>
    requires { above + 1 < 2 ^ 32 }
    ensures { IfOk result (λ next. entries next.items ≡ valued (design_of checked.now) above
        table.now (filter (is_new above (design_of checked.now))
        (role_texts (map decl_of decls.now)))) }
{
    let mut next = Vec::new(alloc);
    for decl in decls {
        note_decl(checked, above, decl, table, &mut next)?;
    }
    Ok(next)
}

/// The number of leaves of one body at a level.
pub fn body_leaf_count(checked: &Checked, level: u32, role: &[u8]) -> u64
    ensures { result ≡ reported (leaf_count (role_at level (design_of checked.now)) (λ r. false)
        1 role.now) }
{
    role_leaves(checked, level, role, &[])
}

/// The number of leaves of a role that the block behind a level refines, with so many bodies.
pub fn leaf_count(
    alloc: Global,
    checked: &Checked,
    above: u32,
    role: &[u8],
    within: u32,
) -> Result<u64, NoMemory>
    requires block { above < last_level (design_of checked.now) }
    requires level { above + 1 < 2 ^ 32 }
    requires bodies { 1 ≤ within }
    ensures { IfOk result (λ n. n ≡ reported (leaf_count
        (role_at (suc above) (design_of checked.now))
        (is_new above (design_of checked.now)) within role.now)) }
{
    let decls = &checked.design().refines[above as usize].decls;
    let mut table = Vec::new(alloc);
    for bodies in 0..within - 1 {
        table = next_table(alloc, checked, above, decls, &table)?;
    }
    Ok(role_leaves(checked, above + 1, role, &table))
}
