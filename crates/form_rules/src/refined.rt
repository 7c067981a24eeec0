//! Parameters and guards of refined roles.
ghost use Rattle.std.specs.Prelude.{◌≡◌, ◌&&◌, ◌+◌, filter_map, flat_map, IfOk, map, OnOk, option_to_list};
ghost use Rattle.cocoon_syntax.specs.TreeOf.{decl_of, design_of, refine_of, role_of};
ghost use Rattle.cocoon_types.specs.Design.{as_role};
ghost use Rattle.cocoon_types.specs.FormRules.{changed_in};
ghost use Rattle.cocoon_types.specs.Noting.{Notes};
ghost use Rattle.cocoon_types.specs.RuleParts.{blocks_from};
ghost use Rattle.cocoon_types.specs.Rules.{fails_at, header_changed};
ghost use Rattle.cocoon_types.specs.SameTrees as same;
ghost use Rattle.declarations.specs.Declares.{Declares};
ghost use Rattle.cocoon_types.specs.Among.{among};
ghost use Rattle.form_rules.specs.Parts.{changed};

use crate::same_trees::{is_same, same_params};
use cocoon_num::NoMemory;
use cocoon_syntax::{Decl, Design, Refine, Role};
use cocoon_types::{Noted, TypeRule, among_laws, note_unless};
use declarations::Declarations;

/// The number of the next level.
pub(crate) fn next_level(level: u32) -> Result<u32, NoMemory>
    ensures { IfOk result (λ next. next ≡ level + 1) }
{
    level.checked_add(1).ok_or(NoMemory)
}

/// Whether two roles have the same parameters and the same guard.
fn same_header(old: &Role, role: &Role) -> bool
    ensures { result ≡ (same.same_params (role_of old.now).params (role_of role.now).params
        && same.same_expr (role_of old.now).guard (role_of role.now).guard) }
{
    same_params(&old.params, &role.params) && is_same(&old.guard, &role.guard)
}

/// Notes a role with other parameters or another guard than it has at the level above.
fn note_role(names: &Declarations, design: &Design, above: u32, role: &Role, noted: &mut Noted)
    requires { Declares names.now (design_of design.now) }
    ensures { Notes (among header_changed (changed (design_of design.now) above (role_of role.now)))
        noted.old noted.new }
{
    among_laws();
    match names.role_at(design, role.name.text.bytes(), above) {
        Some(old) => {
            let same = same_header(old, role);
            note_unless(noted, same, TypeRule::HeaderChanged, role.name.at);
        }
        None => (),
    }
}

/// Notes the declaration, if it is such a role.
fn note_decl(names: &Declarations, design: &Design, above: u32, decl: &Decl, noted: &mut Noted)
    requires { Declares names.now (design_of design.now) }
    ensures { Notes (among header_changed (flat_map (changed (design_of design.now) above)
        (option_to_list (as_role (decl_of decl.now))))) noted.old noted.new }
{
    among_laws();
    match decl {
        Decl::Role(role) => note_role(names, design, above, role, noted),
        _ => (),
    }
}

/// Notes such roles of a block.
fn note_decls(names: &Declarations, design: &Design, above: u32, decls: &[Decl], noted: &mut Noted)
    requires { Declares names.now (design_of design.now) }
    ensures { Notes (among header_changed (flat_map (changed (design_of design.now) above)
        (filter_map as_role (map decl_of decls.now)))) noted.old noted.new }
{
    among_laws();
    for decl in decls {
        note_decl(names, design, above, decl, noted);
    }
}

fn note_blocks(
    names: &Declarations,
    design: &Design,
    blocks: &[Refine],
    noted: &mut Noted,
) -> Result<(), NoMemory>
    requires { Declares names.now (design_of design.now) }
    ensures { OnOk result (Notes (among header_changed
        (blocks_from (changed_in (design_of design.now)) 0 (map refine_of blocks.now)))
        noted.old noted.new) }
{
    among_laws();
    let mut above = 0u32;
    for block in blocks {
        note_decls(names, design, above, &block.decls, noted);
        above = next_level(above)?;
    }
    Ok(())
}

/// Notes refined roles with other parameters or another guard than the level above has.
pub(crate) fn note_header_changed(
    names: &Declarations,
    design: &Design,
    noted: &mut Noted,
) -> Result<(), NoMemory>
    requires { Declares names.now (design_of design.now) }
    ensures { OnOk result (Notes
        (among header_changed (fails_at header_changed (design_of design.now)))
        noted.old noted.new) }
{
    note_blocks(names, design, &design.refines, noted)?;
    Ok(())
}
