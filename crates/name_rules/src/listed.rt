//! Lists of blocks: names that stand twice, that are no roles of the level above, or that the block does not declare.
ghost use Rattle.std.specs.Prelude.{[], ◌∷◌, ◌++◌, List, IfOk, OnOk, flat_map, map};
ghost use Rattle.cocoon_num.specs.Tree.{Name as Called};
ghost use Rattle.cocoon_syntax.specs.TreeOf.{decl_of, design_of, name_of, refine_of};
ghost use Rattle.cocoon_types.specs.NameRules.{not_refinable_in};
ghost use Rattle.cocoon_types.specs.Noting.{Notes};
ghost use Rattle.cocoon_types.specs.RuleParts.{blocks_from, repeated, role_names};
ghost use Rattle.cocoon_types.specs.Rules.{fails_at, not_refinable};
ghost use Rattle.declarations.specs.Declares.{Declares};
ghost use Rattle.cocoon_types.specs.Among.{among};
ghost use Rattle.name_rules.specs.Among.{Seen, unrefinable};

use crate::again::note_again;
use crate::levels::{next_level, role_in};
use crate::truth::both_hold;
use cocoon_num::NoMemory;
use cocoon_syntax::{Decl, Design, Name, Refine};
use cocoon_types::{Noted, TypeRule, among_laws, note_unless};
use declarations::{Declarations, NameTable};
use std::alloc::Global;

/// Notes names that stand twice in the list of a block.
fn note_listed(alloc: Global, roles: &[Name], noted: &mut Noted) -> Result<(), NoMemory>
    ensures { OnOk result (Notes (among not_refinable (repeated [] (map name_of roles.now)))
        noted.old noted.new) }
{
    among_laws();
    let mut table = NameTable::new(alloc);
    for role in roles {
        note_again(alloc, &mut table, TypeRule::NotRefinable, role, noted)?;
    }
    Ok(())
}

/// Puts the role into the table, if the declaration is one.
fn put_role(alloc: Global, table: &mut NameTable, decl: &Decl) -> Result<(), NoMemory>
    ensures { (names : List Called) → Seen table.old names
        → OnOk result (Seen table.new (names ++ role_names (decl_of decl.now ∷ []))) }
{
    match role_in(decl) {
        Some(role) => table.append(alloc, role.name.text.bytes())?,
        None => (),
    }
    Ok(())
}

/// The roles that a block declares.
fn declared(alloc: Global, decls: &[Decl]) -> Result<NameTable, NoMemory>
    ensures { IfOk result (λ table. Seen table (role_names (map decl_of decls.now))) }
{
    let mut table = NameTable::new(alloc);
    for decl in decls {
        put_role(alloc, &mut table, decl)?;
    }
    Ok(table)
}

/// Notes names of a list that are no roles of the level above, or not in the table.
fn note_unrefinable(
    names: &Declarations,
    design: &Design,
    above: u32,
    table: &NameTable,
    roles: &[Name],
    noted: &mut Noted,
)
    requires { Declares names.now (design_of design.now) }
    ensures { (declared : List Called) → Seen table.now declared
        → Notes (among not_refinable
        (flat_map (unrefinable (design_of design.now) above declared) (map name_of roles.now)))
        noted.old noted.new }
{
    among_laws();
    for role in roles {
        let there = names.role_at(design, role.text.bytes(), above).is_some();
        let again = table.number(role.text.bytes()).is_some();
        let refinable = both_hold(there, again);
        note_unless(noted, refinable, TypeRule::NotRefinable, role.at);
    }
}

/// Notes what is wrong with the list of a block.
fn note_block(
    alloc: Global,
    names: &Declarations,
    design: &Design,
    above: u32,
    block: &Refine,
    noted: &mut Noted,
) -> Result<(), NoMemory>
    requires { Declares names.now (design_of design.now) }
    ensures { OnOk result (Notes (among not_refinable
        (not_refinable_in (design_of design.now) above (refine_of block.now)))
        noted.old noted.new) }
{
    among_laws();
    note_listed(alloc, &block.roles, noted)?;
    let table = declared(alloc, &block.decls)?;
    note_unrefinable(names, design, above, &table, &block.roles, noted);
    Ok(())
}

fn note_blocks(
    alloc: Global,
    names: &Declarations,
    design: &Design,
    blocks: &[Refine],
    noted: &mut Noted,
) -> Result<(), NoMemory>
    requires { Declares names.now (design_of design.now) }
    ensures { OnOk result (Notes (among not_refinable
        (blocks_from (not_refinable_in (design_of design.now)) 0 (map refine_of blocks.now)))
        noted.old noted.new) }
{
    among_laws();
    let mut above = 0u32;
    for block in blocks {
        note_block(alloc, names, design, above, block, noted)?;
        above = next_level(above)?;
    }
    Ok(())
}

/// Notes what is wrong with the lists of all blocks.
pub(crate) fn note_not_refinable(
    alloc: Global,
    names: &Declarations,
    design: &Design,
    noted: &mut Noted,
) -> Result<(), NoMemory>
    requires { Declares names.now (design_of design.now) }
    ensures { OnOk result (Notes
        (among not_refinable (fails_at not_refinable (design_of design.now))) noted.old noted.new) }
{
    note_blocks(alloc, names, design, &design.refines, noted)?;
    Ok(())
}
