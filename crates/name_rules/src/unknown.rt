//! Roles that declarations of hosts and of switches name, and no level declares.
ghost use Rattle.std.specs.Prelude.{[], ◌∷◌, OnOk, flat_map, map};
ghost use Rattle.cocoon_syntax.specs.TreeOf.{decl_of, design_of, name_of, refine_of};
ghost use Rattle.cocoon_types.specs.NameRules.{unknown_role_in_decl};
ghost use Rattle.cocoon_types.specs.Noting.{Notes};
ghost use Rattle.cocoon_types.specs.RuleParts.{blocks_from};
ghost use Rattle.cocoon_types.specs.Rules.{unknown_role};
ghost use Rattle.cocoon_types.specs.Sites.{decl_sites};
ghost use Rattle.declarations.specs.Declares.{Declares};
ghost use Rattle.cocoon_types.specs.Among.{among};
ghost use Rattle.name_rules.specs.Among.{unknown_at, unknown_in_block, unknown_named};

use crate::levels::next_level;
use cocoon_num::NoMemory;
use cocoon_syntax::{Decl, Design, Name, Refine};
use cocoon_types::{Noted, TypeRule, among_laws, note_unless};
use declarations::Declarations;

/// Notes a role that no level up to this one declares.
fn note_role(names: &Declarations, design: &Design, level: u32, role: &Name, noted: &mut Noted)
    requires { Declares names.now (design_of design.now) }
    ensures { Notes
        (among unknown_role (unknown_at (design_of design.now) level (name_of role.now)))
        noted.old noted.new }
{
    let known = names.role_at(design, role.text.bytes(), level).is_some();
    note_unless(noted, known, TypeRule::UnknownRole, role.at);
}

/// The same of two.
fn note_pair(
    names: &Declarations,
    design: &Design,
    level: u32,
    first: &Name,
    second: &Name,
    noted: &mut Noted,
)
    requires { Declares names.now (design_of design.now) }
    ensures { Notes (among unknown_role (flat_map (unknown_at (design_of design.now) level)
        (name_of first.now ∷ name_of second.now ∷ [])))
        noted.old noted.new }
{
    among_laws();
    note_role(names, design, level, first, noted);
    note_role(names, design, level, second, noted);
}

/// The same of those that a declaration names.
fn note_named(names: &Declarations, design: &Design, level: u32, decl: &Decl, noted: &mut Noted)
    requires { Declares names.now (design_of design.now) }
    ensures { Notes
        (among unknown_role (unknown_named (design_of design.now) level (decl_of decl.now)))
        noted.old noted.new }
{
    among_laws();
    match decl {
        Decl::Host(host) => note_pair(names, design, level, &host.entry, &host.sink, noted),
        Decl::Switch(switch) => note_pair(names, design, level, &switch.into, &switch.out, noted),
        Decl::Function(_) => (),
        Decl::Assume(_) => (),
        Decl::Role(_) => (),
    }
}

fn note_in_level(
    names: &Declarations,
    design: &Design,
    level: u32,
    decls: &[Decl],
    noted: &mut Noted,
)
    requires { Declares names.now (design_of design.now) }
    ensures { Notes (among unknown_role
        (flat_map (unknown_named (design_of design.now) level) (map decl_of decls.now)))
        noted.old noted.new }
{
    among_laws();
    for decl in decls {
        note_named(names, design, level, decl, noted);
    }
}

fn note_in_blocks(
    names: &Declarations,
    design: &Design,
    blocks: &[Refine],
    noted: &mut Noted,
) -> Result<(), NoMemory>
    requires { Declares names.now (design_of design.now) }
    ensures { OnOk result (Notes (among unknown_role
        (blocks_from (unknown_in_block (design_of design.now)) 1 (map refine_of blocks.now)))
        noted.old noted.new) }
{
    among_laws();
    let mut level = 1u32;
    for block in blocks {
        note_in_level(names, design, level, &block.decls, noted);
        level = next_level(level)?;
    }
    Ok(())
}

/// Notes roles that declarations name, and that no level up to theirs declares.
pub(crate) fn note_unknown_roles(
    names: &Declarations,
    design: &Design,
    noted: &mut Noted,
) -> Result<(), NoMemory>
    requires { Declares names.now (design_of design.now) }
    ensures { OnOk result (Notes (among unknown_role
        (flat_map unknown_role_in_decl (decl_sites (design_of design.now))))
        noted.old noted.new) }
{
    among_laws();
    note_in_level(names, design, 0, &design.decls, noted);
    note_in_blocks(names, design, &design.refines, noted)?;
    Ok(())
}
