//! Roles that are declared again.
ghost use Rattle.std.specs.Prelude.{◌≡◌, [], ◌∷◌, ◌++◌, List, IfOk, OnOk, Some, map};
ghost use Rattle.cocoon_num.specs.Tree.{Name as Called, Role as Declared};
ghost use Rattle.cocoon_syntax.specs.TreeOf.{decl_of, design_of, name_of, refine_of};
ghost use Rattle.cocoon_types.specs.Design.{as_role};
ghost use Rattle.cocoon_types.specs.Noting.{Notes};
ghost use Rattle.cocoon_types.specs.RuleParts.{blocks_from, role_names};
ghost use Rattle.cocoon_types.specs.Rules.{twice};
ghost use Rattle.declarations.specs.Declares.{Declares};
ghost use Rattle.cocoon_types.specs.Among.{among};
ghost use Rattle.name_rules.specs.Among.{Seen, again_in_block, again_outside, declared_again, may_stand, roles_twice};

use crate::levels::{next_level, role_in};
use crate::truth::{both_hold, either_holds};
use cocoon_num::NoMemory;
use cocoon_syntax::{Decl, Design, Name, Refine};
use cocoon_types::{Noted, TypeRule, among_laws, note_unless};
use declarations::{Declarations, NameTable};
use std::alloc::Global;

/// Notes a role that is in the table or may not stand, and puts it there.
fn note_role(
    alloc: Global,
    seen: &mut NameTable,
    role: &Name,
    may: bool,
    noted: &mut Noted,
) -> Result<(), NoMemory>
    ensures kept { (names : List Called) → Seen seen.old names
        → OnOk result (Seen seen.new (names ++ name_of role.now ∷ [])) }
    ensures notes { (names : List Called) → Seen seen.old names
        → Notes (among twice (declared_again (λ r. may) names (name_of role.now ∷ [])))
        noted.old noted.new }
{
    let first = seen.number(role.text.bytes()).is_none();
    note_unless(noted, both_hold(first, may), TypeRule::Twice, role.at);
    seen.append(alloc, role.text.bytes())?;
    Ok(())
}

/// Notes the role of a declaration, if it is one, likewise.
fn note_decl(
    alloc: Global,
    seen: &mut NameTable,
    decl: &Decl,
    may: bool,
    noted: &mut Noted,
) -> Result<(), NoMemory>
    ensures kept { (names : List Called) → Seen seen.old names
        → OnOk result (Seen seen.new (names ++ role_names (decl_of decl.now ∷ []))) }
    ensures notes { (names : List Called) → Seen seen.old names
        → OnOk result (Notes (among twice
        (declared_again (λ r. may) names (role_names (decl_of decl.now ∷ []))))
        noted.old noted.new) }
{
    among_laws();
    match role_in(decl) {
        Some(role) => note_role(alloc, seen, &role.name, may, noted)?,
        None => (),
    }
    Ok(())
}

/// Notes roles that stand twice at level 0.
fn note_outside(alloc: Global, decls: &[Decl], noted: &mut Noted) -> Result<(), NoMemory>
    ensures { OnOk result (Notes (among twice (again_outside (map decl_of decls.now)))
        noted.old noted.new) }
{
    among_laws();
    let mut seen = NameTable::new(alloc);
    for decl in decls {
        note_decl(alloc, &mut seen, decl, true, noted)?;
    }
    Ok(())
}

/// The names of a list.
fn listed_names(alloc: Global, roles: &[Name]) -> Result<NameTable, NoMemory>
    ensures { IfOk result (λ table. Seen table (map name_of roles.now)) }
{
    let mut table = NameTable::new(alloc);
    for role in roles {
        table.append(alloc, role.text.bytes())?;
    }
    Ok(table)
}

/// Says of a role whether a block with this list may declare it.
fn role_may_stand(
    names: &Declarations,
    design: &Design,
    above: u32,
    listed: &NameTable,
    role: &Name,
) -> bool
    requires { Declares names.now (design_of design.now) }
    ensures { (list : List Called) → Seen listed.now list
        → result ≡ may_stand (design_of design.now) above list (name_of role.now) }
{
    let again = listed.number(role.text.bytes()).is_some();
    let new = names.role_at(design, role.text.bytes(), above).is_none();
    either_holds(again, new)
}

/// The same of a declaration, if it is a role.
fn decl_may_stand(
    names: &Declarations,
    design: &Design,
    above: u32,
    listed: &NameTable,
    decl: &Decl,
) -> bool
    requires { Declares names.now (design_of design.now) }
    ensures { (list : List Called) (role : Declared) → Seen listed.now list
        → as_role (decl_of decl.now) ≡ Some role
        → result ≡ may_stand (design_of design.now) above list role.name }
{
    match role_in(decl) {
        Some(role) => role_may_stand(names, design, above, listed, &role.name),
        None => true,
    }
}

/// Notes roles of a block with this list that stand there twice or may not stand there.
fn note_declared(
    alloc: Global,
    names: &Declarations,
    design: &Design,
    above: u32,
    listed: &NameTable,
    decls: &[Decl],
    noted: &mut Noted,
) -> Result<(), NoMemory>
    requires { Declares names.now (design_of design.now) }
    ensures { (list : List Called) → Seen listed.now list
        → OnOk result (Notes (among twice (declared_again
        (may_stand (design_of design.now) above list) [] (role_names (map decl_of decls.now))))
        noted.old noted.new) }
{
    among_laws();
    let mut seen = NameTable::new(alloc);
    for decl in decls {
        let may = decl_may_stand(names, design, above, listed, decl);
        note_decl(alloc, &mut seen, decl, may, noted)?;
    }
    Ok(())
}

fn note_in_block(
    alloc: Global,
    names: &Declarations,
    design: &Design,
    above: u32,
    block: &Refine,
    noted: &mut Noted,
) -> Result<(), NoMemory>
    requires { Declares names.now (design_of design.now) }
    ensures { OnOk result (Notes
        (among twice (again_in_block (design_of design.now) above (refine_of block.now)))
        noted.old noted.new) }
{
    let listed = listed_names(alloc, &block.roles)?;
    note_declared(alloc, names, design, above, &listed, &block.decls, noted)?;
    Ok(())
}

fn note_in_blocks(
    alloc: Global,
    names: &Declarations,
    design: &Design,
    blocks: &[Refine],
    noted: &mut Noted,
) -> Result<(), NoMemory>
    requires { Declares names.now (design_of design.now) }
    ensures { OnOk result (Notes (among twice
        (blocks_from (again_in_block (design_of design.now)) 0 (map refine_of blocks.now)))
        noted.old noted.new) }
{
    among_laws();
    let mut above = 0u32;
    for block in blocks {
        note_in_block(alloc, names, design, above, block, noted)?;
        above = next_level(above)?;
    }
    Ok(())
}

/// Notes roles that are declared again.
pub(crate) fn note_roles_again(
    alloc: Global,
    names: &Declarations,
    design: &Design,
    noted: &mut Noted,
) -> Result<(), NoMemory>
    requires { Declares names.now (design_of design.now) }
    ensures { OnOk result (Notes (among twice (roles_twice (design_of design.now)))
        noted.old noted.new) }
{
    among_laws();
    note_outside(alloc, &design.decls, noted)?;
    note_in_blocks(alloc, names, design, &design.refines, noted)?;
    Ok(())
}
