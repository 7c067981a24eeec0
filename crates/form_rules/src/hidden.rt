//! Hidden choices of refined bodies.
ghost use Rattle.std.specs.Prelude.{◌≡◌, flat_map, map, OnOk, option_map};
ghost use Rattle.cocoon_syntax.specs.TreeOf.{block_of, body_of, design_of, name_of, refine_of, stmt_of};
ghost use Rattle.cocoon_types.specs.FormRules.{hidden_above};
ghost use Rattle.cocoon_types.specs.Noting.{Notes};
ghost use Rattle.cocoon_types.specs.ReadBack.{hidden_in};
ghost use Rattle.cocoon_types.specs.RuleParts.{blocks_from};
ghost use Rattle.cocoon_types.specs.Rules.{fails_at, hidden_choice};
ghost use Rattle.declarations.specs.Declares.{Declares};
ghost use Rattle.cocoon_types.specs.Among.{among};
ghost use Rattle.form_rules.specs.Parts.{hidden_of, hidden_where};

use crate::hidden_choice::first_hidden;
use crate::refined::next_level;
use cocoon_num::NoMemory;
use cocoon_syntax::{Design, Name, Refine, Stmt};
use cocoon_types::{Noted, TypeRule, among_laws};
use declarations::Declarations;
use std::alloc::Global;

/// Notes the first hidden choice of a body.
fn note_body(
    alloc: Global,
    design: &Design,
    body: &[Stmt],
    noted: &mut Noted,
) -> Result<(), NoMemory>
    ensures { OnOk result (Notes (among hidden_choice
        (hidden_in (design_of design.now) (block_of (map stmt_of body.now))))
        noted.old noted.new) }
{
    among_laws();
    match first_hidden(alloc, &design.headers, body)? {
        Some(at) => noted.note(TypeRule::HiddenChoice, at),
        None => (),
    }
    Ok(())
}

/// Notes that of the body, if there is one.
fn note_body_of(
    alloc: Global,
    design: &Design,
    body: &Option<Vec<Stmt>>,
    noted: &mut Noted,
) -> Result<(), NoMemory>
    ensures { OnOk result (Notes (among hidden_choice
        (hidden_where (design_of design.now) (option_map body_of body.now)))
        noted.old noted.new) }
{
    among_laws();
    match body {
        Some(body) => note_body(alloc, design, body, noted),
        None => Ok(()),
    }
}

/// Notes that of a role's body at a level.
fn note_role(
    alloc: Global,
    names: &Declarations,
    design: &Design,
    above: u32,
    role: &Name,
    noted: &mut Noted,
) -> Result<(), NoMemory>
    requires { Declares names.now (design_of design.now) }
    ensures { OnOk result (Notes (among hidden_choice
        (hidden_of (design_of design.now) above (name_of role.now))) noted.old noted.new) }
{
    among_laws();
    match names.role_at(design, role.text.bytes(), above) {
        Some(found) => note_body_of(alloc, design, &found.body, noted),
        None => Ok(()),
    }
}

fn note_roles(
    alloc: Global,
    names: &Declarations,
    design: &Design,
    above: u32,
    roles: &[Name],
    noted: &mut Noted,
) -> Result<(), NoMemory>
    requires { Declares names.now (design_of design.now) }
    ensures { OnOk result (Notes (among hidden_choice
        (flat_map (hidden_of (design_of design.now) above) (map name_of roles.now)))
        noted.old noted.new) }
{
    among_laws();
    for role in roles {
        note_role(alloc, names, design, above, role, noted)?;
    }
    Ok(())
}

fn note_blocks(
    alloc: Global,
    names: &Declarations,
    design: &Design,
    blocks: &[Refine],
    noted: &mut Noted,
) -> Result<(), NoMemory>
    requires { Declares names.now (design_of design.now) }
    ensures { OnOk result (Notes (among hidden_choice
        (blocks_from (hidden_above (design_of design.now)) 0 (map refine_of blocks.now)))
        noted.old noted.new) }
{
    among_laws();
    let mut above = 0u32;
    for block in blocks {
        note_roles(alloc, names, design, above, &block.roles, noted)?;
        above = next_level(above)?;
    }
    Ok(())
}

/// Notes the first hidden choice of each body that a block refines.
pub(crate) fn note_hidden_choice(
    alloc: Global,
    names: &Declarations,
    design: &Design,
    noted: &mut Noted,
) -> Result<(), NoMemory>
    requires { Declares names.now (design_of design.now) }
    ensures { OnOk result (Notes
        (among hidden_choice (fails_at hidden_choice (design_of design.now)))
        noted.old noted.new) }
{
    note_blocks(alloc, names, design, &design.refines, noted)?;
    Ok(())
}
