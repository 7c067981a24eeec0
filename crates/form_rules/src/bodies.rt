//! The walk over the roles of a design: the body of each at the last level.
ghost use Rattle.form_rules.specs.BodyFaults.{is_body_fault};
ghost use Rattle.form_rules.specs.Tested.{fork_fails, send_fails, wire_fails};
ghost use Rattle.form_rules.specs.Walked.{Walked, block_decls, fork_at, in_role, in_roles, role_names_in, send_at, wire_at};
ghost use Rattle.cocoon_num.specs.Tree.{Stmt as Statement};
ghost use Rattle.cocoon_syntax.specs.TreeOf.{decl_of, design_of, name_of, refine_of, role_of};
ghost use Rattle.cocoon_types.specs.Design.{last_level as level_of, role_at};
ghost use Rattle.cocoon_types.specs.FirstFault.{Fault};
ghost use Rattle.cocoon_types.specs.Noting.{Notes};
ghost use Rattle.declarations.specs.Declares.{Declares};
ghost use Rattle.std.specs.Prelude.{◌≡◌, [], ◌∷◌, ◌++◌, List, Option, Some, IfOk, map, OnOk, ℕ};

use crate::exprs::is_same;
use crate::sends::Sender;
use crate::stmts::{Asked, note_block};
use crate::wires::{Wire, is_wire};
use cocoon_num::NoMemory;
use cocoon_syntax::{Decl, Design, Name, Refine, Role};
use cocoon_types::Noted;
use cocoon_types::first_faults::noting_laws;
use declarations::{Declarations, NameTable};
use std::alloc::Global;

/// The number of the last level.
fn last_level(design: &Design) -> Result<u32, NoMemory>
    ensures { IfOk result (λ level. level ≡ level_of (design_of design.now)) }
{
    u32::try_from(design.refines.len()).map_err(|_| NoMemory)
}

/// What is asked where the role of this name is a wire.
fn wire_of<'d>(names: &Declarations, design: &'d Design, name: &'d Name) -> Option<Wire<'d>>
    requires { Declares names.now (design_of design.now) }
    ensures { (a : Statement) → wire_fails result a
        ≡ wire_at (design_of design.now) (name_of name.now) a }
{
    let host = names.host(design)?;
    let switch = names.switch(design)?;
    if is_wire(host, switch, name) {
        Some(Wire { host, switch, name })
    } else {
        None
    }
}

/// What is asked where the role of this name is the first switch role. The role is given as the
/// last level has it.
fn sender_of<'d>(
    names: &Declarations,
    design: &'d Design,
    name: &Name,
    role: &'d Role,
) -> Option<Sender<'d>>
    requires tables { Declares names.now (design_of design.now) }
    requires last { role_at (level_of (design_of design.now)) (design_of design.now) name.now.text
        ≡ Some (role_of role.now) }
    ensures sends { (a : Statement) → send_fails result a
        ≡ send_at (design_of design.now) name.now.text a }
    ensures forks { (a : Statement) → fork_fails (design_of design.now) result a
        ≡ fork_at (design_of design.now) name.now.text a }
{
    let switch = names.switch(design)?;
    if is_same(name.text.bytes(), switch.into.text.bytes()) {
        Some(Sender {
            out: switch.out.text.bytes(),
            own: role.params.first(),
        })
    } else {
        None
    }
}

/// Notes the faults of the body that a role has at the last level.
fn note_role(
    names: &Declarations,
    design: &Design,
    name: &Name,
    noted: &mut Noted,
) -> Result<(), NoMemory>
    requires { Declares names.now (design_of design.now) }
    ensures { OnOk result (Notes (in_role (design_of design.now) name.now.text)
        noted.old noted.new) }
{
    noting_laws();
    let level = last_level(design)?;
    if let Some(role) = names.role_at(design, name.text.bytes(), level)
        && let Some(body) = &role.body
    {
        let asked = Asked {
            wire: wire_of(names, design, name),
            sender: sender_of(names, design, name, role),
        };
        note_block(names, design, &asked, body, noted);
    }
    Ok(())
}

/// Notes the faults of the body of a role, where its name is not in the table.
fn note_unseen(
    names: &Declarations,
    design: &Design,
    seen: &NameTable,
    name: &Name,
    noted: &mut Noted,
) -> Result<(), NoMemory>
    requires { Declares names.now (design_of design.now) }
    ensures { (xs : List (List ℕ)) (start : Option Fault)
        → Walked (design_of design.now) seen.now xs start noted.old
        → OnOk result (Notes (in_roles (design_of design.now) (xs ++ name.now.text ∷ []))
        start noted.new) }
{
    noting_laws();
    match seen.number(name.text.bytes()) {
        Some(_) => Ok(()),
        None => {
            note_role(names, design, name, noted)?;
            Ok(())
        }
    }
}

/// The same, and the name is put into the table.
fn note_new(
    alloc: Global,
    names: &Declarations,
    design: &Design,
    seen: &mut NameTable,
    name: &Name,
    noted: &mut Noted,
) -> Result<(), NoMemory>
    requires { Declares names.now (design_of design.now) }
    ensures { (xs : List (List ℕ)) (start : Option Fault)
        → Walked (design_of design.now) seen.old xs start noted.old
        → OnOk result (Walked (design_of design.now) seen.new (xs ++ name.now.text ∷ [])
        start noted.new) }
{
    note_unseen(names, design, seen, name, noted)?;
    seen.append(alloc, name.text.bytes())?;
    Ok(())
}

/// The same of a declaration, which may declare a role.
fn note_decl(
    alloc: Global,
    names: &Declarations,
    design: &Design,
    seen: &mut NameTable,
    decl: &Decl,
    noted: &mut Noted,
) -> Result<(), NoMemory>
    requires { Declares names.now (design_of design.now) }
    ensures { (xs : List (List ℕ)) (start : Option Fault)
        → Walked (design_of design.now) seen.old xs start noted.old
        → OnOk result (Walked (design_of design.now) seen.new
        (xs ++ role_names_in (decl_of decl.now ∷ [])) start noted.new) }
{
    match decl {
        Decl::Role(role) => note_new(alloc, names, design, seen, &role.name, noted)?,
        _ => (),
    }
    Ok(())
}

/// The same of the declarations of one level.
fn note_level(
    alloc: Global,
    names: &Declarations,
    design: &Design,
    seen: &mut NameTable,
    decls: &[Decl],
    noted: &mut Noted,
) -> Result<(), NoMemory>
    requires { Declares names.now (design_of design.now) }
    ensures { (xs : List (List ℕ)) (start : Option Fault)
        → Walked (design_of design.now) seen.old xs start noted.old
        → OnOk result (Walked (design_of design.now) seen.new
        (xs ++ role_names_in (map decl_of decls.now)) start noted.new) }
{
    for decl in decls {
        note_decl(alloc, names, design, seen, decl, noted)?;
    }
    Ok(())
}

/// The same of some blocks.
fn note_blocks(
    alloc: Global,
    names: &Declarations,
    design: &Design,
    seen: &mut NameTable,
    blocks: &[Refine],
    noted: &mut Noted,
) -> Result<(), NoMemory>
    requires { Declares names.now (design_of design.now) }
    ensures { (xs : List (List ℕ)) (start : Option Fault)
        → Walked (design_of design.now) seen.old xs start noted.old
        → OnOk result (Walked (design_of design.now) seen.new
        (xs ++ role_names_in (block_decls (map refine_of blocks.now))) start noted.new) }
{
    for block in blocks {
        note_level(alloc, names, design, seen, &block.decls, noted)?;
    }
    Ok(())
}

/// Notes the faults of the bodies of the last level. The tables are those of the design's
/// declarations.
pub fn note_bodies(
    alloc: Global,
    names: &Declarations,
    design: &Design,
    noted: &mut Noted,
) -> Result<(), NoMemory>
    requires { Declares names.now (design_of design.now) }
    ensures { OnOk result (Notes (is_body_fault (design_of design.now)) noted.old noted.new) }
{
    noting_laws();
    let mut seen = NameTable::new(alloc);
    note_level(alloc, names, design, &mut seen, &design.decls, noted)?;
    note_blocks(alloc, names, design, &mut seen, &design.refines, noted)?;
    Ok(())
}
