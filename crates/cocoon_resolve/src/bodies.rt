//! Which bodies read back: at each level, the body of each role that is in force there.
ghost use Rattle.std.specs.Prelude.{◌≡◌, ◌==◌, ◌∷◌, [], ◌++◌, ℕ, Bool, false, IfOk, List, map, OnOk, Some, slice_get};
ghost use Rattle.cocoon_num.specs.Tree.{Decl as Declared};
ghost use Rattle.cocoon_syntax.specs.TreeOf.{decl_of, design_of, role_of};
ghost use Rattle.declarations.specs.Declares.{Declares};
ghost use Rattle.cocoon_resolve.specs.Kept.{HoldsBodies, HoldsRow, row_says};
ghost use Rattle.cocoon_resolve.specs.Readers.{reads_back};

use cocoon_num::NoMemory;
use cocoon_syntax::{Decl, Design, Role};
use declarations::Declarations;
use form_rules::first_hidden;
use std::alloc::Global;

/// For each level a row with a place for each role, by its number.
#[derive(Drop)]
pub(crate) struct Bodies {
    rows: Vec<Vec<bool>>,
}

/// Puts a value at an index, however long the row is.
fn put(row: &mut Vec<bool>, index: usize, value: bool) -> Result<(), NoMemory>
    ensures there { OnOk result (slice_get row.new.items index ≡ Some value) }
    ensures others { (i : ℕ) (b : Bool) → (i == index) ≡ false → slice_get row.old.items i ≡ Some b
        → OnOk result (slice_get row.new.items i ≡ Some b) }
{
    while row.len() <= index {
        row.push(true)?;
    }
    row[index] = value;
    Ok(())
}

/// Whether the body of a role reads back.
fn reads(alloc: Global, design: &Design, role: &Role) -> Result<bool, NoMemory>
    ensures { IfOk result (λ b. b ≡ reads_back (design_of design.now) (role_of role.now)) }
{
    match &role.body {
        Some(body) => Ok(first_hidden(alloc, &design.headers, body)?.is_none()),
        None => Ok(true),
    }
}

/// Notes the role of a declaration, if it is one.
fn note_decl(
    alloc: Global,
    names: &Declarations,
    design: &Design,
    decl: &Decl,
    row: &mut Vec<bool>,
) -> Result<(), NoMemory>
    requires { Declares names.now (design_of design.now) }
    ensures { (before : List Declared) → HoldsRow (design_of design.now) before row.old.items
        → OnOk result (HoldsRow (design_of design.now) (before ++ decl_of decl.now ∷ [])
        row.new.items) }
{
    if let Decl::Role(role) = decl {
        if let Some(number) = names.role_of(design, role.name.text.bytes()) {
            let reads = reads(alloc, design, role)?;
            put(row, number as usize, reads)?;
        }
    }
    Ok(())
}

fn note_level(
    alloc: Global,
    names: &Declarations,
    design: &Design,
    decls: &[Decl],
    row: &mut Vec<bool>,
) -> Result<(), NoMemory>
    requires { Declares names.now (design_of design.now) }
    ensures { (before : List Declared) → HoldsRow (design_of design.now) before row.old.items
        → OnOk result (HoldsRow (design_of design.now) (before ++ map decl_of decls.now)
        row.new.items) }
{
    for decl in decls {
        note_decl(alloc, names, design, decl, row)?;
    }
    Ok(())
}

fn copy_of(alloc: Global, row: &[bool]) -> Result<Vec<bool>, NoMemory>
    ensures { IfOk result (λ copy. copy.items ≡ row.now) }
{
    Ok(row.to_vec(alloc)?)
}

impl Bodies {
    pub(crate) fn new(
        alloc: Global,
        names: &Declarations,
        design: &Design,
    ) -> Result<Bodies, NoMemory>
        requires { Declares names.now (design_of design.now) }
        ensures { IfOk result (λ bodies. HoldsBodies bodies (design_of design.now)) }
    {
        let mut rows = Vec::new(alloc);
        let mut row = Vec::new(alloc);
        note_level(alloc, names, design, &design.decls, &mut row)?;
        rows.push(copy_of(alloc, &row)?)?;
        for block in &design.refines {
            note_level(alloc, names, design, &block.decls, &mut row)?;
            rows.push(copy_of(alloc, &row)?)?;
        }
        Ok(Bodies { rows })
    }

    /// Whether the body of the role of this number reads back at a level.
    pub(crate) fn reads_back(&self, role: u32, level: u32) -> bool
        ensures { result ≡ row_says self.now level role }
    {
        match self.rows.get(level as usize) {
            Some(row) => row.get(role as usize).copied().unwrap_or(false),
            None => false,
        }
    }
}
