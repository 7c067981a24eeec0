//! What the declarations of a design declare.
ghost use Rattle.std.specs.Prelude.{◌≡◌, ◌+◌, [], ◌∷◌, ◌++◌, List, IfOk, OnOk, map};
ghost use Rattle.cocoon_syntax.specs.TreeOf.{decl_of, design_of, refine_of};
ghost use Rattle.declarations.specs.Places.{Placed, placed, placed_blocks, placed_from};
ghost use Rattle.declarations.specs.Declares.{Holds};

use crate::function_table::FunctionTable;
use crate::place::Place;
use crate::role_table::RoleTable;
use cocoon_num::NoMemory;
use cocoon_syntax::{Decl, Design, Refine};
use std::alloc::Global;

/// The next number.
fn next_number(number: u32) -> Result<u32, NoMemory>
    ensures { IfOk result (λ next. next ≡ number + 1) }
{
    number.checked_add(1).ok_or(NoMemory)
}

/// The functions and the roles, and where hosts and switches are declared first.
#[derive(Drop)]
pub struct DeclTable {
    pub functions: FunctionTable,
    pub roles: RoleTable,
    pub host: Option<Place>,
    pub switch: Option<Place>,
}

impl DeclTable {
    fn empty(alloc: Global) -> DeclTable
        ensures { Holds result [] }
    {
        DeclTable {
            functions: FunctionTable::new(alloc),
            roles: RoleTable::new(alloc),
            host: None,
            switch: None,
        }
    }

    fn append(&mut self, alloc: Global, place: Place, decl: &Decl) -> Result<(), NoMemory>
        ensures { (placed : List Placed) → Holds self.old placed
            → OnOk result (Holds self.new (placed ++ (place, decl_of decl.now) ∷ [])) }
    {
        match decl {
            Decl::Function(function) => self.functions.append(alloc, place, function)?,
            Decl::Role(role) => self.roles.append(alloc, place, role)?,
            Decl::Host(_) => self.host = Some(self.host.unwrap_or(place)),
            Decl::Switch(_) => self.switch = Some(self.switch.unwrap_or(place)),
            Decl::Assume(_) => (),
        }
        Ok(())
    }

    fn append_level(&mut self, alloc: Global, level: u32, decls: &[Decl]) -> Result<(), NoMemory>
        ensures { (placed : List Placed) → Holds self.old placed
            → OnOk result (Holds self.new (placed ++ placed_from level 0 (map decl_of decls.now))) }
    {
        let mut index = 0u32;
        for decl in decls {
            self.append(alloc, Place { level, index }, decl)?;
            index = next_number(index)?;
        }
        Ok(())
    }

    fn append_blocks(&mut self, alloc: Global, blocks: &[Refine]) -> Result<(), NoMemory>
        ensures { (placed : List Placed) → Holds self.old placed
            → OnOk result (Holds self.new (placed ++ placed_blocks 1 (map refine_of blocks.now))) }
    {
        let mut level = 0u32;
        for block in blocks {
            level = next_number(level)?;
            self.append_level(alloc, level, &block.decls)?;
        }
        Ok(())
    }

    pub fn new(alloc: Global, design: &Design) -> Result<DeclTable, NoMemory>
        ensures { IfOk result (λ table. Holds table (placed (design_of design.now))) }
    {
        let mut table = DeclTable::empty(alloc);
        table.append_level(alloc, 0, &design.decls)?;
        table.append_blocks(alloc, &design.refines)?;
        Ok(table)
    }
}
