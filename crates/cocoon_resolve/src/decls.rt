//! The declarations of all levels.
ghost use Rattle.std.specs.Prelude.{◌≡◌, ◌++◌, IfOk, map, OnOk};
ghost use Rattle.cocoon_syntax.specs.TreeOf.{decl_of, design_of};
ghost use Rattle.cocoon_types.specs.Design.{all_decls as all_of};

use cocoon_num::NoMemory;
use cocoon_syntax::{Decl, Design};
use std::alloc::Global;

/// The declarations of a design, in the order of the text.
pub(crate) fn all_decls<'t>(alloc: Global, design: &'t Design) -> Result<Vec<&'t Decl>, NoMemory>
    ensures { IfOk result (λ decls.
        map (λ d. decl_of d.now) decls.items ≡ all_of (design_of design.now)) }
{
    let mut decls = Vec::new(alloc);
    push_all(&mut decls, &design.decls)?;
    for block in &design.refines {
        push_all(&mut decls, &block.decls)?;
    }
    Ok(decls)
}

fn push_all<'t>(decls: &mut Vec<&'t Decl>, more: &'t [Decl]) -> Result<(), NoMemory>
    ensures { OnOk result (map (λ d. decl_of d.now) decls.new.items
        ≡ map (λ d. decl_of d.now) decls.old.items ++ map decl_of more.now) }
{
    for decl in more {
        decls.push(decl)?;
    }
    Ok(())
}
