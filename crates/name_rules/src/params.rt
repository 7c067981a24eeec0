//! Parameters that stand twice in their declaration.
ghost use Rattle.std.specs.Prelude.{◌≡◌, OnOk, flat_map, map};
ghost use Rattle.cocoon_syntax.specs.TreeOf.{decl_of, design_of, param_of, refine_of};
ghost use Rattle.cocoon_types.specs.Noting.{Notes};
ghost use Rattle.cocoon_types.specs.Rules.{twice};
ghost use Rattle.cocoon_types.specs.Sites.{params_of};
ghost use Rattle.cocoon_types.specs.Among.{among};
ghost use Rattle.name_rules.specs.Among.{params_twice, repeated_in_block, repeated_params};

use crate::again::note_params;
use cocoon_num::NoMemory;
use cocoon_syntax::{Decl, Design, Param, Refine};
use cocoon_types::{Noted, among_laws};
use std::alloc::Global;

/// The parameters of a declaration.
fn params_in<'d>(decl: &'d Decl) -> &'d [Param]
    ensures { map param_of result.now ≡ params_of (decl_of decl.now) }
{
    match decl {
        Decl::Function(function) => &function.params,
        Decl::Assume(assume) => &assume.params,
        Decl::Role(role) => &role.params,
        Decl::Host(_) => &[],
        Decl::Switch(_) => &[],
    }
}

fn note_in_level(alloc: Global, decls: &[Decl], noted: &mut Noted) -> Result<(), NoMemory>
    ensures { OnOk result (Notes (among twice (flat_map repeated_params (map decl_of decls.now)))
        noted.old noted.new) }
{
    among_laws();
    for decl in decls {
        note_params(alloc, params_in(decl), noted)?;
    }
    Ok(())
}

fn note_in_blocks(alloc: Global, blocks: &[Refine], noted: &mut Noted) -> Result<(), NoMemory>
    ensures { OnOk result (Notes (among twice
        (flat_map repeated_in_block (map refine_of blocks.now)))
        noted.old noted.new) }
{
    among_laws();
    for block in blocks {
        note_in_level(alloc, &block.decls, noted)?;
    }
    Ok(())
}

/// Notes parameters that stand twice in their declaration.
pub(crate) fn note_all_params(
    alloc: Global,
    design: &Design,
    noted: &mut Noted,
) -> Result<(), NoMemory>
    ensures { OnOk result (Notes (among twice (params_twice (design_of design.now)))
        noted.old noted.new) }
{
    among_laws();
    note_in_level(alloc, &design.decls, noted)?;
    note_in_blocks(alloc, &design.refines, noted)?;
    Ok(())
}
