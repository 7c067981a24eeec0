//! The walk over a whole design.
ghost use Rattle.cocoon_num.specs.Packets.{total};
ghost use Rattle.cocoon_num.specs.Tree.{FunctionDecl as Function};
ghost use Rattle.cocoon_syntax.specs.TreeOf.{decl_of, design_of, header_of, param_of, refine_of};
ghost use Rattle.cocoon_types.specs.Design.{widths_of};
ghost use Rattle.cocoon_types.specs.FirstFault.{is_fault_of};
ghost use Rattle.cocoon_types.specs.Noting.{Notes};
ghost use Rattle.cocoon_types.specs.Sites.{sites_of};
ghost use Rattle.declarations.specs.Declares.{Declares};
ghost use Rattle.std.specs.Prelude.{◌≡◌, ◌%◌, List, map, OnOk, ℕ};
ghost use Rattle.type_rules.specs.Tests.{in_blocks, in_decls, in_headers};

use crate::decls::{note_decl, note_widths};
use crate::noting::note_if;
use cocoon_num::NoMemory;
use cocoon_syntax::{Decl, Design, HeaderDecl, Param, Refine};
use cocoon_types::first_faults::noting_laws;
use cocoon_types::{Noted, TypeRule};
use declarations::Declarations;
use std::alloc::Global;

/// How many bits the fields have over whole bytes.
fn spare_bits(fields: &[Param]) -> u32
    ensures { result ≡ total (widths_of (map param_of fields.now)) % 8 }
{
    let mut bits = 0;
    for field in fields {
        bits = (bits + field.width % 8) % 8;
    }
    bits
}

fn note_headers(headers: &[HeaderDecl], noted: &mut Noted)
    ensures { Notes (in_headers (map header_of headers.now)) noted.old noted.new }
{
    noting_laws();
    for header in headers {
        note_widths(&header.fields, noted);
        note_if(
            noted,
            spare_bits(&header.fields) != 0,
            TypeRule::HeaderWidth,
            header.name.at,
        );
    }
}

/// Notes the faults of the declarations of one level.
fn note_decls(
    alloc: Global,
    names: &Declarations,
    design: &Design,
    decls: &[Decl],
    noted: &mut Noted,
) -> Result<(), NoMemory>
    requires { Declares names.now (design_of design.now) }
    ensures { (level : ℕ) (before : List Function) → OnOk result (Notes
        (in_decls (sites_of (design_of design.now) level before (map decl_of decls.now)))
        noted.old noted.new) }
{
    noting_laws();
    for decl in decls {
        note_decl(alloc, names, design, decl, noted)?;
    }
    Ok(())
}

fn note_blocks(
    alloc: Global,
    names: &Declarations,
    design: &Design,
    blocks: &[Refine],
    noted: &mut Noted,
) -> Result<(), NoMemory>
    requires { Declares names.now (design_of design.now) }
    ensures { (level : ℕ) (before : List Function) → OnOk result (Notes
        (in_blocks (design_of design.now) level before (map refine_of blocks.now))
        noted.old noted.new) }
{
    noting_laws();
    for block in blocks {
        note_if(noted, block.within == 0, TypeRule::ZeroCount, block.at);
        note_decls(alloc, names, design, &block.decls, noted)?;
    }
    Ok(())
}

/// Notes the faults of a design by the rules on types. Its tables are those of its declarations.
pub fn note_types(
    alloc: Global,
    names: &Declarations,
    design: &Design,
    noted: &mut Noted,
) -> Result<(), NoMemory>
    requires { Declares names.now (design_of design.now) }
    ensures { OnOk result (Notes (is_fault_of 2 (design_of design.now)) noted.old noted.new) }
{
    noting_laws();
    note_headers(&design.headers, noted);
    note_decls(alloc, names, design, &design.decls, noted)?;
    note_blocks(alloc, names, design, &design.refines, noted)?;
    Ok(())
}
