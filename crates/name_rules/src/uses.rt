//! The walk over a whole design.
ghost use Rattle.cocoon_num.specs.Tree.{FunctionDecl as Function, Refine as Block};
ghost use Rattle.cocoon_syntax.specs.TreeOf.{decl_of, design_of, refine_of};
ghost use Rattle.cocoon_types.specs.Design.{as_function, functions};
ghost use Rattle.cocoon_types.specs.Noting.{Notes};
ghost use Rattle.cocoon_types.specs.Sites.{sites_from, sites_of};
ghost use Rattle.declarations.specs.Declares.{Declares};
ghost use Rattle.std.specs.Prelude.{◌≡◌, ◌+◌, ◌++◌, filter_map, flat_map, IfOk, length, List, map, OnOk, option_to_list};
ghost use Rattle.name_rules.specs.Tests.{in_decls};
ghost use Rattle.name_rules.specs.Uses.{is_use_fault};

use crate::decls::note_decl;
use crate::point::{Point, next_number};
use cocoon_num::NoMemory;
use cocoon_syntax::{Decl, Design, Refine};
use cocoon_types::Noted;
use cocoon_types::first_faults::noting_laws;
use declarations::Declarations;
use std::alloc::Global;

/// How many functions' declarations end before what follows a declaration.
fn functions_after(functions: u32, decl: &Decl) -> Result<u32, NoMemory>
    ensures { IfOk result (λ next. next
        ≡ functions + length (option_to_list (as_function (decl_of decl.now)))) }
{
    match decl {
        Decl::Function(_) => next_number(functions),
        _ => Ok(functions),
    }
}

/// Notes the faults of the declarations of one level, and says how many functions' declarations
/// end with them.
fn note_decls(
    alloc: Global,
    names: &Declarations,
    design: &Design,
    start: Point,
    decls: &[Decl],
    noted: &mut Noted,
) -> Result<u32, NoMemory>
    requires { Declares names.now (design_of design.now) }
    ensures functions { IfOk result (λ after. after
        ≡ start.functions + length (filter_map as_function (map decl_of decls.now))) }
    ensures noted { (before after : List Function) → start.functions ≡ length before
        → functions (design_of design.now)
        ≡ before ++ filter_map as_function (map decl_of decls.now) ++ after
        → OnOk result (Notes
        (in_decls (sites_of (design_of design.now) start.level before (map decl_of decls.now)))
        noted.old noted.new) }
{
    noting_laws();
    let mut point = start;
    for decl in decls {
        note_decl(alloc, names, design, point, decl, noted)?;
        point.functions = functions_after(point.functions, decl)?;
    }
    Ok(point.functions)
}

fn note_blocks(
    alloc: Global,
    names: &Declarations,
    design: &Design,
    start: Point,
    blocks: &[Refine],
    noted: &mut Noted,
) -> Result<(), NoMemory>
    requires { Declares names.now (design_of design.now) }
    ensures { (before : List Function) → start.functions ≡ length before
        → functions (design_of design.now) ≡ before
        ++ filter_map as_function (flat_map (λ (b : Block). b.decls) (map refine_of blocks.now))
        → OnOk result (Notes
        (in_decls (sites_from (design_of design.now) start.level before (map refine_of blocks.now)))
        noted.old noted.new) }
{
    noting_laws();
    let mut point = start;
    for block in blocks {
        let functions = note_decls(alloc, names, design, point, &block.decls, noted)?;
        let level = next_number(point.level)?;
        point = Point { level, functions };
    }
    Ok(())
}

/// Notes the faults of a design by the rules on names where they are used, and on variables where
/// they are bound: names and roles that are unknown, functions that are late, and variables that
/// are in scope already. The tables are those of the design.
pub fn note_uses(
    alloc: Global,
    names: &Declarations,
    design: &Design,
    noted: &mut Noted,
) -> Result<(), NoMemory>
    requires { Declares names.now (design_of design.now) }
    ensures { OnOk result (Notes (is_use_fault (design_of design.now)) noted.old noted.new) }
{
    noting_laws();
    let outside = Point {
        level: 0,
        functions: 0,
    };
    let functions = note_decls(alloc, names, design, outside, &design.decls, noted)?;
    let inside = Point {
        level: 1,
        functions,
    };
    note_blocks(alloc, names, design, inside, &design.refines, noted)?;
    Ok(())
}
