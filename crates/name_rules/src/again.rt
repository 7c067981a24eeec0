//! Names that stand twice.
ghost use Rattle.std.specs.Prelude.{◌≡◌, [], ◌∷◌, ◌++◌, List, OnOk, map, flat_map, option_map};
ghost use Rattle.cocoon_num.specs.Tree.{Name as Called};
ghost use Rattle.cocoon_syntax.specs.TreeOf.{decl_of, design_of, function_of, header_of, name_of, param_of, refine_of};
ghost use Rattle.cocoon_types.specs.Design.{as_function};
ghost use Rattle.cocoon_types.specs.Noting.{Notes};
ghost use Rattle.cocoon_types.specs.RuleNames.{rule_of};
ghost use Rattle.cocoon_types.specs.RuleParts.{param_names, repeated};
ghost use Rattle.cocoon_types.specs.Rules.{twice};
ghost use Rattle.cocoon_types.specs.Among.{among};
ghost use Rattle.name_rules.specs.Among.{Seen, again, block_functions, design_functions, function_names, header_names, repeated_fields};

use cocoon_num::NoMemory;
use cocoon_syntax::{Decl, Design, FunctionDecl, HeaderDecl, Name, Param, Refine};
use cocoon_types::{Noted, TypeRule, among_laws, note_unless};
use declarations::NameTable;
use std::alloc::Global;

/// Notes a name that is in the table, and puts it there.
pub(crate) fn note_again(
    alloc: Global,
    table: &mut NameTable,
    rule: TypeRule,
    name: &Name,
    noted: &mut Noted,
) -> Result<(), NoMemory>
    ensures kept { (names : List Called) → Seen table.old names
        → OnOk result (Seen table.new (names ++ name_of name.now ∷ [])) }
    ensures notes { (names : List Called) → Seen table.old names
        → Notes (among (rule_of rule) (again names (name_of name.now))) noted.old noted.new }
{
    note_unless(
        noted,
        table.number(name.text.bytes()).is_none(),
        rule,
        name.at,
    );
    table.append(alloc, name.text.bytes())?;
    Ok(())
}

/// Notes parameters, or fields of one header, that stand twice.
pub(crate) fn note_params(
    alloc: Global,
    params: &[Param],
    noted: &mut Noted,
) -> Result<(), NoMemory>
    ensures { OnOk result (Notes (among twice (repeated [] (param_names (map param_of params.now))))
        noted.old noted.new) }
{
    among_laws();
    let mut table = NameTable::new(alloc);
    for param in params {
        note_again(alloc, &mut table, TypeRule::Twice, &param.name, noted)?;
    }
    Ok(())
}

/// Notes headers that stand twice.
pub(crate) fn note_headers(
    alloc: Global,
    headers: &[HeaderDecl],
    noted: &mut Noted,
) -> Result<(), NoMemory>
    ensures { OnOk result (Notes (among twice (repeated []
        (header_names (map header_of headers.now))))
        noted.old noted.new) }
{
    among_laws();
    let mut table = NameTable::new(alloc);
    for header in headers {
        note_again(alloc, &mut table, TypeRule::Twice, &header.name, noted)?;
    }
    Ok(())
}

/// Notes fields that stand twice in their header.
pub(crate) fn note_fields(
    alloc: Global,
    headers: &[HeaderDecl],
    noted: &mut Noted,
) -> Result<(), NoMemory>
    ensures { OnOk result (Notes (among twice
        (flat_map repeated_fields (map header_of headers.now)))
        noted.old noted.new) }
{
    among_laws();
    for header in headers {
        note_params(alloc, &header.fields, noted)?;
    }
    Ok(())
}

/// The declaration, if it is a function.
fn function_in<'d>(decl: &'d Decl) -> Option<&'d FunctionDecl>
    ensures { option_map (λ f. function_of f.now) result ≡ as_function (decl_of decl.now) }
{
    match decl {
        Decl::Function(function) => Some(function),
        _ => None,
    }
}

/// Notes a function that is in the table, and puts it there.
fn note_decl(
    alloc: Global,
    table: &mut NameTable,
    decl: &Decl,
    noted: &mut Noted,
) -> Result<(), NoMemory>
    ensures kept { (names : List Called) → Seen table.old names
        → OnOk result (Seen table.new (names ++ function_names (decl_of decl.now ∷ []))) }
    ensures notes { (names : List Called) → Seen table.old names
        → OnOk result (Notes (among twice (repeated names (function_names (decl_of decl.now ∷ []))))
        noted.old noted.new) }
{
    among_laws();
    match function_in(decl) {
        Some(function) => note_again(alloc, table, TypeRule::Twice, &function.name, noted)?,
        None => (),
    }
    Ok(())
}

/// Notes functions of one level that are in the table or stand twice, and puts them there.
fn note_level(
    alloc: Global,
    table: &mut NameTable,
    decls: &[Decl],
    noted: &mut Noted,
) -> Result<(), NoMemory>
    ensures kept { (names : List Called) → Seen table.old names
        → OnOk result (Seen table.new (names ++ function_names (map decl_of decls.now))) }
    ensures notes { (names : List Called) → Seen table.old names
        → OnOk result (Notes (among twice (repeated names (function_names (map decl_of decls.now))))
        noted.old noted.new) }
{
    among_laws();
    for decl in decls {
        note_decl(alloc, table, decl, noted)?;
    }
    Ok(())
}

/// The same of some blocks.
fn note_blocks(
    alloc: Global,
    table: &mut NameTable,
    blocks: &[Refine],
    noted: &mut Noted,
) -> Result<(), NoMemory>
    ensures { (names : List Called) → Seen table.old names
        → OnOk result (Notes (among twice (repeated names
        (block_functions (map refine_of blocks.now))))
        noted.old noted.new) }
{
    among_laws();
    for block in blocks {
        note_level(alloc, table, &block.decls, noted)?;
    }
    Ok(())
}

/// Notes functions that stand twice.
pub(crate) fn note_functions(
    alloc: Global,
    design: &Design,
    noted: &mut Noted,
) -> Result<(), NoMemory>
    ensures { OnOk result (Notes (among twice (repeated []
        (design_functions (design_of design.now))))
        noted.old noted.new) }
{
    among_laws();
    let mut table = NameTable::new(alloc);
    note_level(alloc, &mut table, &design.decls, noted)?;
    note_blocks(alloc, &mut table, &design.refines, noted)?;
    Ok(())
}
