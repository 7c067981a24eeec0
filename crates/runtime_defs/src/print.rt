//! Definitions as a text, an entry a line.
ghost use Rattle.std.specs.Prelude.{◌≡◌, ◌==◌, ◌-◌, ◌^◌, ◌≤◌, All, drop, IfOk, IsOk, length, map};
ghost use Rattle.std.specs.List.{AllZip};
ghost use Rattle.cocoon_num.specs.FunTables.{HasKeys};
ghost use Rattle.cocoon_num.specs.Reads.{ReadsDefs};
ghost use Rattle.cocoon_num.specs.Tree.{masked};
ghost use Rattle.cocoon_resolve.specs.Resolved.{Resolves};
ghost use Rattle.cocoon_syntax.specs.TreeOf.{design_of, function_of, result_of};
ghost use Rattle.cocoon_types.specs.Design.{functions};
ghost use Rattle.text_lines.specs.Printing.{each_text, Prints};
ghost use Rattle.runtime_defs.specs.EntryTexts.{const_text, entry_text, more_patterns_text, pattern_text, patterns_text, truth_text};
ghost use Rattle.runtime_defs.specs.Printable.{FitsPlace};
ghost use Rattle.runtime_defs.specs.Keys.{HasAllKeys, HasPlaceKeys};
ghost use Rattle.runtime_defs.specs.EntryPlaces.{default_entry, defs_text, entries_of_places, key_pattern, key_patterns, place_entries, result_value, row_entry};
ghost use Rattle.cocoon_types.specs.Names.{IsNamed};

use cocoon_num::{Bits, FunRow, FunTable, NoMemory, Text};
use cocoon_resolve::Checked;
use cocoon_syntax::{FunctionDecl, ResultKind};
use std::alloc::Global;
use text_lines::Printer;

fn truth_text<'a>(truth: bool) -> &'a str
    ensures { result.now ≡ truth_text truth }
{
    if truth { "true" } else { "false" }
}

fn push_value(out: &mut Printer, kind: ResultKind, value: Bits)
    ensures { Prints out.old (const_text (result_value (result_of kind) value)) out.new }
{
    match kind {
        ResultKind::Width(_) => out.push_literal(value.width, value.value),
        ResultKind::Truth => out.push(truth_text(value.value == 1)),
    }
}

/// Whether all bits of the width are set.
fn is_full(width: u8, mask: u64) -> bool
    ensures { result ≡ (mask == 2 ^ width - 1) }
{
    width <= 64 && u128::from(mask) + 1 == 1u128 << width
}

fn push_pattern(out: &mut Printer, width: u8, value: u64, mask: u64)
    ensures { Prints out.old (pattern_text (key_pattern width value mask)) out.new }
{
    if is_full(width, mask) {
        out.push_literal(width, u128::from(value));
    } else if mask == 0 {
        out.push("_");
    } else {
        push_masked(out, width, value, mask);
    }
}

fn push_masked(out: &mut Printer, width: u8, value: u64, mask: u64)
    ensures { Prints out.old (pattern_text (masked width value width mask)) out.new }
{
    out.push_literal(width, u128::from(value));
    out.push(" &&& ");
    out.push_literal(width, u128::from(mask));
}

/// The patterns of a row, with commas between.
fn push_patterns(out: &mut Printer, widths: &[u8], row: &FunRow)
    requires { HasKeys (length widths.now) row.now }
    ensures { Prints out.old
        (patterns_text (key_patterns widths.now row.now.values row.now.masks)) out.new }
{
    if !widths.is_empty() {
        push_pattern(out, widths[0], row.values.items()[0], row.masks.items()[0]);
        push_more_patterns(out, widths, row);
    }
}

/// Those after the first, with a comma before each.
fn push_more_patterns(out: &mut Printer, widths: &[u8], row: &FunRow)
    requires { HasKeys (length widths.now) row.now }
    ensures { Prints out.old (more_patterns_text
        (drop 1 (key_patterns widths.now row.now.values row.now.masks))) out.new }
{
    let values = row.values.items();
    let masks = row.masks.items();
    for at in 1..widths.len() {
        out.push(", ");
        push_pattern(out, widths[at], values[at], masks[at]);
    }
}

fn push_default(out: &mut Printer, function: &FunctionDecl, value: Bits)
    ensures { Prints out.old (entry_text (default_entry (function_of function.now) value)) out.new }
{
    out.push("default ");
    out.push_name(&function.name.text);
    out.push(" = ");
    push_value(out, function.result, value);
    out.push(";\n");
}

fn push_row(out: &mut Printer, function: &FunctionDecl, widths: &[u8], row: &FunRow)
    requires { HasKeys (length widths.now) row.now }
    ensures { Prints out.old
        (entry_text (row_entry (function_of function.now) widths.now row.now)) out.new }
{
    out.push("define ");
    out.push_name(&function.name.text);
    out.push("(");
    push_patterns(out, widths, row);
    out.push(") = ");
    push_value(out, function.result, row.result);
    out.push(";\n");
}

fn push_rows(out: &mut Printer, function: &FunctionDecl, table: &FunTable)
    requires { HasAllKeys table.now }
    ensures { Prints out.old (each_text entry_text
        (map (row_entry (function_of function.now) table.now.widths) table.now.rows)) out.new }
{
    for row in table.rows.items() {
        push_row(out, function, table.widths.items(), row);
    }
}

fn push_place(out: &mut Printer, function: &FunctionDecl, place: &Option<FunTable>)
    requires { HasPlaceKeys place.now }
    ensures { Prints out.old
        (each_text entry_text (place_entries (function_of function.now) place.now)) out.new }
{
    if let Some(table) = place {
        push_default(out, function, table.default);
        push_rows(out, function, table);
    }
}

/// The entries of all functions, in the order of declaration.
fn push_places(
    out: &mut Printer,
    checked: &Checked,
    places: &[Option<FunTable>],
) -> Result<(), NoMemory>
    requires keys { All HasPlaceKeys places.now }
    requires count { length places.now ≡ length (functions (design_of checked.now)) }
    ensures { IsOk result → Prints out.old (defs_text (design_of checked.now) places.now) out.new }
{
    let count = u32::try_from(places.len()).map_err(|_| NoMemory)?;
    for number in 0..count {
        push_place(out, checked.function(number), &places[number as usize]);
    }
    Ok(())
}

fn text_of(alloc: Global, checked: &Checked, places: &[Option<FunTable>]) -> Result<Text, NoMemory>
    requires keys { All HasPlaceKeys places.now }
    requires count { length places.now ≡ length (functions (design_of checked.now)) }
    ensures { IfOk result (λ text. text ≡ defs_text (design_of checked.now) places.now) }
{
    let mut out = Printer::new(alloc);
    push_places(&mut out, checked, places)?;
    Text::from(alloc, &out.finish()?)
}

/// The text of the definitions that have these tables: a place for each function, in the order of declaration, none for
/// one with a body. An entry stands on a line of its own; of each function first the default, and then the rows in order.
pub fn print_defs(
    alloc: Global,
    checked: &Checked,
    places: &[Option<FunTable>],
) -> Result<Text, NoMemory>
    requires { AllZip FitsPlace (functions (design_of checked.now)) places.now }
    ensures text { IfOk result (λ text. text ≡ defs_text (design_of checked.now) places.now) }
    ensures reads { IfOk result (λ text.
        ReadsDefs text (entries_of_places (design_of checked.now) places.now)) }
{
    keeps_rules(checked);
    text_of(alloc, checked, places)
}

/// The design keeps the rules, and its functions have names.
fn keeps_rules(checked: &Checked)
    ensures resolves { Resolves (design_of checked.now) }
    ensures named { All IsNamed (functions (design_of checked.now)) }
{
    checked.design();
    checked.know_reading();
}
