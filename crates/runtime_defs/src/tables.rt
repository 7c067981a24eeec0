//! The tables of functions, from the entries of definitions.
ghost use Rattle.std.specs.Prelude.{All, ◌≡◌, ◌≤◌, ◌+◌, ◌-◌, ◌^◌, ◌++◌, filter_map, IfOk, List as Items, map, None, OnOk, option_map, option_to_list, Some};
ghost use Rattle.std.specs.List.{AllZip};
ghost use Rattle.cocoon_num.specs.BitsOf.{value_of};
ghost use Rattle.cocoon_num.specs.Lists.{first_of};
ghost use Rattle.cocoon_num.specs.Names.{same_name};
ghost use Rattle.cocoon_resolve.specs.Resolved.{Resolves};
ghost use Rattle.cocoon_syntax.specs.TreeOf.{const_of, design_of, entry_of, function_of, param_of, pattern_of};
ghost use Rattle.cocoon_types.specs.DefsRules.{DefsFit};
ghost use Rattle.cocoon_types.specs.Design.{functions, widths_of};
ghost use Rattle.cocoon_types.specs.Tables.{default_of, Row as TreeRow, row_of};
ghost use Rattle.runtime_defs.specs.Bound.{as_bits, IsPlace, IsRow, pattern_mask, pattern_value, row_count};
ghost use Rattle.runtime_defs.specs.Steps.{HasRow, IsByte, IsDefined, IsKey, IsNarrow, RowIsNarrow};

use crate::finding::function_count;
use cocoon_num::{Bits, FunRow, FunTable, List, NoMemory};
use cocoon_resolve::Checked;
use cocoon_syntax::{Const, Entry, FunctionDecl, Param, Pattern};
use std::alloc::Global;

/// The value of a number of at most 64 bits.
#[tactic(auto, using(crate::proofs::Masks::narrow_value))]
fn number(bits: Bits) -> u64
    requires { bits.width ≤ 64 }
    ensures { result ≡ bits.value }
{
    bits.value as u64
}

/// Ones in all of its bits.
#[tactic(auto, using(crate::proofs::Masks::ones_are))]
fn ones(bits: Bits) -> u64
    requires { bits.width ≤ 64 }
    ensures { result ≡ 2 ^ bits.width - 1 }
{
    u64::MAX >> (64 - bits.width)
}

/// The value and the mask of a pattern.
fn key(pattern: Pattern) -> (u64, u64)
    requires { IsNarrow (pattern_of pattern) }
    ensures { IsKey (pattern_of pattern) result.0 result.1 }
{
    match pattern {
        Pattern::Literal(bits) => (number(bits), ones(bits)),
        Pattern::Masked(bits, mask) => (number(bits) & number(mask), number(mask)),
        Pattern::Any => (0, 0),
    }
}

fn values_of(alloc: Global, patterns: &[Pattern]) -> Result<Vec<u64>, NoMemory>
    requires { All IsNarrow (map pattern_of patterns.now) }
    ensures { IfOk result (λ values.
        values.items ≡ map pattern_value (map pattern_of patterns.now)) }
{
    let mut values = Vec::new(alloc);
    for pattern in patterns {
        values.push(key(*pattern).0)?;
    }
    Ok(values)
}

fn masks_of(alloc: Global, patterns: &[Pattern]) -> Result<Vec<u64>, NoMemory>
    requires { All IsNarrow (map pattern_of patterns.now) }
    ensures { IfOk result (λ masks. masks.items ≡ map pattern_mask (map pattern_of patterns.now)) }
{
    let mut masks = Vec::new(alloc);
    for pattern in patterns {
        masks.push(key(*pattern).1)?;
    }
    Ok(masks)
}

fn bits_of(value: Const) -> Bits
    ensures { value_of result ≡ as_bits (const_of value) }
{
    match value {
        Const::Number(bits) => bits,
        Const::Truth(true) => Bits::new(1, 1),
        Const::Truth(false) => Bits::new(1, 0),
    }
}

fn fun_row(alloc: Global, patterns: &[Pattern], value: Const) -> Result<FunRow, NoMemory>
    requires { All IsNarrow (map pattern_of patterns.now) }
    ensures { IfOk result (λ row. HasRow (map pattern_of patterns.now) (const_of value) row) }
{
    let values = values_of(alloc, patterns)?;
    let masks = masks_of(alloc, patterns)?;
    Ok(FunRow {
        values: List::from(values),
        masks: List::from(masks),
        result: bits_of(value),
    })
}

/// Whether two names are the same.
fn is_same(name: &[u8], other: &[u8]) -> bool
    ensures { result ≡ same_name name.now other.now }
{
    name == other
}

/// Pushes the row, if the entry is one of this function.
fn push_row(
    alloc: Global,
    function: &[u8],
    entry: &Entry,
    rows: &mut Vec<FunRow>,
) -> Result<(), NoMemory>
    requires { RowIsNarrow function.now (entry_of entry.now) }
    ensures { (before : Items TreeRow) → AllZip IsRow before rows.old.items
        → OnOk result (AllZip IsRow
        (before ++ option_to_list (row_of function.now (entry_of entry.now))) rows.new.items) }
{
    if let Entry::Define(name, patterns, value) = entry {
        if is_same(function, name.text.bytes()) {
            rows.push(fun_row(alloc, patterns, *value)?)?;
        }
    }
    Ok(())
}

/// The rows of a function, in the order of the text.
fn rows_of(alloc: Global, function: &[u8], entries: &[Entry]) -> Result<Vec<FunRow>, NoMemory>
    requires { All (RowIsNarrow function.now) (map entry_of entries.now) }
    ensures { IfOk result (λ rows. AllZip IsRow
        (filter_map (row_of function.now) (map entry_of entries.now)) rows.items) }
{
    let mut rows = Vec::new(alloc);
    for entry in entries {
        push_row(alloc, function, entry, &mut rows)?;
    }
    Ok(rows)
}

/// The value of an entry, if it is the default of this function.
fn default_in(function: &[u8], entry: &Entry) -> Option<Const>
    ensures { option_map const_of result ≡ default_of function.now (entry_of entry.now) }
{
    match entry {
        Entry::Default(name, value) => {
            if is_same(function, name.text.bytes()) {
                Some(*value)
            } else {
                None
            }
        }
        Entry::Define(_, _, _) => None,
    }
}

/// The first default of a function.
fn default_value(function: &[u8], entries: &[Entry]) -> Option<Const>
    ensures { option_map const_of result
        ≡ first_of (filter_map (default_of function.now) (map entry_of entries.now)) }
{
    for entry in entries {
        let value = default_in(function, entry);
        if value.is_some() {
            return value;
        }
    }
    None
}

fn param_widths(alloc: Global, params: &[Param]) -> Result<Vec<u8>, NoMemory>
    requires { All IsByte (widths_of (map param_of params.now)) }
    ensures { IfOk result (λ widths. widths.items ≡ widths_of (map param_of params.now)) }
{
    let mut widths = Vec::new(alloc);
    for param in params {
        widths.push(width_of(param))?;
    }
    Ok(widths)
}

fn width_of(param: &Param) -> u8
    requires { IsByte param.now.width }
    ensures { result ≡ param.now.width }
{
    param.width as u8
}

/// The table of a function that is defined at run time.
fn runtime_table(
    alloc: Global,
    function: &FunctionDecl,
    entries: &[Entry],
) -> Result<FunTable, NoMemory>
    requires bodiless { function.now.body ≡ None }
    requires defined { IsDefined (function_of function.now) (map entry_of entries.now) }
    ensures { IfOk result (λ table.
        IsPlace (map entry_of entries.now) (function_of function.now) (Some table)) }
{
    let name = function.name.text.bytes();
    let default = default_value(name, entries).unwrap();
    let rows = rows_of(alloc, name, entries)?;
    let widths = param_widths(alloc, &function.params)?;
    Ok(FunTable {
        widths: List::from(widths),
        rows: List::from(rows),
        default: bits_of(default),
    })
}

/// What stands at the place of a function.
fn place_of(
    alloc: Global,
    function: &FunctionDecl,
    entries: &[Entry],
) -> Result<Option<FunTable>, NoMemory>
    requires { function.now.body ≡ None
        → IsDefined (function_of function.now) (map entry_of entries.now) }
    ensures { IfOk result (λ place.
        IsPlace (map entry_of entries.now) (function_of function.now) place) }
{
    match function.body {
        None => Ok(Some(runtime_table(alloc, function, entries)?)),
        Some(_) => Ok(None),
    }
}

/// A place for each function of the design, in the order of declaration.
pub(crate) fn tables_of(
    alloc: Global,
    checked: &Checked,
    entries: &[Entry],
) -> Result<Vec<Option<FunTable>>, NoMemory>
    requires fit { DefsFit (design_of checked.now) (map entry_of entries.now) }
    requires rules { Resolves (design_of checked.now) }
    ensures { IfOk result (λ tables. AllZip (IsPlace (map entry_of entries.now))
        (functions (design_of checked.now)) tables.items) }
{
    let mut tables = Vec::new(alloc);
    for number in 0..function_count(checked) {
        tables.push(place_of(alloc, checked.function(number), entries)?)?;
    }
    Ok(tables)
}

/// How many of the entries are rows.
pub(crate) fn count_rows(entries: &[Entry]) -> u64
    ensures { result ≡ row_count (map entry_of entries.now) }
{
    let mut count = 0;
    for entry in entries {
        if let Entry::Define(_, _, _) = entry {
            count += 1;
        }
    }
    count
}
