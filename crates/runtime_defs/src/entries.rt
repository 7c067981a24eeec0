//! The tests of one entry.
ghost use Rattle.std.specs.Prelude.{◌≡◌, ◌++◌, ℕ, is_some, List, map, OnOk, option_map, option_to_list, true};
ghost use Rattle.cocoon_num.specs.Sorts.{same_sort};
ghost use Rattle.cocoon_syntax.specs.TreeOf.{const_of, design_of, entry_of, function_of, name_of, param_of, pattern_of, result_of};
ghost use Rattle.cocoon_types.specs.DefsRules as rules;
ghost use Rattle.cocoon_types.specs.Design.{widths_of};
ghost use Rattle.cocoon_types.specs.Typing.{result_sort};
ghost use Rattle.declarations.specs.Declares.{function_number};
ghost use Rattle.runtime_defs.specs.Faults.{IsFirst};
ghost use Rattle.runtime_defs.specs.Sets.{Holds, if_second};

use crate::fault::DefsFault;
use crate::function_set::FunctionSet;
use cocoon_num::NoMemory;
use cocoon_resolve::Checked;
use cocoon_syntax::{Const, Entry, FunctionDecl, Name, Param, Pattern, ResultKind};

/// The function that an entry names.
pub(crate) fn entry_function(entry: &Entry) -> &Name
    ensures { name_of result.now ≡ rules.entry_function (entry_of entry.now) }
{
    match entry {
        Entry::Default(function, _) => function,
        Entry::Define(function, _, _) => function,
    }
}

/// The function of this name that is defined at run time.
fn runtime_named<'c>(checked: &'c Checked, name: &[u8]) -> Option<&'c FunctionDecl>
    ensures { option_map (λ f. function_of f.now) result
        ≡ rules.runtime_named (design_of checked.now) name.now }
{
    let function = checked.names().function_named(checked.design(), name)?;
    match function.body {
        None => Some(function),
        Some(_) => None,
    }
}

fn pattern_fits(pattern: Pattern, width: u32) -> bool
    ensures { result ≡ rules.pattern_fits (pattern_of pattern) width }
{
    match pattern {
        Pattern::Literal(bits) => u32::from(bits.width) == width,
        Pattern::Masked(bits, mask) => {
            u32::from(bits.width) == width && u32::from(mask.width) == width
        }
        Pattern::Any => true,
    }
}

/// Whether there are as many patterns as parameters, each of its width.
fn patterns_fit(patterns: &[Pattern], params: &[Param]) -> bool
    ensures { result ≡ rules.patterns_fit (map pattern_of patterns.now)
        (widths_of (map param_of params.now)) }
{
    if patterns.len() != params.len() {
        return false;
    }
    let mut at = 0;
    while at < params.len() {
        if !pattern_fits(patterns[at], params[at].width) {
            return false;
        }
        at += 1;
    }
    true
}

fn is_number(value: Const, width: u32) -> bool
    ensures { result ≡ same_sort (result_sort (result_of (ResultKind.Width width)))
        (rules.sort_of_value (const_of value)) }
{
    match value {
        Const::Number(bits) => u32::from(bits.width) == width,
        Const::Truth(_) => false,
    }
}

fn is_truth(value: Const) -> bool
    ensures { result ≡ same_sort (result_sort (result_of ResultKind.Truth))
        (rules.sort_of_value (const_of value)) }
{
    match value {
        Const::Number(_) => false,
        Const::Truth(_) => true,
    }
}

fn value_fits(function: &FunctionDecl, value: Const) -> bool
    ensures { result ≡ rules.value_fits (function_of function.now) (const_of value) }
{
    match function.result {
        ResultKind::Width(width) => is_number(value, width),
        ResultKind::Truth => is_truth(value),
    }
}

/// Whether the patterns and the value of an entry are those of its function.
fn entry_fits(function: &FunctionDecl, entry: &Entry) -> bool
    ensures { result ≡ rules.entry_fits (function_of function.now) (entry_of entry.now) }
{
    match entry {
        Entry::Default(_, value) => value_fits(function, *value),
        Entry::Define(_, patterns, value) => {
            patterns_fit(patterns, &function.params) && value_fits(function, *value)
        }
    }
}

/// Whether an entry is a default of a function that has one already.
fn is_second(checked: &Checked, defaulted: &FunctionSet, entry: &Entry) -> bool
    ensures { (fs : List (List ℕ)) → Holds (design_of checked.now) fs defaulted.now
        → is_some (function_number (design_of checked.now)
        (rules.entry_function (entry_of entry.now)).text) ≡ true
        → rules.default_faults fs (entry_of entry.now)
        ≡ if_second result (rules.entry_function (entry_of entry.now)).at }
{
    match entry {
        Entry::Default(function, _) => defaulted.has(checked, function.text.bytes()),
        Entry::Define(_, _, _) => false,
    }
}

/// The first fault of an entry, where these functions have a default already.
pub(crate) fn entry_fault(
    checked: &Checked,
    defaulted: &FunctionSet,
    entry: &Entry,
) -> Option<DefsFault>
    ensures { (fs : List (List ℕ)) → Holds (design_of checked.now) fs defaulted.now
        → IsFirst (design_of checked.now)
        (rules.entry_faults (design_of checked.now) fs (entry_of entry.now)) result }
{
    let name = entry_function(entry);
    match runtime_named(checked, name.text.bytes()) {
        None => Some(DefsFault::UnknownFunction(name.at)),
        Some(function) => {
            if !entry_fits(function, entry) {
                return Some(DefsFault::WrongRow(name.at));
            }
            if is_second(checked, defaulted, entry) {
                return Some(DefsFault::TwoDefaults(name.at));
            }
            None
        }
    }
}

/// Adds the function of which an entry is the default.
pub(crate) fn add_default(
    checked: &Checked,
    entry: &Entry,
    defaulted: &mut FunctionSet,
) -> Result<(), NoMemory>
    ensures { (fs : List (List ℕ)) → Holds (design_of checked.now) fs defaulted.old
        → OnOk result (Holds (design_of checked.now)
        (option_to_list (rules.default_function (entry_of entry.now)) ++ fs) defaulted.new) }
{
    match entry {
        Entry::Default(function, _) => defaulted.add(checked, function.text.bytes()),
        Entry::Define(_, _, _) => Ok(()),
    }
}
