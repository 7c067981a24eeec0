//! The first fault of definitions.
ghost use Rattle.std.specs.Prelude.{◌≡◌, ◌++◌, is_some, ◌≤◌, ◌<◌, [], nat_lt, flat_map, IfOk, length, List, map, true, ℕ};
ghost use Rattle.cocoon_syntax.specs.TreeOf.{design_of, entries_of, entry_of, function_of};
ghost use Rattle.cocoon_types.specs.DefsRules as rules;
ghost use Rattle.cocoon_types.specs.Design.{functions};
ghost use Rattle.declarations.specs.Declares.{function_number};
ghost use Rattle.runtime_defs.specs.Faults.{FirstFault, IsFirst};
ghost use Rattle.runtime_defs.specs.Sets.{AreKnown, EntriesRead, fork_faults, guard_faults, Holds, is_missing, missing_of};

use crate::entries::{add_default, entry_fault};
use crate::fault::DefsFault;
use crate::function_set::FunctionSet;
use crate::literal_rows::{first_other, fork_functions, guard_functions};
use cocoon_num::NoMemory;
use cocoon_resolve::Checked;
use cocoon_syntax::{DefsText, Entry, FunctionDecl};
use declarations::FunId;
use std::alloc::Global;

/// The first fault of definitions, if they have one: of the entries in the order of the text; then the first function
/// that has no default; then of the entries of guard functions; then of the entries of functions under a `fork` of the
/// last level. The limit on rows is not among them.
pub fn first_fault(
    alloc: Global,
    checked: &Checked,
    defs: &DefsText,
) -> Result<Option<DefsFault>, NoMemory>
    ensures { IfOk result (λ fault.
        FirstFault (design_of checked.now) (entries_of defs.now) fault) }
{
    first_among(alloc, checked, &defs.entries)
}

fn first_among(
    alloc: Global,
    checked: &Checked,
    entries: &[Entry],
) -> Result<Option<DefsFault>, NoMemory>
    ensures { IfOk result (λ fault.
        FirstFault (design_of checked.now) (map entry_of entries.now) fault) }
{
    let mut defaulted = FunctionSet::new(alloc);
    let fault = first_entry_fault(checked, entries, &mut defaulted)?;
    if fault.is_some() {
        return Ok(fault);
    }
    first_later_fault(alloc, checked, &defaulted, entries)
}

/// The first fault of the entries, and the functions that have a default.
fn first_entry_fault(
    checked: &Checked,
    entries: &[Entry],
    defaulted: &mut FunctionSet,
) -> Result<Option<DefsFault>, NoMemory>
    requires { Holds (design_of checked.now) [] defaulted.old }
    ensures { IfOk result (λ fault.
        EntriesRead (design_of checked.now) (map entry_of entries.now) defaulted.new fault) }
{
    for entry in entries {
        let fault = entry_fault(checked, defaulted, entry);
        if fault.is_some() {
            return Ok(fault);
        }
        add_default(checked, entry, defaulted)?;
    }
    Ok(None)
}

/// Whether the design has a function of this number.
fn is_function(checked: &Checked, number: FunId) -> bool
    ensures is { result ≡ nat_lt number (length (functions (design_of checked.now))) }
    ensures few { result ≡ true → number < 128 }
{
    checked.names().function(checked.design(), number).is_some()
}

/// How many functions the design has.
pub(crate) fn function_count(checked: &Checked) -> u32
    ensures count { result ≡ length (functions (design_of checked.now)) }
    ensures bound { result ≤ 128 }
{
    let mut count = 0;
    while is_function(checked, count) {
        count += 1;
    }
    count
}

/// Whether a function is defined at run time and has no default.
fn is_missing(checked: &Checked, defaulted: &FunctionSet, function: &FunctionDecl) -> bool
    ensures { (fs : List (List ℕ)) → Holds (design_of checked.now) fs defaulted.now
        → is_some (function_number (design_of checked.now)
        (function_of function.now).name.text) ≡ true
        → is_missing fs (function_of function.now) ≡ result }
{
    match function.body {
        None => !defaulted.has(checked, function.name.text.bytes()),
        Some(_) => false,
    }
}

/// The first function that is defined at run time and has no default.
fn first_missing(checked: &Checked, defaulted: &FunctionSet) -> Option<DefsFault>
    ensures { (fs : List (List ℕ)) → Holds (design_of checked.now) fs defaulted.now
        → IsFirst (design_of checked.now)
        (flat_map (missing_of fs) (functions (design_of checked.now))) result }
{
    for number in 0..function_count(checked) {
        if is_missing(checked, defaulted, checked.function(number)) {
            return Some(DefsFault::NoDefault(number));
        }
    }
    None
}

/// The first entry of a guard function that is not literal.
fn first_guard_fault(
    alloc: Global,
    checked: &Checked,
    entries: &[Entry],
) -> Result<Option<DefsFault>, NoMemory>
    requires { AreKnown (design_of checked.now) (map entry_of entries.now) }
    ensures { IfOk result (λ fault. IsFirst (design_of checked.now)
        (guard_faults (design_of checked.now) (map entry_of entries.now)) fault) }
{
    let guards = guard_functions(alloc, checked)?;
    match first_other(checked, &guards, entries) {
        Some(at) => Ok(Some(DefsFault::GuardRows(at))),
        None => Ok(None),
    }
}

/// The first entry of a function under a `fork` that is not literal.
fn first_fork_fault(
    alloc: Global,
    checked: &Checked,
    entries: &[Entry],
) -> Result<Option<DefsFault>, NoMemory>
    requires { AreKnown (design_of checked.now) (map entry_of entries.now) }
    ensures { IfOk result (λ fault. IsFirst (design_of checked.now)
        (fork_faults (design_of checked.now) (map entry_of entries.now)) fault) }
{
    let forks = fork_functions(alloc, checked)?;
    match first_other(checked, &forks, entries) {
        Some(at) => Ok(Some(DefsFault::ForkRows(at))),
        None => Ok(None),
    }
}

/// The first entry of a guard function that is not literal, or else that of a function under a `fork`.
fn first_other_fault(
    alloc: Global,
    checked: &Checked,
    entries: &[Entry],
) -> Result<Option<DefsFault>, NoMemory>
    requires { AreKnown (design_of checked.now) (map entry_of entries.now) }
    ensures { IfOk result (λ fault. IsFirst (design_of checked.now)
        (guard_faults (design_of checked.now) (map entry_of entries.now)
        ++ fork_faults (design_of checked.now) (map entry_of entries.now)) fault) }
{
    let fault = first_guard_fault(alloc, checked, entries)?;
    if fault.is_some() {
        return Ok(fault);
    }
    first_fork_fault(alloc, checked, entries)
}

/// The first fault after those of the entries, where these functions have a default.
fn first_later_fault(
    alloc: Global,
    checked: &Checked,
    defaulted: &FunctionSet,
    entries: &[Entry],
) -> Result<Option<DefsFault>, NoMemory>
    requires known { AreKnown (design_of checked.now) (map entry_of entries.now) }
    requires defaults { Holds (design_of checked.now)
        (rules.defaulted (map entry_of entries.now)) defaulted.now }
    ensures { IfOk result (λ fault. IsFirst (design_of checked.now)
        (rules.missing_defaults (design_of checked.now) (map entry_of entries.now)
        ++ (guard_faults (design_of checked.now) (map entry_of entries.now)
        ++ fork_faults (design_of checked.now) (map entry_of entries.now))) fault) }
{
    let fault = first_missing(checked, defaulted);
    if fault.is_some() {
        return Ok(fault);
    }
    first_other_fault(alloc, checked, entries)
}
