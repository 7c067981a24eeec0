//! The rules of tables: those of an action, and those of its table.
ghost use Rattle.std.specs.Prelude.{◌≡◌, ◌+◌, ◌*◌, ◌++◌, ◌∷◌, [], IfOk, List as Items, MatchOption, OnOk, decimal, length, map, slice_get, true, false, ℕ};
ghost use Rattle.cocoon_num.specs.Names.{same_name};
ghost use Rattle.p4_ir.specs.Program as ir;
ghost use Rattle.p4_texts.specs.KindFaults.{action_keeps};
ghost use Rattle.p4_texts.specs.Meant as meant;
ghost use Rattle.p4_texts.specs.Meant.{number_in};
ghost use Rattle.p4_resolve.specs.Controls.{KnowsText};
ghost use Rattle.p4_resolve.specs.Judged.{Sees, index};
ghost use Rattle.p4_resolve.specs.TableForms as spec;
ghost use Rattle.p4_resolve.specs.TableForms.{is_wide, own_keeps};
ghost use Rattle.p4_texts.specs.Written.{ProgramText};
ghost use Rattle.p4_texts.specs.TreeOf.{table_of};

use crate::numbers::{is_numbered, is_with, table_number, tail};
use crate::pieces::after;
use crate::scope::{Scope, place};
use cocoon_num::{List, NoMemory, Text};
use p4_ir::{P4Field, Table};
use p4_kinds::bytes::is_same;
use p4_kinds::names::is_new;
use p4_kinds::numbers::is_fitting;
use p4_texts::written::WrittenTable;
use std::alloc::Global;
use std::collections::BTreeSet;

/// There is a field of this index, and it has this width.
fn has_width(fields: &[P4Field], index: u32, width: u32) -> bool
    ensures { result ≡ is_wide (slice_get (map ir.field_of fields.now) index) width }
{
    match fields.get(index as usize) {
        Some(field) => width == u32::from(field.width),
        None => false,
    }
}

/// The action keeps its rules. Its name joins those before.
pub(crate) fn action_fits(
    alloc: Global,
    scope: &Scope,
    actions: &mut BTreeSet<Vec<u8>>,
    table: &WrittenTable,
) -> Result<bool, NoMemory>
    ensures keeps { (t : ProgramText) (names : Items (Items ℕ)) → KnowsText scope.now t
        → Sees actions.old.keys names
        → IfOk result (λ fits. fits ≡ action_keeps t names (table_of table.now)) }
    ensures seen { (names : Items (Items ℕ)) → Sees actions.old.keys names
        → OnOk result (Sees actions.new.keys (names ++ table.now.action ∷ [])) }
{
    let action = table.action.bytes();
    let is_new = is_new(alloc, actions, action)?;
    let result = place(&scope.meta, table.result.bytes());
    let is_wide = has_width(scope.program.meta.items(), result, table.width);
    Ok(is_numbered(b'a', action) && is_new && is_wide)
}

/// The meta fields that these keys name.
fn key_indices(alloc: Global, scope: &Scope, keys: &[Text]) -> Result<Vec<u32>, NoMemory>
    ensures { (t : ProgramText) → KnowsText scope.now t
        → IfOk result (λ made. made.items ≡ map (meant.meta_at t) keys.now) }
{
    let mut made = Vec::new(alloc);
    for key in keys {
        made.push(place(&scope.meta, key.bytes()))?;
    }
    Ok(made)
}

/// The table of this number that a text declares.
fn declared(
    alloc: Global,
    scope: &Scope,
    number: u32,
    table: &WrittenTable,
) -> Result<Table, NoMemory>
    ensures { (t : ProgramText) → KnowsText scope.now t → number ≡ number_in table.now.action
        → IfOk result (λ made. ir.table_of made ≡ meant.table_meant t (table_of table.now)) }
{
    let keys = key_indices(alloc, scope, table.keys.items())?;
    let result = place(&scope.meta, table.result.bytes());
    let exact = table.exact && !table.keys.items().is_empty();
    let keys = List::from(keys);
    Ok(Table {
        number,
        exact,
        keys,
        result,
    })
}

/// The table has its own action, and the default of it is zero.
fn agrees(table: &WrittenTable) -> bool
    ensures { result ≡ spec.agrees (table_of table.now) }
{
    let action = table.action.bytes();
    is_same(table.actions.bytes(), action)
        && is_same(table.default_action.bytes(), action)
        && u32::from(table.default.width) == table.width
        && table.default.value == 0
}

/// The table keeps its rules, where no number below the least may come.
fn table_fits(scope: &Scope, least: u32, table: &WrittenTable, declared: &Table) -> bool
    ensures { (t : ProgramText) → KnowsText scope.now t
        → ir.table_of declared.now ≡ meant.table_meant t (table_of table.now)
        → result ≡ own_keeps t least (table_of table.now) }
{
    let is_named = is_with(b't', table.table.bytes(), tail(table.action.bytes()));
    let fits = is_fitting(&scope.program, declared);
    let agrees = agrees(table);
    is_named && least <= declared.number && fits && agrees
}

/// The table of an action that keeps its rules, if it keeps its own.
pub(crate) fn fitting_table(
    alloc: Global,
    scope: &Scope,
    least: u32,
    table: &WrittenTable,
) -> Result<Option<Table>, NoMemory>
    ensures { (t : ProgramText) → KnowsText scope.now t
        → same_name table.now.action (97 ∷ decimal (number_in table.now.action)) ≡ true
        → IfOk result (λ found.
        MatchOption found (own_keeps t least (table_of table.now) ≡ false)
        (λ made. (own_keeps t least (table_of table.now) ≡ true)
        × (ir.table_of made ≡ meant.table_meant t (table_of table.now)))) }
{
    let Some(number) = table_number(table.action.bytes()) else {
        return Ok(None);
    };
    let declared = declared(alloc, scope, number, table)?;
    if table_fits(scope, least, table, &declared) {
        Ok(Some(declared))
    } else {
        Ok(None)
    }
}

/// The token after keys of six tokens each, the first at this one.
pub(crate) fn after_keys(at: u32, keys: &[Text]) -> u32
    ensures { result ≡ index (at + length keys.now * 6) }
{
    let mut next = at;
    for _key in keys {
        next = after(next, 6);
    }
    next
}
