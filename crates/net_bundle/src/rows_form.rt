//! Files of rows, read.
ghost use Rattle.std.specs.Prelude.{◌≡◌, ℕ, IfErr, IfOk, Ok, map, Result, IsTrue};
ghost use Rattle.serde_json.specs.View.{view};
ghost use Rattle.p4_ir.specs.NetOf.{group_of, key_row_of, rows_of, table_rows_of};
ghost use Rattle.p4_ir.specs.P4Tree as tree;
ghost use Rattle.p4_ir.specs.Loading.{rows_file_fits};
ghost use Rattle.net_bundle.specs.NetJson.{rows_data};
ghost use Rattle.json_forms.specs.Values.{IsJson};
ghost use Rattle.json_forms.specs.Reading.{Answered, Refused, Shaped};
ghost use Rattle.net_bundle.specs.RowsForm as spec;

use crate::found_kind::BundleJson;
use cocoon_num::{List, NoMemory, Text};
use json_forms::{FormFault, FromJson, has_items, has_keys, item, member, value_of};
use p4_ir::{Group, KeyRow, RowsFile, TableRows};
use serde_json::Value;
use std::alloc::Global;

impl FromJson<BundleJson> for Group {
    ghost Meaning = { tree.Group };

    ghost meaning = { group_of };

    ghost form = { spec.group_form };

    /// `[NUMBER,[MEMBER]]`
    fn from_json(alloc: Global, value: &Value) -> Result<Option<Group>, NoMemory> {
        if !has_items(value, 2) {
            return Ok(None);
        }
        let number = item::<BundleJson, u16>(alloc, value, 0)?;
        let members = item::<BundleJson, Vec<u64>>(alloc, value, 1)?;
        match (number, members) {
            (Some(number), Some(members)) => Ok(Some(Group {
                number,
                members: List::from(members),
            })),
            _ => Ok(None),
        }
    }
}

/// A value and the mask of the bits of it that are compared.
#[derive(Clone, Copy, Drop)]
struct Masked {
    value: u64,
    mask: u64,
}

impl FromJson<BundleJson> for Masked {
    ghost Meaning = { ℕ × ℕ };

    ghost meaning = { λ pair. (pair.value, pair.mask) };

    ghost form = { spec.pair_form };

    /// `[VALUE,MASK]`
    fn from_json(alloc: Global, value: &Value) -> Result<Option<Masked>, NoMemory> {
        if !has_items(value, 2) {
            return Ok(None);
        }
        let first = item::<BundleJson, u64>(alloc, value, 0)?;
        let second = item::<BundleJson, u64>(alloc, value, 1)?;
        match (first, second) {
            (Some(value), Some(mask)) => Ok(Some(Masked { value, mask })),
            _ => Ok(None),
        }
    }
}

/// The row of these values and masks.
fn row(alloc: Global, pairs: &[Masked], value: u64) -> Result<KeyRow, NoMemory>
    ensures { IfOk result (λ row. key_row_of row
        ≡ spec.row_made (map (λ p. (p.value, p.mask)) pairs.now) value) }
{
    let mut values = Vec::new(alloc);
    let mut masks = Vec::new(alloc);
    for pair in pairs {
        values.push(pair.value)?;
        masks.push(pair.mask)?;
    }
    Ok(KeyRow {
        values: List::from(values),
        masks: List::from(masks),
        result: value,
    })
}

impl FromJson<BundleJson> for KeyRow {
    ghost Meaning = { tree.KeyRow };

    ghost meaning = { key_row_of };

    ghost form = { spec.row_form };

    /// `{"key":[[VALUE,MASK]],"value":V}`
    fn from_json(alloc: Global, value: &Value) -> Result<Option<KeyRow>, NoMemory> {
        if !has_keys(value, &["key", "value"]) {
            return Ok(None);
        }
        let pairs = member::<BundleJson, Vec<Masked>>(alloc, value, "key")?;
        let given = member::<BundleJson, u64>(alloc, value, "value")?;
        match (pairs, given) {
            (Some(pairs), Some(given)) => Ok(Some(row(alloc, &pairs, given)?)),
            _ => Ok(None),
        }
    }
}

impl FromJson<BundleJson> for TableRows {
    ghost Meaning = { tree.TableRows };

    ghost meaning = { table_rows_of };

    ghost form = { spec.table_form };

    /// `{"default":V,"rows":[ROW],"table":NUMBER}`
    fn from_json(alloc: Global, value: &Value) -> Result<Option<TableRows>, NoMemory> {
        if !has_keys(value, &["default", "rows", "table"]) {
            return Ok(None);
        }
        let default = member::<BundleJson, u64>(alloc, value, "default")?;
        let rows = member::<BundleJson, Vec<KeyRow>>(alloc, value, "rows")?;
        let number = member::<BundleJson, u32>(alloc, value, "table")?;
        match (default, rows, number) {
            (Some(default), Some(rows), Some(number)) => Ok(Some(TableRows {
                number,
                default,
                rows: List::from(rows),
            })),
            _ => Ok(None),
        }
    }
}

/// The file of rows that the value stands for.
fn rows_of_value(alloc: Global, value: &Value) -> Result<RowsFile, FormFault>
    ensures file { IfOk result (λ file. spec.rows_form (view value.now) ≡ Ok (rows_of file)) }
    ensures fault { IfErr result (λ fault. Shaped (spec.rows_form (view value.now)) fault) }
{
    if !has_keys(value, &["groups", "tables"]) {
        return Err(FormFault::Shape(Text::from(alloc, b"")?));
    }
    let Some(groups) = member::<BundleJson, Vec<Group>>(alloc, value, "groups")? else {
        return Err(FormFault::Shape(Text::from(alloc, b"/groups")?));
    };
    let Some(tables) = member::<BundleJson, Vec<TableRows>>(alloc, value, "tables")? else {
        return Err(FormFault::Shape(Text::from(alloc, b"/tables")?));
    };
    Ok(RowsFile {
        tables: List::from(tables),
        groups: List::from(groups),
    })
}

/// The file of rows of these bytes, or why they are none.
pub fn read_rows(alloc: Global, bytes: &[u8]) -> Result<RowsFile, FormFault>
    ensures file { IfOk result (λ file. Answered spec.rows_form bytes.now (Ok (rows_of file))) }
    ensures fault { IfErr result (λ fault. Refused spec.rows_form bytes.now fault) }
{
    let value = value_of(alloc, bytes)?;
    rows_of_value(alloc, &value)
}
