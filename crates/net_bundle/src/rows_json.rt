//! The text of a file of rows.
ghost use Rattle.std.specs.Prelude.{◌≡◌, IfOk, map};
ghost use Rattle.serde_json.specs.Data.{array};
ghost use Rattle.serde_json.specs.View.{view};
ghost use Rattle.p4_ir.specs.NetOf.{group_of, key_row_of, rows_of, table_rows_of};
ghost use Rattle.p4_ir.specs.P4Tree as tree;
ghost use Rattle.net_bundle.specs.Bundle as spec;
ghost use Rattle.json_forms.specs.Values.{array_data, number_data};
ghost use Rattle.net_bundle.specs.NetJson.{group_data, key_data, row_data, rows_data, table_data};
ghost use Rattle.json_forms.specs.Values.{IsJson};

use crate::kind::BundleJson;
use cocoon_num::NoMemory;
use json_forms::{ToJson, array, with};
use p4_ir::{Group, KeyRow, RowsFile, TableRows};
use serde_json::{Map, Value};
use std::alloc::Global;

/// `[[VALUE,MASK], ..]`
fn key_value(alloc: Global, values: &[u64], masks: &[u64]) -> Result<Value, NoMemory>
    ensures { IfOk result (λ v. view v ≡ array (key_data values.now masks.now)) }
{
    let mut pairs = Vec::new(alloc);
    for index in 0..values.len().min(masks.len()) {
        let pair = vec![in alloc; Value::from(values[index]), Value::from(masks[index])]?;
        pairs.push(Value::Array(pair))?;
    }
    Ok(Value::Array(pairs))
}

impl ToJson<BundleJson> for KeyRow {
    ghost Meaning = { tree.KeyRow };

    ghost meaning = { key_row_of };

    ghost json = { row_data };

    /// `{"key":[[VALUE,MASK]],"value":V}`
    fn to_json(&self, alloc: Global) -> Result<Value, NoMemory> {
        let key = key_value(alloc, self.values.items(), self.masks.items());
        let object = with(alloc, Ok(Map::new(alloc)), "key", key);
        let object = with(alloc, object, "value", Ok(Value::from(self.result)));
        Ok(Value::Object(object?))
    }
}

impl ToJson<BundleJson> for TableRows {
    ghost Meaning = { tree.TableRows };

    ghost meaning = { table_rows_of };

    ghost json = { table_data };

    /// `{"default":V,"rows":[ROW],"table":NUMBER}`
    fn to_json(&self, alloc: Global) -> Result<Value, NoMemory> {
        let rows = array::<BundleJson, KeyRow>(alloc, self.rows.items());
        let object = with(
            alloc,
            Ok(Map::new(alloc)),
            "default",
            Ok(Value::from(self.default)),
        );
        let object = with(alloc, object, "rows", rows);
        let object = with(alloc, object, "table", Ok(Value::from(self.number)));
        Ok(Value::Object(object?))
    }
}

impl ToJson<BundleJson> for Group {
    ghost Meaning = { tree.Group };

    ghost meaning = { group_of };

    ghost json = { group_data };

    /// `[NUMBER,[MEMBER]]`
    fn to_json(&self, alloc: Global) -> Result<Value, NoMemory> {
        let members = array::<BundleJson, u64>(alloc, self.members.items())?;
        Ok(Value::Array(vec![in alloc; Value::from(self.number), members]?))
    }
}

/// `{"groups":[GROUP],"tables":[TABLE]}`
fn rows_value(alloc: Global, rows: &RowsFile) -> Result<Value, NoMemory>
    ensures { IfOk result (λ v. view v ≡ rows_data (rows_of rows.now)) }
{
    let groups = array::<BundleJson, Group>(alloc, rows.groups.items());
    let tables = array::<BundleJson, TableRows>(alloc, rows.tables.items());
    let object = with(alloc, Ok(Map::new(alloc)), "groups", groups);
    let object = with(alloc, object, "tables", tables);
    Ok(Value::Object(object?))
}

/// The text of a file of rows.
pub fn rows_text(alloc: Global, rows: &RowsFile) -> Result<Vec<u8>, NoMemory>
    ensures text { IfOk result (λ v. v.items ≡ spec.rows_text (rows_of rows.now)) }
    ensures reads { IfOk result (λ v. IsJson v.items (rows_data (rows_of rows.now))) }
{
    let value = rows_value(alloc, rows)?;
    Ok(value.to_vec(alloc)?)
}
