//! The members that the files are made of, and the file with members.
ghost use Rattle.std.specs.Prelude.{◌≡◌, codes, IfOk, IsUtf8, map};
ghost use Rattle.cnf_core.specs.CertsOf.{instance_of, log_of};
ghost use Rattle.cocoon_syntax.specs.TreeOf.{design_of};
ghost use Rattle.runtime_defs.specs.EntryPlaces.{defs_text};
ghost use Rattle.json_forms.specs.Values.{number_data};
ghost use Rattle.cert_text.specs.LogsJson.{instances_data, log_data};
ghost use Rattle.runtime_defs.specs.Fitting.{FitsDesign};
ghost use Rattle.serde_json.specs.Data.{Members, member, no_members, put, string};
ghost use Rattle.serde_json.specs.View.{members_view, view};
ghost use Rattle.cert_text.specs.BudgetJson.{IsBudgetFile, budget_members};
ghost use Rattle.cert_text.specs.Spent.{Spent};

use crate::LogJson;
use cnf_core::{Instance, Log};
use cocoon_num::NoMemory;
use cocoon_resolve::Checked;
use json_forms::{ToJson, array, text, with};
use runtime_defs::Defs;
use serde_json::{Map, Value};
use std::alloc::Global;

/// What was made of a file's object.
pub(crate) type Object = Result<Map<String, Value>, NoMemory>;

/// These bytes as a text.
fn utf8(bytes: &[u8]) -> &str
    requires { IsUtf8 bytes.now }
    ensures { result.now ≡ bytes.now }
{
    str::from_utf8(bytes).unwrap_or_default()
}

/// The text of the definitions.
fn defs_value(alloc: Global, checked: &Checked, defs: &Defs) -> Result<Value, NoMemory>
    requires { FitsDesign (design_of checked.now) defs.now }
    ensures { IfOk result (λ v. view v ≡ string (defs_text (design_of checked.now) defs.now)) }
{
    let printed = defs.text(alloc, checked)?;
    checked.know_reading();
    text(alloc, utf8(printed.bytes()))
}

/// The assumption of this number, and the definitions.
pub(crate) fn assumed(alloc: Global, checked: &Checked, number: u32, defs: &Defs) -> Object
    requires { FitsDesign (design_of checked.now) defs.now }
    ensures { IfOk result (λ o. members_view o.entries
        ≡ member (codes "assumption") (number_data number)
        (member (codes "defs") (string (defs_text (design_of checked.now) defs.now)) no_members)) }
{
    let text = defs_value(alloc, checked, defs);
    let object = Ok(Map::new(alloc));
    let object = with(alloc, object, "assumption", Ok(Value::from(number)));
    with(alloc, object, "defs", text)
}

pub(crate) fn with_instances(alloc: Global, object: Object, instances: &[Instance]) -> Object
    ensures { (members : Members) → IfOk object (λ o. members_view o.entries ≡ members)
        → IfOk result (λ o. members_view o.entries ≡ put (codes "instances")
        (instances_data (map instance_of instances.now)) members) }
{
    let values = array::<LogJson, Instance>(alloc, instances);
    with(alloc, object, "instances", values)
}

pub(crate) fn with_log(alloc: Global, object: Object, log: &Log) -> Object
    ensures { (members : Members) → IfOk object (λ o. members_view o.entries ≡ members)
        → IfOk result (λ o. members_view o.entries
        ≡ put (codes "log") (log_data (log_of log.now)) members) }
{
    with(alloc, object, "log", log.to_json(alloc))
}

pub(crate) fn with_obligation(alloc: Global, object: Object, obligation: u32) -> Object
    ensures { (members : Members) → IfOk object (λ o. members_view o.entries ≡ members)
        → IfOk result (λ o. members_view o.entries
        ≡ put (codes "obligation") (number_data obligation) members) }
{
    with(alloc, object, "obligation", Ok(Value::from(obligation)))
}

/// The text of the file with these members.
pub(crate) fn written(alloc: Global, object: Object) -> Result<Vec<u8>, NoMemory>
    ensures { (spent : Spent) → IfOk object (λ o. members_view o.entries ≡ budget_members spent)
        → IfOk result (λ bytes. IsBudgetFile spent bytes.items) }
{
    let value = Value::Object(object?);
    Ok(value.to_vec(alloc)?)
}
