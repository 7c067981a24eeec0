//! The JSON values of logs and of instances.
ghost use Rattle.std.specs.Prelude.{ℤ, List};
ghost use Rattle.json_forms.specs.Values.{integer_data};
ghost use Rattle.cnf_core.specs.Certificates as tree;
ghost use Rattle.cnf_core.specs.CertsOf.{instance_of, log_of, step_of};
ghost use Rattle.cert_text.specs.LogsJson as spec;

use crate::kind::LogJson;
use cnf_core::{Instance, Lit, Log, Step};
use cocoon_num::NoMemory;
use json_forms::{ToJson, array};
use serde_json::Value;
use std::alloc::Global;

/// The number -2147483648 is written, and is refused where it is read.
impl ToJson<LogJson> for Lit {
    ghost Meaning = { ℤ };

    ghost meaning = { λ l. l.number };

    ghost json = { integer_data };

    /// `LIT`
    fn to_json(&self, _: Global) -> Result<Value, NoMemory> {
        Ok(Value::from(self.number))
    }
}

impl ToJson<LogJson> for Step {
    ghost Meaning = { tree.Step };

    ghost meaning = { step_of };

    ghost json = { spec.step_data };

    /// `[[LIT],[HINT]]`
    fn to_json(&self, alloc: Global) -> Result<Value, NoMemory> {
        let lits = array::<LogJson, Lit>(alloc, self.clause.lits.items())?;
        let hints = array::<LogJson, u32>(alloc, self.hints.items())?;
        Ok(Value::Array(vec![in alloc; lits, hints]?))
    }
}

impl ToJson<LogJson> for Log {
    ghost Meaning = { List tree.Step };

    ghost meaning = { log_of };

    ghost json = { spec.log_data };

    /// `[STEP]`
    fn to_json(&self, alloc: Global) -> Result<Value, NoMemory> {
        array::<LogJson, Step>(alloc, self.steps.items())
    }
}

impl ToJson<LogJson> for Instance {
    ghost Meaning = { tree.Instance };

    ghost meaning = { instance_of };

    ghost json = { spec.instance_data };

    /// `[ASSUMPTION,[VALUE]]`
    fn to_json(&self, alloc: Global) -> Result<Value, NoMemory> {
        let values = array::<LogJson, u64>(alloc, self.values.items())?;
        Ok(Value::Array(vec![in alloc; Value::from(self.number), values]?))
    }
}
