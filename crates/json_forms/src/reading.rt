//! The JSON value of bytes.
ghost use Rattle.std.specs.Prelude.{IfErr, IfOk};
ghost use Rattle.serde_json.specs.View.{view};
ghost use Rattle.json_forms.specs.Reading.{NoValue};
ghost use Rattle.json_forms.specs.Values.{IsJson};

use crate::fault::FormFault;
use serde_json::Value;
use std::alloc::Global;

/// The value of these bytes, or why they have none: `NotJson` or `NoMemory`.
pub fn value_of(alloc: Global, bytes: &[u8]) -> Result<Value, FormFault>
    ensures value { IfOk result (λ value. IsJson bytes.now (view value)) }
    ensures fault { IfErr result (λ fault. NoValue bytes.now fault) }
{
    match Value::from_slice(alloc, bytes) {
        Ok(value) => Ok(value),
        Err(error) if error.is_memory() => Err(FormFault::NoMemory),
        Err(_) => Err(FormFault::NotJson),
    }
}
