//! Logs and instances that JSON values stand for.
ghost use Rattle.std.specs.Prelude.{◌≡◌, ◌≢◌, ℤ, pos, List as Items, Some, option_map};
ghost use Rattle.json_forms.specs.Forms.{fitting};
ghost use Rattle.cnf_core.specs.Certificates as tree;
ghost use Rattle.cnf_core.specs.CertsOf.{instance_of, log_of, step_of};
ghost use Rattle.cert_text.specs.LogsForm as spec;

use crate::kind::LogJson;
use cnf_core::{Clause, Instance, Lit, Literals, Log, Step};
use cocoon_num::{List, NoMemory};
use json_forms::{FromJson, has_items, item};
use serde_json::Value;
use std::alloc::Global;

/// The literal of this number, if it is one.
fn literal(number: i64) -> Option<Lit>
    ensures { option_map (λ l. l.number) result
        ≡ fitting spec.is_literal (Some number) }
{
    if number == 0 || number <= -2_147_483_648 || number >= 2_147_483_648 {
        return None;
    }
    Some(Lit {
        number: number as i32,
    })
}

impl FromJson<LogJson> for Lit {
    ghost Meaning = { ℤ };

    ghost meaning = { λ l. l.number };

    ghost form = { spec.literal_form };

    /// `LIT`
    fn from_json(alloc: Global, value: &Value) -> Result<Option<Lit>, NoMemory> {
        match <i64 as FromJson<LogJson>>::from_json(alloc, value)? {
            Some(number) => Ok(literal(number)),
            None => Ok(None),
        }
    }
}

impl FromJson<LogJson> for Step {
    ghost Meaning = { tree.Step };

    ghost meaning = { step_of };

    ghost form = { spec.step_form };

    /// `[[LIT],[HINT]]`
    fn from_json(alloc: Global, value: &Value) -> Result<Option<Step>, NoMemory> {
        if !has_items(value, 2) {
            return Ok(None);
        }
        let lits = item::<LogJson, Vec<Lit>>(alloc, value, 0)?;
        let hints = item::<LogJson, Vec<u32>>(alloc, value, 1)?;
        match (lits, hints) {
            (Some(lits), Some(hints)) => Ok(Some(Step {
                clause: Clause {
                    lits: Literals::from(lits),
                },
                hints: List::from(hints),
            })),
            _ => Ok(None),
        }
    }
}

impl FromJson<LogJson> for Log {
    ghost Meaning = { Items tree.Step };

    ghost meaning = { log_of };

    ghost form = { spec.log_form };

    /// `[STEP]`
    fn from_json(alloc: Global, value: &Value) -> Result<Option<Log>, NoMemory> {
        match <Vec<Step> as FromJson<LogJson>>::from_json(alloc, value)? {
            Some(steps) => Ok(Some(Log {
                steps: List::from(steps),
            })),
            None => Ok(None),
        }
    }
}

impl FromJson<LogJson> for Instance {
    ghost Meaning = { tree.Instance };

    ghost meaning = { instance_of };

    ghost form = { spec.instance_form };

    /// `[ASSUMPTION,[VALUE]]`
    fn from_json(alloc: Global, value: &Value) -> Result<Option<Instance>, NoMemory> {
        if !has_items(value, 2) {
            return Ok(None);
        }
        let number = item::<LogJson, u32>(alloc, value, 0)?;
        let values = item::<LogJson, Vec<u64>>(alloc, value, 1)?;
        match (number, values) {
            (Some(number), Some(values)) => Ok(Some(Instance {
                number,
                values: List::from(values),
            })),
            _ => Ok(None),
        }
    }
}
