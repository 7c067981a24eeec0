//! The values of calls that were evaluated, so that none is evaluated twice.
ghost use Rattle.std.specs.Prelude.{◌≡◌, ◌∷◌, IfOk, List, OnOk, Option as Maybe};
ghost use Rattle.cocoon_num.specs.Tree.{Design};
ghost use Rattle.cocoon_num.specs.declared.fun_table.FunTable.{FunTable};
ghost use Rattle.role_values.specs.Kept.{AreValues, IsValueOf, kept_at};

use crate::value::Value;
use cocoon_num::NoMemory;
use declarations::FunId;
use std::alloc::Global;
use std::collections::BTreeMap;

/// The most values that are kept. One more is out of memory.
const MOST_KEPT: usize = 1 << 21;

/// Calls of functions with bodies, each with its value.
#[derive(Drop)]
pub(crate) struct KeptCalls {
    values: BTreeMap<Vec<u128>, Option<Value>>,
}

/// What a call is kept under: the number of the function, and then the arguments.
pub(crate) fn call_key(alloc: Global, function: FunId, args: &[u128]) -> Result<Vec<u128>, NoMemory>
    ensures { IfOk result (λ key. key.items ≡ function ∷ args.now) }
{
    let mut key = Vec::new(alloc);
    key.push(u128::from(function))?;
    key.extend_from_slice(args)?;
    Ok(key)
}

impl KeptCalls {
    /// No calls.
    pub(crate) fn new(alloc: Global) -> KeptCalls
        ensures { (d : Design) (tables : List (Maybe FunTable)) → AreValues d tables result }
    {
        KeptCalls {
            values: BTreeMap::new(alloc),
        }
    }

    /// The value of a call, if it is kept.
    pub(crate) fn get(&self, key: &[u128]) -> Option<Option<Value>>
        ensures { result ≡ kept_at self.now key.now }
    {
        self.values.get(key).copied()
    }

    /// Keeps the value of a call.
    pub(crate) fn keep(&mut self, key: Vec<u128>, value: Option<Value>) -> Result<(), NoMemory>
        ensures { (design : Design) (tables : List (Maybe FunTable))
            → AreValues design tables self.old → IsValueOf design tables key.items value
            → OnOk result (AreValues design tables self.new) }
    {
        if self.values.len() >= MOST_KEPT {
            return Err(NoMemory);
        }
        self.values.insert(key, value)?;
        Ok(())
    }
}
