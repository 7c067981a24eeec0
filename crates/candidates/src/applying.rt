//! What functions give at the arguments of applications.
ghost use Rattle.std.specs.Prelude.{◌≡◌, ◌≤◌, All, IfOk};
ghost use Rattle.std.specs.List.{AllZip};
ghost use Rattle.candidates.specs.Applying.{CanEvaluate, CanLook, IsArgument, IsLookup};

use bv_terms::{Env, TermId, Terms};
use cocoon_num::{Bits, List, NoMemory};
use flat_goals::Applied;
use runtime_defs::Lookup;
use std::alloc::Global;

/// A number of at most 64 bits.
#[tactic(auto, using(runtime_defs::proofs::Masks::narrow_value))]
fn number(bits: Bits) -> u64
    requires { bits.width ≤ 64 }
    ensures { result ≡ bits.value }
{
    bits.value as u64
}

/// The value of an argument.
fn argument(alloc: Global, terms: &Terms, env: &Env, id: TermId) -> Result<u64, NoMemory>
    requires { CanEvaluate terms.now env.now id }
    ensures { IfOk result (IsArgument terms.now env.now id) }
{
    let value = terms.eval(alloc, id, env)?;
    Ok(number(value))
}

/// Those of arguments, in order.
fn arguments(alloc: Global, terms: &Terms, env: &Env, ids: &[TermId]) -> Result<Vec<u64>, NoMemory>
    requires { All (CanEvaluate terms.now env.now) ids.now }
    ensures { IfOk result (λ values. AllZip (IsArgument terms.now env.now) ids.now values.items) }
{
    let mut values = Vec::new(alloc);
    for id in ids {
        values.push(argument(alloc, terms, env, *id)?)?;
    }
    Ok(values)
}

/// What the function of an application gives.
fn lookup(alloc: Global, terms: &Terms, env: &Env, applied: &Applied) -> Result<Lookup, NoMemory>
    requires { CanLook terms.now env.now applied.now }
    ensures { IfOk result (IsLookup terms.now env.now applied.now) }
{
    let args = arguments(alloc, terms, env, applied.args.items())?;
    Ok(Lookup {
        function: applied.function,
        args: List::from(args),
        result: env.inputs.items()[applied.result as usize],
    })
}

/// Those of applications, in order.
pub(crate) fn lookups(
    alloc: Global,
    terms: &Terms,
    env: &Env,
    applied: &[Applied],
) -> Result<Vec<Lookup>, NoMemory>
    requires { All (CanLook terms.now env.now) applied.now }
    ensures { IfOk result (λ lookups.
        AllZip (IsLookup terms.now env.now) applied.now lookups.items) }
{
    let mut lookups = Vec::new(alloc);
    for one in applied {
        lookups.push(lookup(alloc, terms, env, one)?)?;
    }
    Ok(lookups)
}
