//! Definitions by an assignment.
ghost use Rattle.std.specs.Prelude.{IfOk};
ghost use Rattle.cocoon_syntax.specs.TreeOf.{design_of};
ghost use Rattle.runtime_defs.specs.Fitting.{FitsDesign};
ghost use Rattle.candidates.specs.Flat.{IsCandidateOf, IsFlatGoal, MakesFormulaTrue};

use crate::applying::lookups;
use crate::assigned::environment;
use bit_blast::InputMap;
use bv_terms::Terms;
use cnf_core::Assignment;
use cocoon_num::NoMemory;
use cocoon_resolve::Checked;
use flat_goals::Applied;
use query_laws::search_laws::true_queries_have_candidates;
use runtime_defs::{Defaults, Defs, tables_of};
use sound_types::laws::code_literals_fit;
use std::alloc::Global;

/// The definitions that an assignment gives of a flat goal: at the arguments of each application
/// the value of its input, else these defaults, where they are free. If the goal is a query that is
/// true at the values of the inputs, they are a candidate, and its formula is true under them.
pub fn candidate(
    alloc: Global,
    checked: &Checked,
    terms: &Terms,
    applied: &[Applied],
    inputs: &InputMap,
    assignment: &Assignment,
    defaults: Defaults,
) -> Result<Defs, NoMemory>
    requires { IsFlatGoal (design_of checked.now) terms.now applied.now inputs.now }
    ensures fits { IfOk result (λ defs. FitsDesign (design_of checked.now) defs) }
    ensures candidate { IfOk result (λ defs. IsCandidateOf (design_of checked.now)
        terms.now applied.now inputs.now assignment.now defs) }
    ensures formula { IfOk result (λ defs. MakesFormulaTrue (design_of checked.now)
        terms.now applied.now inputs.now assignment.now defs) }
{
    code_literals_fit();
    true_queries_have_candidates();
    let _design = checked.design();
    let _count = terms.count();
    let env = environment(alloc, terms, inputs, assignment)?;
    let looked = lookups(alloc, terms, &env, applied)?;
    let tables = tables_of(alloc, checked, &looked, defaults)?;
    let defs = Defs::from_tables(alloc, checked, tables)?;
    Ok(defs)
}
