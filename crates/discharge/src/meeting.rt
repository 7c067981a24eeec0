//! Whether definitions meet the assumptions of a design.
ghost use Rattle.std.specs.Prelude.{◌≡◌, ◌^◌, ◌<◌, ◌≤◌, IfOk, length};
ghost use Rattle.cocoon_resolve.specs.Readers.{all_assumptions};
ghost use Rattle.cocoon_syntax.specs.TreeOf.{design_of};
ghost use Rattle.cocoon_types.specs.Design.{last_level};
ghost use Rattle.expr_terms.specs.Sizes.{AreSizes};
ghost use Rattle.fun_instances.specs.Taking.{OfAssumption};
ghost use Rattle.runtime_defs.specs.Fitting.{FitsDesign};
ghost use Rattle.discharge.specs.Answering.{Answers, AnswersTo};
ghost use Rattle.discharge.specs.Asked.{Says};

use crate::asking::{Query, assumption_query, search};
use cnf_core::Log;
use cocoon_num::{List, NoMemory};
use cocoon_resolve::Checked;
use expr_terms::CallSizes;
use query_laws::instance_laws::earlier_levels_come_first;
use runtime_defs::Defs;
use std::alloc::Global;

/// How long to search for an answer.
#[derive(Clone, Copy, Debug, Drop)]
pub struct Budget {
    /// Conflicts of one search.
    pub conflicts: u64,
    /// Rounds of one obligation.
    pub rounds: u32,
}

/// Whether assumptions are met; the first of them that is not shown to be. Assumptions have numbers in the order of the text,
/// from 0.
#[derive(Drop)]
pub enum Met {
    /// All are.
    Yes,
    /// This one is false at these values, one for each of its parameters.
    Broken(u32, List<u64>),
    /// The conflicts are spent on this one: how many variables its query has, and the clauses that were learned.
    SpentConflicts(u32, u32, Log),
    /// The query of this one has so many clauses, more than 4,000,000.
    Big(u32, u64),
}

/// Whether the definitions meet the assumptions of all levels, which are asked in the order of the text: each by a search
/// over an arena of its own. A query is counted before its clauses are made.
pub fn meets(
    alloc: Global,
    checked: &Checked,
    defs: &Defs,
    budget: &Budget,
) -> Result<Met, NoMemory>
    requires of { FitsDesign (design_of checked.now) defs.now }
    requires some { 1 ≤ budget.now.conflicts }
    requires few { budget.now.conflicts < 2 ^ 31 }
    ensures { IfOk result (λ met.
        Answers (design_of checked.now) defs.now budget.now.conflicts met) }
{
    meets_to(alloc, checked, defs, checked.levels() - 1, budget)
}

/// Whether they meet the assumptions of levels 0 to this one, and those alone.
pub fn meets_to(
    alloc: Global,
    checked: &Checked,
    defs: &Defs,
    level: u32,
    budget: &Budget,
) -> Result<Met, NoMemory>
    requires of { FitsDesign (design_of checked.now) defs.now }
    requires level { level ≤ last_level (design_of checked.now) }
    requires some { 1 ≤ budget.now.conflicts }
    requires few { budget.now.conflicts < 2 ^ 31 }
    ensures { IfOk result (λ met.
        AnswersTo (design_of checked.now) level defs.now budget.now.conflicts met) }
{
    earlier_levels_come_first();
    let sizes = CallSizes::new(alloc, checked)?;
    for number in 0..checked.assume_count(level) {
        match met_one(alloc, checked, &sizes, defs, number, budget.conflicts)? {
            Met::Yes => {}
            met => return Ok(met),
        }
    }
    Ok(Met::Yes)
}

/// Whether the definitions meet the assumption of this number.
fn met_one(
    alloc: Global,
    checked: &Checked,
    sizes: &CallSizes,
    defs: &Defs,
    number: u32,
    conflicts: u64,
) -> Result<Met, NoMemory>
    requires of { FitsDesign (design_of checked.now) defs.now }
    requires sizes { AreSizes (design_of checked.now) sizes.now }
    requires number { number < length (all_assumptions (design_of checked.now)) }
    requires few { conflicts < 2 ^ 31 }
    ensures { OfAssumption (design_of checked.now) number (λ a. IfOk result (λ met.
        Says (design_of checked.now) defs.now conflicts number a met)) }
{
    let query = assumption_query(alloc, checked, sizes, defs, number)?;
    search(alloc, checked, defs, &query, number, conflicts)
}
