//! The query of a formula.
ghost use Rattle.std.specs.Prelude.{◌≤◌, ◌<◌, IfOk, length};
ghost use Rattle.cocoon_syntax.specs.TreeOf.{design_of};
ghost use Rattle.cocoon_types.specs.Design.{last_level};
ghost use Rattle.bv_terms.specs.Arenas.{term_at};
ghost use Rattle.query_laws.specs.LeafTerms.{Stands};
ghost use Rattle.query_laws.specs.Certified.{AllFit};
ghost use Rattle.queries.specs.Asked.{IsQuery};

use crate::joining::{all_true, put_instances};
use bv_terms::{InputId, TermId, Terms, copy};
use cnf_core::Instance;
use cocoon_num::{List, NoMemory};
use cocoon_resolve::Checked;
use expr_terms::CallSizes;
use flat_goals::{Applied, flatten};
use pattern_instances::pattern_instances;
use query_laws::laws::{added_terms_fit, own_names_are_by_place, queries_are_goals};
use sound_types::laws::code_literals_fit;
use std::alloc::Global;

/// A goal in an arena of its own.
#[derive(Drop)]
pub struct OwnGoal {
    pub terms: Terms,
    pub goal: TermId,
    /// The inputs of the formula, in ascending order. Here they are the first ones, in this order.
    pub inputs: List<InputId>,
    /// The applications of what is asked, in the order of the walk. Each became an input.
    pub applied: List<Applied>,
}

/// The query of a formula of this level with these instances. The time is in proportion to what is
/// asked, not to the arena that holds the formula.
pub fn query(
    alloc: Global,
    checked: &Checked,
    terms: &Terms,
    level: u32,
    formula: TermId,
    instances: &[Instance],
) -> Result<OwnGoal, NoMemory>
    requires level { level ≤ last_level (design_of checked.now) }
    requires there { formula < length terms.now }
    requires stands { Stands (design_of checked.now) 1 (term_at terms.now formula) }
    requires fit { AllFit (design_of checked.now) level instances.now }
    ensures { IfOk result (λ own. IsQuery (design_of checked.now) level
        (term_at terms.now formula) instances.now own) }
{
    own_names_are_by_place();
    added_terms_fit();
    queries_are_goals();
    code_literals_fit();
    let _design = checked.design();
    let mut own = Terms::new(alloc);
    let copied = copy(alloc, terms, formula, &mut own)?;
    let first = copied.term;
    let sizes = CallSizes::new(alloc, checked)?;
    let mut others = pattern_instances(alloc, checked, &sizes, level, first, &mut own)?;
    put_instances(alloc, checked, instances, &mut own, &mut others)?;
    let asked = all_true(&mut own, first, &others)?;
    prove!(asked < own.count());
    let flat = flatten(alloc, asked, &mut own)?;
    Ok(OwnGoal {
        terms: own,
        goal: flat.goal,
        inputs: copied.inputs,
        applied: flat.applied,
    })
}
