//! Assumptions at the terms that a goal has where they have their parameters.
ghost use Rattle.std.specs.Prelude.{◌≡◌, ◌<◌, ◌≤◌, ◌++◌, ◌∷◌, [], ℕ, Bool, IfOk, OnOk};
ghost use Rattle.std.specs.Prelude.{length, map, take};
ghost use Rattle.std.specs.List.{AllByRecursion};
ghost use Rattle.cocoon_resolve.specs.Readers.{all_assumptions};
ghost use Rattle.cocoon_syntax.specs.TreeOf.{design_of};
ghost use Rattle.cocoon_types.specs.Design.{last_level};
ghost use Rattle.bv_terms.specs.Arenas.{term_at};
ghost use Rattle.expr_terms.specs.Scopes.{Takes};
ghost use Rattle.expr_terms.specs.Sizes.{AreSizes};
ghost use Rattle.expr_terms.specs.Variables.{AreThere, Keeps, MakesAll, terms_at};
ghost use Rattle.fun_instances.specs.AssumptionTerms as term;
ghost use Rattle.fun_instances.specs.Taking.{OfAssumption};
ghost use Rattle.query_laws.specs.Over.{IsOver};
ghost use Rattle.query_laws.specs.Tuples as spec;
ghost use Rattle.query_laws.specs.Tuples.{most_instances, pattern_terms};
ghost use Rattle.pattern_instances.specs.Found.{tuple_ids};
ghost use Rattle.pattern_instances.specs.Goals.{AreTuples, IsGoal};

use crate::patterns::patterns;
use crate::tuples::{MOST_INSTANCES, first_tuples};
use bv_terms::laws::{equal_terms_are_the_same, equal_terms_have_one_number};
use bv_terms::{TermId, Terms, applications};
use cocoon_num::NoMemory;
use cocoon_resolve::Checked;
use expr_terms::CallSizes;
use fun_instances::assumption_term;
use query_laws::instance_laws::{earlier_levels_come_first, tuples_fit};
use sound_types::laws::code_literals_fit;
use std::alloc::Global;

/// A goal, and its applications in the walk's order.
#[derive(Drop)]
pub(crate) struct Goal {
    pub(crate) term: TermId,
    pub(crate) applications: Vec<TermId>,
}

/// The one tuple of an assumption without parameters.
fn no_terms(alloc: Global) -> Result<Vec<Vec<TermId>>, NoMemory>
    ensures { IfOk result (λ tuples. tuple_ids tuples.items ≡ [] ∷ []) }
{
    let mut tuples = Vec::new(alloc);
    tuples.push(Vec::new(alloc))?;
    Ok(tuples)
}

/// The tuples of an assumption: the first 4,096 of them.
fn tuples_of(
    alloc: Global,
    checked: &Checked,
    sizes: &CallSizes,
    assumption: u32,
    terms: &Terms,
    goal: &Goal,
) -> Result<Vec<Vec<TermId>>, NoMemory>
    requires sizes { AreSizes (design_of checked.now) sizes.now }
    requires number { assumption < length (all_assumptions (design_of checked.now)) }
    requires goal { IsGoal (design_of checked.now) terms.now goal.now }
    ensures { OfAssumption (design_of checked.now) assumption (λ a. IfOk result (λ tuples.
        AreTuples (design_of checked.now) a terms.now goal.now.term tuples.items)) }
{
    code_literals_fit();
    tuples_fit();
    equal_terms_have_one_number();
    equal_terms_are_the_same();
    prove!(goal.term < terms.count());
    let _design = checked.design();
    if checked.assumption(assumption).params.is_empty() {
        return no_terms(alloc);
    }
    let patterns = patterns(alloc, checked, sizes, assumption)?;
    first_tuples(alloc, terms, &goal.applications, &patterns)
}

/// What an assumption says at tuples, behind what was made before: as many terms as are allowed.
fn add_instances(
    alloc: Global,
    checked: &Checked,
    sizes: &CallSizes,
    assumption: u32,
    tuples: &[Vec<TermId>],
    terms: &mut Terms,
    made: &mut Vec<TermId>,
) -> Result<(), NoMemory>
    requires sizes { AreSizes (design_of checked.now) sizes.now }
    requires number { assumption < length (all_assumptions (design_of checked.now)) }
    requires takes { OfAssumption (design_of checked.now) assumption (λ a.
        AllByRecursion (Takes terms.old a.params) (tuple_ids tuples.now)) }
    requires there { AreThere terms.old made.old.items }
    requires few { length made.old.items ≤ most_instances }
    ensures made { OfAssumption (design_of checked.now) assumption (λ a.
        OnOk result (MakesAll terms.new made.new.items
        (take most_instances (terms_at terms.old made.old.items
        ++ map (term.assumption_term (design_of checked.now) a)
        (map (terms_at terms.old) (tuple_ids tuples.now)))))) }
    ensures kept { Keeps terms.old terms.new }
{
    let _design = checked.design();
    let mut at = 0;
    while at < tuples.len() && made.len() < MOST_INSTANCES {
        let tuple = &tuples[at];
        made.push(assumption_term(alloc, checked, sizes, assumption, tuple, terms)?)?;
        at += 1;
    }
    Ok(())
}

/// The instances of the assumptions of levels 0 to `level` for a goal: what each says of the terms
/// that the goal applies a function to where the assumption applies it to its parameters. No input
/// is made. There are at most 4,096, the first ones. The patterns of each assumption are found
/// anew, in time and memory as its term takes; where that has more than 2^25 nodes, the answer is
/// out of memory. For the rest the time grows with the goal and with what its applications give, by
/// n log n for n tuples.
pub fn pattern_instances(
    alloc: Global,
    checked: &Checked,
    sizes: &CallSizes,
    level: u32,
    goal: TermId,
    terms: &mut Terms,
) -> Result<Vec<TermId>, NoMemory>
    requires sizes { AreSizes (design_of checked.now) sizes.now }
    requires level { level ≤ last_level (design_of checked.now) }
    requires goal { goal < length terms.old }
    requires over { (inputs : ℕ → ℕ → Bool)
        × IsOver (design_of checked.now) inputs (term_at terms.old goal) }
    ensures terms { IfOk result (λ ids. MakesAll terms.new ids.items
        (pattern_terms (design_of checked.now) level (term_at terms.old goal))) }
    ensures kept { Keeps terms.old terms.new }
{
    earlier_levels_come_first();
    let _design = checked.design();
    let goal = Goal {
        term: goal,
        applications: applications(alloc, terms, goal)?,
    };
    let mut made = Vec::new(alloc);
    for assumption in 0..checked.assume_count(level) {
        let tuples = tuples_of(alloc, checked, sizes, assumption, terms, &goal)?;
        add_instances(alloc, checked, sizes, assumption, &tuples, terms, &mut made)?;
    }
    Ok(made)
}
