//! Ackermann's reduction.
ghost use Rattle.std.specs.Prelude.{◌≡◌, ◌<◌, ◌+◌, IfOk, OnOk, length, map};
ghost use Rattle.bit_blast.specs.Goals.{IsGoal};
ghost use Rattle.bv_terms.specs.Arenas.{KeepsTerms, inputs_in, term_at, width_at};
ghost use Rattle.bv_terms.specs.Walks.{applications};
ghost use Rattle.flat_laws.specs.Flat.{flattened};
ghost use Rattle.flat_laws.specs.Meant.{AppliesAlike, CanFlatten};
ghost use Rattle.flat_goals.specs.Applied.{AreApplied};

use crate::agreeing::with_all_agreements;
use crate::applied::{Application, Applied, Flat};
use crate::reducing::reduce;
use bv_terms::{TermId, Terms};
use cocoon_num::{List, NoMemory};
use flat_laws::laws::flat_goals_are_goals;
use std::alloc::Global;

/// The applications without the terms of their inputs.
fn applied_of(alloc: Global, taken: Vec<Application>) -> Result<Vec<Applied>, NoMemory>
    ensures { IfOk result (λ applied. applied.items ≡ map (λ a. a.applied) taken.items) }
{
    let mut applied = Vec::with_capacity(alloc, taken.len())?;
    for application in taken {
        applied.push(application.applied)?;
    }
    Ok(applied)
}

/// The goal with inputs in the place of its applications, and with a part for each pair of applications of one function, which
/// says that equal arguments have equal results. Any two applications of a function have equal widths. The inputs are new, one
/// for each application in the order of the walk. The time is in proportion to the goal's own terms and to the pairs; a goal of
/// more than 2^25 terms is out of memory.
#[tactic(auto, using(crate::proofs::FlatGoals::can_flatten))]
pub fn flatten(alloc: Global, goal: TermId, terms: &mut Terms) -> Result<Flat, NoMemory>
    requires there { goal < length terms.old }
    requires truth { width_at terms.old goal ≡ 1 }
    requires alike { AppliesAlike (term_at terms.old goal) }
    ensures can { CanFlatten (term_at terms.old goal) (inputs_in terms.old) }
    ensures there { IfOk result (λ flat. flat.goal < length terms.new) }
    ensures term { IfOk result (λ flat. term_at terms.new flat.goal
        ≡ flattened (term_at terms.old goal) (inputs_in terms.old)) }
    ensures goal { IfOk result (λ flat. IsGoal (term_at terms.new flat.goal)) }
    ensures applied { IfOk result (λ flat. AreApplied terms.new
        (term_at terms.old goal) (inputs_in terms.old) flat.applied) }
    ensures inputs { OnOk result (inputs_in terms.new
        ≡ inputs_in terms.old + length (applications (term_at terms.old goal))) }
    ensures kept { KeepsTerms terms.old terms.new }
{
    flat_goals_are_goals();
    prove!(goal < terms.count());
    let reduced = reduce(alloc, goal, terms)?;
    let goal = with_all_agreements(alloc, terms, reduced.goal, &reduced.applications)?;
    let applied = applied_of(alloc, reduced.applications)?;
    Ok(Flat {
        goal,
        applied: List::from(applied),
    })
}
