//! The paths through steps, as far as they differ in what they hold of a choice.
ghost use Rattle.std.specs.Prelude.{◌≡◌, Bool, IfOk};
ghost use Rattle.form_rules.specs.Following.{Holding};
ghost use Rattle.form_rules.specs.Steps.{Joins, ReachesAfter, ReachesBy, reaches};

use crate::state::State;
use crate::states::{any_hides, copy_states, keep_each_once, leave_all, move_all};
use crate::steps::Step;
use cocoon_num::NoMemory;
use std::alloc::Global;

/// How many states a choice may have after a statement.
const MOST_STATES: usize = 1 << 20;

/// The states that go on, and whether a path that sent hides the choice.
#[derive(Drop)]
pub(crate) struct Reached {
    pub(crate) states: Vec<State>,
    pub(crate) hides: bool,
}

/// Follows states through steps. More than 2^20 states after an `if` are out of memory.
#[cycle(run)]
pub(crate) fn run_steps(
    alloc: Global,
    choice: u32,
    steps: &[Step],
    states: Vec<State>,
) -> Result<Reached, NoMemory>
    ensures { IfOk result (λ r. ReachesBy choice steps.now states.items r) }
{
    let mut reached = Reached {
        states,
        hides: false,
    };
    for step in steps {
        let next = run_step(alloc, choice, step, reached.states)?;
        reached = Reached {
            states: next.states,
            hides: reached.hides || next.hides,
        };
    }
    Ok(reached)
}

#[cycle(run)]
fn run_step(
    alloc: Global,
    choice: u32,
    step: &Step,
    states: Vec<State>,
) -> Result<Reached, NoMemory>
    ensures { IfOk result (λ r. ReachesAfter choice step.now states.items r) }
{
    match step {
        Step::Move(step) => Ok(Reached {
            states: move_all(alloc, choice, step, states)?,
            hides: false,
        }),
        Step::Branch(count, first, second) => {
            let copies = copy_states(alloc, &states)?;
            let first = run_steps(alloc, choice, first, states)?;
            let second = run_steps(alloc, choice, second, copies)?;
            join(alloc, *count, first, second)
        }
        Step::Fork(body) => {
            let reached = run_steps(alloc, choice, body, states)?;
            Ok(none_go_on(alloc, reached.hides))
        }
        Step::Send(sent) => Ok(none_go_on(alloc, any_hides(choice, &states, sent))),
    }
}

/// What two blocks of an `if` reached.
fn join(alloc: Global, count: usize, first: Reached, second: Reached) -> Result<Reached, NoMemory>
    ensures { IfOk result (λ r. Joins count first second r) }
{
    let mut states = Vec::new(alloc);
    leave_all(&mut states, count, first.states)?;
    leave_all(&mut states, count, second.states)?;
    keep_each_once(&mut states);
    if states.len() > MOST_STATES {
        return Err(NoMemory);
    }
    Ok(Reached {
        states,
        hides: first.hides || second.hides,
    })
}

fn none_go_on(alloc: Global, hides: bool) -> Reached
    ensures { (t : Holding → Bool) → reaches t result ≡ hides }
{
    Reached {
        states: Vec::new(alloc),
        hides,
    }
}
