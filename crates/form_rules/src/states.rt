//! Lists of states, each of which stands for all paths that hold the same.
ghost use Rattle.std.specs.Prelude.{◌≡◌, IfOk, OnOk, map};
ghost use Rattle.std.specs.List.{list_any};
ghost use Rattle.form_rules.specs.Steps as steps;
ghost use Rattle.form_rules.specs.Steps.{Leaves, Moves, SameStates, holding_of, some_holds};

use crate::state::{Held, State, any_alone, any_within, leave, move_on};
use crate::steps::{Move, Value};
use cocoon_num::NoMemory;
use std::alloc::Global;

/// Lets each go on.
pub(crate) fn move_all(
    alloc: Global,
    choice: u32,
    step: &Move,
    mut states: Vec<State>,
) -> Result<Vec<State>, NoMemory>
    ensures { IfOk result (λ found. Moves choice step.now states.items found.items) }
{
    let mut found = Vec::new(alloc);
    while let Some(mut state) = states.pop() {
        move_on(&mut state, choice, step)?;
        found.push(state)?;
    }
    if may_meet(step) {
        keep_each_once(&mut found);
    }
    Ok(found)
}

/// Whether states that differ may be the same after it.
fn may_meet(step: &Move) -> bool {
    match step {
        Move::Bind(_) => false,
        Move::ChooseVar(_) => false,
        _ => true,
    }
}

/// Adds states with their first variables alone.
pub(crate) fn leave_all(
    found: &mut Vec<State>,
    count: usize,
    mut states: Vec<State>,
) -> Result<(), NoMemory>
    ensures { OnOk result (Leaves count found.old.items states.items found.new.items) }
{
    while let Some(mut state) = states.pop() {
        leave(&mut state, count);
        found.push(state)?;
    }
    Ok(())
}

/// Puts states in order, each once.
pub(crate) fn keep_each_once(states: &mut Vec<State>)
    ensures { SameStates states.old.items states.new.items }
{
    states.sort_unstable();
    states.dedup();
}

/// The same states, in memory of their own.
pub(crate) fn copy_states(alloc: Global, states: &[State]) -> Result<Vec<State>, NoMemory>
    ensures { IfOk result (λ copies. map holding_of copies.items ≡ map holding_of states.now) }
{
    let mut copies = Vec::new(alloc);
    for state in states {
        copies.push(copy_state(alloc, state)?)?;
    }
    Ok(copies)
}

fn copy_state(alloc: Global, state: &State) -> Result<State, NoMemory>
    ensures { IfOk result (λ copy. holding_of copy ≡ holding_of state.now) }
{
    Ok(State {
        made: state.made,
        met: state.met,
        fields: state.fields.to_vec(alloc)?,
        vars: state.vars.to_vec(alloc)?,
    })
}

// ---- paths that send

/// Whether a path in one of the states hides the choice where it sends these values.
pub(crate) fn any_hides(choice: u32, states: &[State], sent: &Value) -> bool
    ensures { result ≡ some_holds (steps.hides_in choice sent.now) states.now }
{
    for state in states {
        if hides(choice, state, sent) {
            return true;
        }
    }
    false
}

fn hides(choice: u32, state: &State, sent: &Value) -> bool
    ensures { result ≡ steps.hides_in choice sent.now (holding_of state.now) }
{
    state.made && occurs(choice, state, sent) && !stands(choice, state, sent)
}

/// Whether the choice occurs in a condition or in what is sent.
fn occurs(choice: u32, state: &State, sent: &Value) -> bool
    ensures { result ≡ steps.occurs_in choice sent.now (holding_of state.now) }
{
    state.met || (any_within(state, choice, &sent.within) || has_within(&state.fields))
}

/// Whether it stands alone in what is sent.
fn stands(choice: u32, state: &State, sent: &Value) -> bool
    ensures { result ≡ steps.stands_in choice sent.now (holding_of state.now) }
{
    any_alone(state, choice, &sent.whole) || has_alone(&state.fields)
}

fn has_within(held: &[Held]) -> bool
    ensures { result ≡ list_any (λ h. h.within) held.now }
{
    held.iter().any(|held| held.within)
}

fn has_alone(held: &[Held]) -> bool
    ensures { result ≡ list_any (λ h. h.alone) held.now }
{
    held.iter().any(|held| held.alone)
}
