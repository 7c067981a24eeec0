//! What the values of a path hold of the choice that is followed.
ghost use Rattle.std.specs.Prelude.{◌≡◌, IfOk, OnOk, get_or, map, set};
ghost use Rattle.form_rules.specs.Following as spec;
ghost use Rattle.form_rules.specs.Steps as steps;
ghost use Rattle.form_rules.specs.Steps.{any_alone, any_within, first_held, holding_of, moved_by, place_held, value_held};

use crate::scope::FieldName;
use crate::steps::{Move, Place, Value};
use cocoon_num::NoMemory;
use std::alloc::Global;

/// Whether the choice occurs in a value, and whether it is the value.
#[derive(Clone, Copy, Drop, PartialEq, Eq, PartialOrd, Ord)]
pub(crate) struct Held {
    pub(crate) within: bool,
    pub(crate) alone: bool,
}

/// A value in which the choice does not occur.
pub(crate) const NOTHING: Held = Held {
    within: false,
    alone: false,
};

/// Whether a path has made the choice, whether one of its conditions has it, and what the fields
/// and the variables hold of it, the latest variable last.
#[derive(Drop, PartialEq, Eq, PartialOrd, Ord)]
pub(crate) struct State {
    pub(crate) made: bool,
    pub(crate) met: bool,
    pub(crate) fields: Vec<Held>,
    pub(crate) vars: Vec<Held>,
}

/// What is at an index.
fn held_at(held: &[Held], index: usize) -> Held
    ensures { result ≡ get_or held.now index spec.nothing }
{
    match held.get(index) {
        Some(held) => *held,
        None => NOTHING,
    }
}

/// Where a body begins, in a packet with these fields.
pub(crate) fn first_state(alloc: Global, fields: &[FieldName]) -> Result<State, NoMemory>
    ensures { IfOk result (λ state. holding_of state ≡ spec.at_start fields.now) }
{
    Ok(State {
        made: false,
        met: false,
        fields: nothing_each(alloc, fields)?,
        vars: Vec::new(alloc),
    })
}

fn nothing_each(alloc: Global, names: &[FieldName]) -> Result<Vec<Held>, NoMemory>
    ensures { IfOk result (λ held. held.items ≡ map (λ name. spec.nothing) names.now) }
{
    let mut held = Vec::new(alloc);
    for _name in names {
        held.push(NOTHING)?;
    }
    Ok(held)
}

// ---- values

/// The choice that a statement at this token index makes.
fn made_by(choice: u32, at: u32) -> Held
    ensures { result ≡ steps.made_by choice at }
{
    let same = choice == at;
    Held {
        within: same,
        alone: same,
    }
}

fn place_held(state: &State, choice: u32, place: Place) -> Held
    ensures { result ≡ place_held choice (holding_of state.now) place }
{
    match place {
        Place::Field(index) => held_at(&state.fields, index),
        Place::Var(index) => held_at(&state.vars, index),
        Place::Token(at) => made_by(choice, at),
    }
}

/// Whether the choice is within one of some places.
pub(crate) fn any_within(state: &State, choice: u32, places: &[Place]) -> bool
    ensures { result ≡ any_within choice (holding_of state.now) places.now }
{
    for place in places {
        if place_held(state, choice, *place).within {
            return true;
        }
    }
    false
}

/// Whether it is alone in one of them.
pub(crate) fn any_alone(state: &State, choice: u32, places: &[Place]) -> bool
    ensures { result ≡ any_alone choice (holding_of state.now) places.now }
{
    for place in places {
        if place_held(state, choice, *place).alone {
            return true;
        }
    }
    false
}

fn value_held(state: &State, choice: u32, value: &Value) -> Held
    ensures { result ≡ value_held choice (holding_of state.now) value.now }
{
    Held {
        within: any_within(state, choice, &value.within),
        alone: any_alone(state, choice, &value.whole),
    }
}

// ---- moves

/// Lets a path go on.
pub(crate) fn move_on(state: &mut State, choice: u32, step: &Move) -> Result<(), NoMemory>
    ensures { OnOk result
        (holding_of state.new ≡ moved_by choice step.now (holding_of state.old)) }
{
    match step {
        Move::Bind(value) => {
            let held = value_held(state, choice, value);
            state.vars.push(held)?;
        }
        Move::Set(index, value) => {
            let held = value_held(state, choice, value);
            set_field(state, *index, held);
        }
        Move::Meet(value) => meet(state, choice, value),
        Move::ChooseVar(at) => {
            choose(state, choice, *at);
            state.vars.push(made_by(choice, *at))?;
        }
        Move::ChooseField(index, at) => {
            choose(state, choice, *at);
            set_field(state, *index, made_by(choice, *at));
        }
    }
    Ok(())
}

fn meet(state: &mut State, choice: u32, value: &Value)
    ensures { holding_of state.new ≡ steps.meets choice value.now (holding_of state.old) }
{
    if any_within(state, choice, &value.within) {
        state.met = true;
    }
}

fn choose(state: &mut State, choice: u32, at: u32)
    ensures { holding_of state.new ≡ steps.chosen choice at (holding_of state.old) }
{
    if choice == at {
        state.made = true;
    }
}

fn set_field(state: &mut State, index: Option<usize>, value: Held)
    ensures { holding_of state.new ≡ steps.with_field_at index value (holding_of state.old) }
{
    if let Some(index) = index {
        set(&mut state.fields, index, value);
    }
}

fn set(held: &mut Vec<Held>, index: usize, value: Held)
    ensures { held.new.items ≡ set held.old.items index value }
{
    if index < held.len() {
        held[index] = value;
    }
}

/// Ends all but the first variables.
pub(crate) fn leave(state: &mut State, count: usize)
    ensures { holding_of state.new ≡ first_held count (holding_of state.old) }
{
    state.vars.truncate(count);
}
