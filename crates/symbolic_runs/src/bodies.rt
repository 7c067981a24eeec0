//! Where ways begin, and the bodies of the roles that they send to.
ghost use Rattle.std.specs.Prelude.{◌≡◌, [], All, IfOk, IfSome, List, map, None, OnOk, Some};
ghost use Rattle.std.specs.List.{AllZip};
ghost use Rattle.cocoon_resolve.specs.Readers.{all_widths};
ghost use Rattle.cocoon_syntax.specs.TreeOf.{block_of, design_of, role_of, stmt_of};
ghost use Rattle.bv_terms.specs.declared.node.Node.{Node};
ghost use Rattle.bv_terms.specs.Arenas.{KeepsTerms, inputs_in};
ghost use Rattle.obligation_laws.specs.Shown.{HasWidth};
ghost use Rattle.expr_terms.specs.Sizes.{AreSizes};
ghost use Rattle.expr_terms.specs.Variables.{AreThere, terms_at};
ghost use Rattle.obligation_laws.specs.States as tree;
ghost use Rattle.obligation_laws.specs.Leaves as leaves;
ghost use Rattle.symbolic_runs.specs.Entering.{IsBodyAt, NoBodyAt};
ghost use Rattle.symbolic_runs.specs.Fitting.{CanEnter, Stands};
ghost use Rattle.symbolic_runs.specs.Reading.{Reads, from_place, state_of, states_of, values_at, world_in};

use crate::following::follow_block;
use crate::states::{Place, State, one, those_sent};
use crate::world::World;
use bv_terms::{TermId, Terms};
use cocoon_num::NoMemory;
use cocoon_syntax::{Role, Stmt};
use expr_terms::bind;
use std::alloc::Global;

/// Where a way begins: at a role with these terms of its parameters, if its guard is true, with a packet whose fields have these
/// terms. It counts as sent there.
pub fn begin<'d>(
    alloc: Global,
    world: &World<'_>,
    role: &'d [u8],
    values: Vec<TermId>,
    fields: Vec<TermId>,
    terms: &mut Terms,
) -> Result<State<'d>, NoMemory>
    requires sizes { AreSizes (design_of world.now.checked.now) world.now.sizes.now }
    requires role { CanEnter world.now terms.old role.now values.items }
    requires there { AreThere terms.old fields.items }
    requires widths { AllZip HasWidth (all_widths (design_of world.now.checked.now).headers)
        (terms_at terms.old fields.items) }
    ensures begins { IfOk result (λ state. state_of terms.new state
        ≡ leaves.begins (world_in world.now)
        (record { role = role.now; values = terms_at terms.old values.items })
        (terms_at terms.old fields.items)) }
    ensures stands { IfOk result (λ state. Stands world.now terms.new [] state) }
    ensures kept { KeepsTerms terms.old terms.new }
    ensures inputs { inputs_in terms.new ≡ inputs_in terms.old }
{
    world.know();
    let condition = world.guard(alloc, role, &values, terms)?;
    let variables = Vec::new(alloc);
    let choices = Vec::new(alloc);
    let way = Vec::new(alloc);
    let sent = Some(Place { role, values });
    Ok(State {
        variables,
        fields,
        condition,
        choices,
        way,
        sent,
    })
}

/// The states that have sent, after the body of the role that a state has sent to, in the order of their ways. Nothing comes of a
/// state that has not sent, or where the role has no body. Choices are new inputs, and out of memory is the only error.
pub fn follow_body<'d>(
    alloc: Global,
    world: &World<'d>,
    state: State<'d>,
    terms: &mut Terms,
) -> Result<Vec<State<'d>>, NoMemory>
    requires sizes { AreSizes (design_of world.now.checked.now) world.now.sizes.now }
    requires stands { Stands world.now terms.old [] state }
    ensures states { IfOk result (λ states. states_of terms.new states.items
        ≡ (from_place (world_in world.now) (state_of terms.old state.entry)
        (inputs_in terms.old)).0) }
    ensures next { OnOk result (inputs_in terms.new ≡ (from_place (world_in world.now)
        (state_of terms.old state.entry) (inputs_in terms.old)).1) }
    ensures stand { IfOk result (λ states. All (Stands world.now terms.new []) states.items) }
    ensures kept { KeepsTerms terms.old terms.new }
{
    world.know();
    let Some((role, body)) = body_at(world, &state.sent) else {
        return Ok(Vec::new(alloc));
    };
    let mut state = state;
    enter(alloc, role, &mut state)?;
    let states = one(alloc, state)?;
    let states = follow_block(alloc, world, body, states, terms)?;
    those_sent(alloc, states)
}

/// The role that a way has sent to, and its body, if there is one.
fn body_at<'d>(world: &World<'d>, sent: &Option<Place<'d>>) -> Option<(&'d Role, &'d [Stmt])>
    ensures found { IfSome result (λ r. IsBodyAt world.now sent.now (role_of r.0.now)
        (block_of (map stmt_of r.1.now))) }
    ensures none { result ≡ None → NoBodyAt world.now sent.now }
{
    let Some(place) = sent else {
        return None;
    };
    let checked = world.checked;
    let Some(role) = checked
        .names()
        .role_at(checked.design(), place.role, world.level)
    else {
        return None;
    };
    let Some(body) = &role.body else {
        return None;
    };
    Some((role, body.as_slice()))
}

/// The values of a place.
fn values<'s>(sent: &'s Option<Place<'_>>) -> &'s [TermId]
    ensures { result.now ≡ values_at sent.now }
{
    match sent {
        Some(place) => place.values.as_slice(),
        None => &[],
    }
}

/// The body of a role begins: its parameters are the only variables.
fn enter<'d>(alloc: Global, role: &'d Role, state: &mut State<'d>) -> Result<(), NoMemory>
    ensures { OnOk result ((nodes : List Node) (t : tree.State) (at : tree.Place)
        → Reads nodes state.old t → t.sent ≡ Some at
        → Reads nodes state.new (leaves.entered (role_of role.now) at t)) }
{
    state.variables = bind(alloc, &role.params, values(&state.sent))?;
    state.sent = None;
    Ok(())
}
