//! Bodies one after another: from a role through new ones, at most so many.
ghost use Rattle.std.specs.Prelude.{◌≡◌, ◌<◌, ◌≤◌, ◌+◌, ◌^◌, [], All, flat_map, IfOk, IfSome, List, map, OnOk};
ghost use Rattle.cocoon_syntax.specs.TreeOf.{design_of};
ghost use Rattle.bv_terms.specs.declared.node.Node.{Node};
ghost use Rattle.bv_terms.specs.Arenas.{KeepsTerms, inputs_in};
ghost use Rattle.expr_terms.specs.Sizes.{AreSizes};
ghost use Rattle.expr_terms.specs.Variables.{AreThere, terms_at};
ghost use Rattle.refinement.specs.Segments.{is_new};
ghost use Rattle.obligation_laws.specs.Following.{each};
ghost use Rattle.obligation_laws.specs.Leaves as laws;
ghost use Rattle.obligation_laws.specs.Leaves.{at_new, end_at, leaf_of, onward};
ghost use Rattle.symbolic_runs.specs.declared.states.Choice.{Choice as Taken};
ghost use Rattle.symbolic_runs.specs.Fitting.{Stands};
ghost use Rattle.symbolic_runs.specs.Reading.{IsThere, place_of, state_of, states_of, world_in};
ghost use Rattle.obligation_gen.specs.Bodies.{IsDeclared, design_in, new_in};
ghost use Rattle.obligation_gen.specs.ShownTrees.{ShowsEnd, ShowsLeaves};

use crate::tree::{End, Leaf};
use bv_terms::{InputId, TermId, Terms};
use cocoon_num::{List, NoMemory};
use cocoon_resolve::Checked;
use std::alloc::Global;
use symbolic_runs::{Choice, Place, State, World, follow_body};

/// What hops go through.
#[derive(Clone, Copy, Drop)]
pub(crate) struct Hops<'d> {
    pub(crate) world: World<'d>,
    /// New roles are those that are not there at this level. None where no role is new.
    pub(crate) above: Option<u32>,
}

/// Whether a role is declared at the level behind a level, and not before.
fn is_new_role(checked: &Checked, above: u32, name: &[u8]) -> bool
    requires { above + 1 < 2 ^ 32 }
    ensures { result ≡ is_new above (design_of checked.now) name.now }
{
    let names = checked.names();
    names.role_at(checked.design(), name, above + 1).is_some()
        && names.role_at(checked.design(), name, above).is_none()
}

impl Hops<'_> {
    /// Whether a role is new.
    fn is_new(&self, name: &[u8]) -> bool
        requires { IfSome self.now.above (λ above. above + 1 < 2 ^ 32) }
        ensures { result ≡ new_in self.now name.now }
    {
        match self.above {
            Some(above) => is_new_role(self.world.checked, above, name),
            None => false,
        }
    }

    /// Whether a way has sent to a new role.
    fn is_at_new(&self, state: &State<'_>) -> bool
        requires { IfSome self.now.above (λ above. above + 1 < 2 ^ 32) }
        ensures { (nodes : List Node)
            → result ≡ at_new (new_in self.now) (state_of nodes state.now) }
    {
        match &state.sent {
            Some(place) => self.is_new(place.role),
            None => false,
        }
    }
}

/// The inputs of choices.
fn inputs_of(alloc: Global, choices: &[Choice]) -> Result<Vec<InputId>, NoMemory>
    ensures { IfOk result (λ inputs. inputs.items
        ≡ map (λ (c : Taken). c.input) choices.now) }
{
    let mut inputs = Vec::new(alloc);
    for choice in choices {
        inputs.push(choice.input)?;
    }
    Ok(inputs)
}

/// Where a leaf leads from a place that a way has sent to.
fn end(hops: &Hops<'_>, place: Place<'_>, fields: Vec<TermId>) -> End
    requires level { IfSome hops.now.above (λ above. above + 1 < 2 ^ 32) }
    requires role { IsDeclared (design_in hops.now) hops.now.world.level place.role.now }
    ensures { (nodes : List Node) → AreThere nodes place.entry.values.items
        → AreThere nodes fields.items → ShowsEnd (design_in hops.now) nodes result
        (end_at (new_in hops.now place.entry.role.now) (place_of nodes place.entry)
        (terms_at nodes fields.items)) }
{
    let checked = hops.world.checked;
    let _names = checked.names();
    let role = checked.role_of(place.role).unwrap();
    let is_new = hops.is_new(place.role);
    let (values, fields) = (List::from(place.values), List::from(fields));
    if is_new {
        End::Inside(role, values, fields)
    } else {
        End::Sent(role, values, fields)
    }
}

/// The leaf of a way, if it has sent.
fn leaf(alloc: Global, hops: &Hops<'_>, state: State<'_>) -> Result<Vec<Leaf>, NoMemory>
    requires level { IfSome hops.now.above (λ above. above + 1 < 2 ^ 32) }
    requires role { IfSome state.sent (λ at.
        IsDeclared (design_in hops.now) hops.now.world.level at.role.now) }
    ensures { IfOk result (λ leaves. (nodes : List Node) → IsThere nodes state.entry
        → ShowsLeaves (design_in hops.now) nodes leaves.items
        (leaf_of (new_in hops.now) (state_of nodes state.entry))) }
{
    let State {
        fields,
        condition,
        choices,
        sent,
        ..
    } = state;
    let mut leaves = Vec::new(alloc);
    let choices = List::from(inputs_of(alloc, &choices)?);
    if let Some(place) = sent {
        leaves.push(Leaf {
            cond: condition,
            choices,
            end: end(hops, place, fields),
        })?;
    }
    Ok(leaves)
}

/// The leaves behind the place that a way has sent to: its body, and the bodies of new roles behind it, at most so many in all.
#[cycle(hops)]
pub(crate) fn hop<'d>(
    alloc: Global,
    hops: &Hops<'d>,
    bodies: u32,
    state: State<'d>,
    terms: &mut Terms,
) -> Result<Vec<Leaf>, NoMemory>
    requires level { IfSome hops.now.above (λ above. above + 1 < 2 ^ 32) }
    requires bodies { 1 ≤ bodies }
    requires sizes { AreSizes (design_in hops.now) hops.now.world.sizes.now }
    requires stands { Stands hops.now.world terms.old [] state }
    ensures leaves { IfOk result (λ leaves. ShowsLeaves (design_in hops.now) terms.new
        leaves.items (flat_map (leaf_of (new_in hops.now)) (laws.hops (world_in hops.now.world)
        (new_in hops.now) bodies (state_of terms.old state.entry) (inputs_in terms.old)).0)) }
    ensures next { OnOk result (inputs_in terms.new ≡ (laws.hops (world_in hops.now.world)
        (new_in hops.now) bodies (state_of terms.old state.entry) (inputs_in terms.old)).1) }
    ensures kept { KeepsTerms terms.old terms.new }
{
    let states = follow_body(alloc, &hops.world, state, terms)?;
    go_on(alloc, hops, bodies - 1, states, terms)
}

/// Those of some ways, one after another.
#[cycle(hops)]
fn go_on<'d>(
    alloc: Global,
    hops: &Hops<'d>,
    bodies: u32,
    states: Vec<State<'d>>,
    terms: &mut Terms,
) -> Result<Vec<Leaf>, NoMemory>
    requires level { IfSome hops.now.above (λ above. above + 1 < 2 ^ 32) }
    requires sizes { AreSizes (design_in hops.now) hops.now.world.sizes.now }
    requires stand { All (Stands hops.now.world terms.old []) states.items }
    ensures leaves { IfOk result (λ leaves. ShowsLeaves (design_in hops.now) terms.new
        leaves.items (flat_map (leaf_of (new_in hops.now)) (each (onward (new_in hops.now)
        (laws.hops (world_in hops.now.world) (new_in hops.now) bodies))
        (states_of terms.old states.entry.items) (inputs_in terms.old)).0)) }
    ensures next { OnOk result (inputs_in terms.new ≡ (each (onward (new_in hops.now)
        (laws.hops (world_in hops.now.world) (new_in hops.now) bodies))
        (states_of terms.old states.entry.items) (inputs_in terms.old)).1) }
    ensures kept { KeepsTerms terms.old terms.new }
{
    let mut leaves = Vec::new(alloc);
    for state in states {
        let mut more = from_way(alloc, hops, bodies, state, terms)?;
        leaves.append(&mut more)?;
    }
    Ok(leaves)
}

/// Those of one way, which goes on at a new role while bodies are left.
#[cycle(hops)]
fn from_way<'d>(
    alloc: Global,
    hops: &Hops<'d>,
    bodies: u32,
    state: State<'d>,
    terms: &mut Terms,
) -> Result<Vec<Leaf>, NoMemory>
    requires level { IfSome hops.now.above (λ above. above + 1 < 2 ^ 32) }
    requires sizes { AreSizes (design_in hops.now) hops.now.world.sizes.now }
    requires stands { Stands hops.now.world terms.old [] state }
    ensures leaves { IfOk result (λ leaves. ShowsLeaves (design_in hops.now) terms.new
        leaves.items (flat_map (leaf_of (new_in hops.now)) (onward (new_in hops.now)
        (laws.hops (world_in hops.now.world) (new_in hops.now) bodies)
        (state_of terms.old state.entry) (inputs_in terms.old)).0)) }
    ensures next { OnOk result (inputs_in terms.new ≡ (onward (new_in hops.now)
        (laws.hops (world_in hops.now.world) (new_in hops.now) bodies)
        (state_of terms.old state.entry) (inputs_in terms.old)).1) }
    ensures kept { KeepsTerms terms.old terms.new }
{
    if bodies > 0 && hops.is_at_new(&state) {
        hop(alloc, hops, bodies, state, terms)
    } else {
        leaf(alloc, hops, state)
    }
}
