//! What is known at one point of one way.
ghost use Rattle.std.specs.Prelude.{◌≡◌, ◌+◌, ◌<◌, ◌≤◌, ◌∷◌, [], IfOk, is_some, length, List, map, None, OnOk, Some};
ghost use Rattle.cocoon_resolve.specs.Readers.{all_widths};
ghost use Rattle.cocoon_syntax.specs.TreeOf.{header_of};
ghost use Rattle.bv_terms.specs.declared.node.Node.{Node};
ghost use Rattle.bv_terms.specs.Arenas.{KeepsTerms, inputs_in, width_at};
ghost use Rattle.bv_terms.specs.TermTrees.{IsWidth, Term};
ghost use Rattle.expr_terms.specs.Variables.{Makes, MakesAll};
ghost use Rattle.obligation_laws.specs.States as tree;
ghost use Rattle.obligation_laws.specs.States.{input_term, where_true, with_branch, with_choice, with_field, with_variable};
ghost use Rattle.obligation_laws.specs.Following as spec;
ghost use Rattle.obligation_laws.specs.Following.{Followed, next_input};
ghost use Rattle.symbolic_runs.specs.Reading.{cut_to, Follows, Reads};

use crate::fields::place_of;
use bv_terms::{InputId, TermId, TermOp, Terms};
use cocoon_num::NoMemory;
use cocoon_syntax::HeaderDecl;
use expr_terms::Variable;
use std::alloc::Global;

/// An input that was taken as a choice, and its width in bits.
#[derive(Clone, Copy, Drop)]
pub struct Choice {
    pub input: InputId,
    pub width: u8,
}

/// A role by its name, and the terms of its parameters.
#[derive(Drop)]
pub struct Place<'d> {
    pub role: &'d [u8],
    pub values: Vec<TermId>,
}

/// What is known at one point of one way.
#[derive(Drop)]
pub struct State<'d> {
    /// The last that was bound last.
    pub variables: Vec<Variable<'d>>,
    /// Header by header, in the order of declaration.
    pub fields: Vec<TermId>,
    /// What must be true to come here.
    pub condition: TermId,
    /// In the order in which they were taken.
    pub choices: Vec<Choice>,
    /// For each `if` that ran, whether its first branch did.
    pub way: Vec<bool>,
    /// Where the way has sent to, if it has.
    pub sent: Option<Place<'d>>,
}

impl<'d> State<'d> {
    /// The same state, in memory of its own, which grows with the variables, fields, choices and branches.
    pub(crate) fn copy(&self, alloc: Global) -> Result<State<'d>, NoMemory>
        requires { self.now.sent ≡ None }
        ensures reads { IfOk result (λ copy. (nodes : List Node) (t : tree.State)
            → Reads nodes self.now t → Reads nodes copy t) }
        ensures condition { IfOk result (λ copy. copy.condition ≡ self.now.condition) }
    {
        Ok(State {
            variables: self.variables.to_vec(alloc)?,
            fields: self.fields.to_vec(alloc)?,
            condition: self.condition,
            choices: self.choices.to_vec(alloc)?,
            way: self.way.to_vec(alloc)?,
            sent: None,
        })
    }

    /// Whether the way has sent.
    pub fn has_sent(&self) -> bool
        ensures { result ≡ is_some self.now.sent }
    {
        self.sent.is_some()
    }

    /// Binds a variable.
    pub(crate) fn bind(&mut self, name: &'d [u8], term: TermId) -> Result<(), NoMemory>
        ensures { OnOk result ((nodes : List Node) (t : tree.State) (u : Term)
            → Reads nodes self.old t → Makes nodes term u
            → Reads nodes self.new (with_variable name.now u t)) }
    {
        self.variables.push(Variable { name, term })?;
        Ok(())
    }

    /// Sets a field of a header.
    pub(crate) fn set_field(
        &mut self,
        headers: &[HeaderDecl],
        header: &[u8],
        field: &[u8],
        term: TermId,
    )
        requires { length (all_widths (map header_of headers.now)) ≤ length self.old.fields.items }
        ensures { (nodes : List Node) (t : tree.State) (u : Term)
            → Reads nodes self.old t → Makes nodes term u
            → Reads nodes self.new
            (with_field (map header_of headers.now) header.now field.now u t) }
    {
        let Some(place) = place_of(headers, &self.fields, header, field) else {
            return;
        };
        self.fields[place] = term;
    }

    /// One more part of the condition, which is a chain from the left.
    pub(crate) fn require(&mut self, part: TermId, terms: &mut Terms) -> Result<(), NoMemory>
        requires there { (self.old.condition < length terms.old) × (part < length terms.old) }
        requires truths { (width_at terms.old self.old.condition ≡ 1)
            × (width_at terms.old part ≡ 1) }
        ensures reads { OnOk result ((t : tree.State) (u : Term)
            → Reads terms.old self.old t → Makes terms.old part u
            → Reads terms.new self.new (where_true u t)) }
        ensures kept { KeepsTerms terms.old terms.new }
        ensures inputs { inputs_in terms.new ≡ inputs_in terms.old }
    {
        let condition = terms.binary(TermOp::And, self.condition, part)?;
        self.condition = condition;
        Ok(())
    }

    /// One more branch of an `if` ran: the first, or the second.
    pub(crate) fn branch(&mut self, first: bool) -> Result<(), NoMemory>
        ensures { OnOk result ((nodes : List Node) (t : tree.State)
            → Reads nodes self.old t → Reads nodes self.new (with_branch first t)) }
    {
        self.way.push(first)?;
        Ok(())
    }

    /// A new input of a width, in bits, as one more choice.
    pub(crate) fn choose(&mut self, width: u8, terms: &mut Terms) -> Result<TermId, NoMemory>
        requires { IsWidth width }
        ensures made { IfOk result (λ id.
            Makes terms.new id (input_term (next_input (inputs_in terms.old) width))) }
        ensures reads { OnOk result ((t : tree.State) → Reads terms.old self.old t
            → Reads terms.new self.new (with_choice (next_input (inputs_in terms.old) width) t)) }
        ensures kept { KeepsTerms terms.old terms.new }
        ensures next { OnOk result (inputs_in terms.new ≡ inputs_in terms.old + 1) }
    {
        let input = terms.input_count();
        let term = terms.input(width)?;
        self.choices.push(Choice { input, width })?;
        Ok(term)
    }

    /// The way sends.
    pub(crate) fn send(&mut self, role: &'d [u8], values: Vec<TermId>)
        ensures { (nodes : List Node) (t : tree.State) (us : List Term)
            → Reads nodes self.old t → MakesAll nodes values.items us → Reads nodes self.new
            (record t { sent = Some (record { role = role.now; values = us }) }) }
    {
        self.sent = Some(Place { role, values });
    }
}

/// A list of one state.
pub(crate) fn one<'d>(alloc: Global, state: State<'d>) -> Result<Vec<State<'d>>, NoMemory>
    ensures { IfOk result (λ states. states.items ≡ state.entry ∷ []) }
{
    let mut states = Vec::new(alloc);
    states.push(state)?;
    Ok(states)
}

/// The ways that have sent, in order: what falls goes no further.
pub(crate) fn those_sent<'d>(
    alloc: Global,
    states: Vec<State<'d>>,
) -> Result<Vec<State<'d>>, NoMemory>
    ensures { IfOk result (λ sent. (nodes : List Node) (f : Followed)
        → Follows nodes states.entry.items f → Follows nodes sent.items (spec.those_sent f)) }
{
    let mut sent = Vec::new(alloc);
    for state in states {
        if state.has_sent() {
            sent.push(state)?;
        }
    }
    Ok(sent)
}

/// The ways with their first variables alone, so many: those of a block end with it.
pub(crate) fn cut<'d>(
    alloc: Global,
    states: Vec<State<'d>>,
    count: usize,
) -> Result<Vec<State<'d>>, NoMemory>
    ensures { IfOk result (λ back. (nodes : List Node) (f : Followed)
        → Follows nodes states.entry.items f
        → Follows nodes back.items (map (cut_to count) f.0, f.1)) }
{
    let mut back = Vec::new(alloc);
    for state in states {
        let mut state = state;
        state.variables.truncate(count);
        back.push(state)?;
    }
    Ok(back)
}
