//! What stands for the inputs of an old leaf.
ghost use Rattle.std.specs.Prelude.{◌≡◌, ◌++◌, ◌<◌, All, IfOk, List, map, OnOk};
ghost use Rattle.cocoon_num.specs.Tree.{Design};
ghost use Rattle.bv_terms.specs.Arenas.{inputs_in};
ghost use Rattle.bv_terms.specs.TermTrees.{Term};
ghost use Rattle.expr_terms.specs.Variables.{Keeps, Makes, MakesAll};
ghost use Rattle.obligation_laws.specs.Leaves as laws;
ghost use Rattle.obligation_laws.specs.States.{NewInput, input_term};
ghost use Rattle.obligation_gen.specs.ShownTrees.{HasInput, ShowsEnd, ShowsInputs, ShowsLeaf};
ghost use Rattle.obligation_laws.specs.Formulas as formulas;
ghost use Rattle.obligation_gen.specs.Sent.{fields_of, position_of, sent_at, values_of};

use crate::tree::{End, Leaf, Tree};
use bv_terms::{InputId, TermId, Terms};
use cocoon_num::{Bits, NoMemory};
use std::alloc::Global;

/// The values that are sent.
pub(crate) fn values(end: &End) -> &[TermId]
    ensures { result.now ≡ values_of end.now }
{
    match end {
        End::Sent(_, values, _) => values.items(),
        End::Inside(_, values, _) => values.items(),
    }
}

/// The fields that are sent.
pub(crate) fn fields(end: &End) -> &[TermId]
    ensures { result.now ≡ fields_of end.now }
{
    match end {
        End::Sent(_, _, fields) => fields.items(),
        End::Inside(_, _, fields) => fields.items(),
    }
}

/// The first place of a term among some.
fn position(term: TermId, among: &[TermId]) -> Option<usize>
    ensures { result ≡ position_of term among.now }
{
    for (place, other) in among.iter().enumerate() {
        if *other == term {
            return Some(place);
        }
    }
    None
}

/// What is sent at the place that a choice has among old terms.
pub(crate) fn sent_at(choice: TermId, old: &[TermId], sent: &[TermId]) -> Option<TermId>
    ensures { result ≡ sent_at choice old.now sent.now }
{
    sent.get(position(choice, old)?).copied()
}

/// What stands for a choice of an old leaf: what is sent in its place, or 0.
fn read_back(choice: InputId, old: &End, end: &End, terms: &mut Terms) -> Result<TermId, NoMemory>
    requires { choice < inputs_in terms.old }
    ensures made { (d : Design) (i : NewInput) (o e : laws.End) → i.number ≡ choice
        → HasInput terms.old i → ShowsEnd d terms.old old.now o → ShowsEnd d terms.old end.now e
        → IfOk result (λ id. Makes terms.new id (formulas.read_back o e i)) }
    ensures kept { Keeps terms.old terms.new }
{
    let _count = terms.count();
    let own = terms.input_term(choice);
    match sent_at(own, values(old), values(end)) {
        Some(value) => Ok(value),
        None => match sent_at(own, fields(old), fields(end)) {
            Some(field) => Ok(field),
            None => terms.constant(Bits::new(terms.width(own), 0)),
        },
    }
}

/// Adds the terms of inputs.
fn push_inputs(inputs: &[InputId], terms: &Terms, into: &mut Vec<TermId>) -> Result<(), NoMemory>
    requires { All (λ i. i < inputs_in terms.now) inputs.now }
    ensures { (is : List NewInput) (ts : List Term) → ShowsInputs terms.now inputs.now is
        → MakesAll terms.now into.old.items ts
        → OnOk result (MakesAll terms.now into.new.items (ts ++ map input_term is)) }
{
    let _count = terms.count();
    for input in inputs {
        into.push(terms.input_term(*input))?;
    }
    Ok(())
}

/// Adds what stands for choices.
fn push_read_back(
    choices: &[InputId],
    old: &End,
    end: &End,
    terms: &mut Terms,
    into: &mut Vec<TermId>,
) -> Result<(), NoMemory>
    requires { All (λ i. i < inputs_in terms.old) choices.now }
    ensures made { (d : Design) (is : List NewInput) (o e : laws.End) (ts : List Term)
        → ShowsInputs terms.old choices.now is → ShowsEnd d terms.old old.now o
        → ShowsEnd d terms.old end.now e → MakesAll terms.old into.old.items ts
        → OnOk result (MakesAll terms.new into.new.items
        (ts ++ map (formulas.read_back o e) is)) }
    ensures kept { Keeps terms.old terms.new }
{
    for choice in choices {
        let term = read_back(*choice, old, end, terms)?;
        into.push(term)?;
    }
    Ok(())
}

/// The inputs of a leaf of a tree: the parameters, the fields and its choices.
pub(crate) fn leaf_inputs(alloc: Global, tree: &Tree, leaf: &Leaf) -> Result<Vec<InputId>, NoMemory>
    ensures { IfOk result (λ all. all.items
        ≡ tree.now.args ++ (tree.now.fields ++ leaf.now.choices)) }
{
    let mut all = Vec::new(alloc);
    all.extend_from_slice(tree.args.items())?;
    all.extend_from_slice(tree.fields.items())?;
    all.extend_from_slice(leaf.choices.items())?;
    Ok(all)
}

/// What stands for the inputs of an old leaf beside a leaf of a tree: parameters and fields of the
/// tree, and what is read back.
pub(crate) fn stand_ins(
    alloc: Global,
    old: &Leaf,
    tree: &Tree,
    leaf: &Leaf,
    terms: &mut Terms,
) -> Result<Vec<TermId>, NoMemory>
    requires args { All (λ i. i < inputs_in terms.old) tree.now.args }
    requires fields { All (λ i. i < inputs_in terms.old) tree.now.fields }
    requires choices { All (λ i. i < inputs_in terms.old) old.now.choices }
    ensures made { (d : Design) (of : laws.Tree) (old_of leaf_of : laws.Leaf)
        → ShowsInputs terms.old tree.now.args of.args
        → ShowsInputs terms.old tree.now.fields of.fields
        → ShowsLeaf d terms.old old.now old_of → ShowsLeaf d terms.old leaf.now leaf_of
        → IfOk result (λ to. MakesAll terms.new to.items
        (formulas.stand_ins old_of of leaf_of)) }
    ensures kept { Keeps terms.old terms.new }
{
    let mut all = Vec::new(alloc);
    push_inputs(tree.args.items(), terms, &mut all)?;
    push_inputs(tree.fields.items(), terms, &mut all)?;
    push_read_back(old.choices.items(), &old.end, &leaf.end, terms, &mut all)?;
    Ok(all)
}
