//! Inputs in the place of applications.
ghost use Rattle.std.specs.Prelude.{◌≡◌, ◌<◌, ◌+◌, ◌++◌, IfOk, OnOk, length};
ghost use Rattle.bv_terms.specs.Arenas.{KeepsTerms, inputs_in, term_at, width_at};
ghost use Rattle.bv_terms.specs.Walks as walks;
ghost use Rattle.flat_laws.specs.Flat.{reduced};
ghost use Rattle.bv_terms.specs.Growth.{IsMade};
ghost use Rattle.flat_goals.specs.Reducing.{AreTaken, CanReduce, IsReduced, listed};

use crate::applied::{Application, Applied};
use bv_terms::{Node, TermId, TermMap, Terms, distinct, with_parts};
use cocoon_num::NoMemory;
use std::alloc::Global;

/// A goal with inputs in the place of its applications.
#[derive(Drop)]
pub(crate) struct Reduced {
    pub(crate) goal: TermId,
    pub(crate) applications: Vec<Application>,
}

/// What a node of this width becomes, whose parts are reduced. An application becomes a new input, and is listed.
fn reduce_node(
    terms: &mut Terms,
    applications: &mut Vec<Application>,
    own: TermId,
    node: Node,
    width: u8,
) -> Result<TermId, NoMemory>
    requires { CanReduce terms.old node width }
    ensures reduced { IfOk result (λ id. IsReduced terms.old terms.new own node id) }
    ensures listed { IfOk result (λ id. applications.new.items
        ≡ applications.old.items ++ listed (inputs_in terms.old) node id) }
    ensures kept { KeepsTerms terms.old terms.new }
{
    match node {
        Node::Input(_, _) => Ok(own),
        Node::Apply(function, args, width) => {
            let result = terms.input_count();
            let term = terms.input(width)?;
            let applied = Applied {
                function,
                args,
                result,
            };
            applications.push(Application { applied, term })?;
            Ok(term)
        }
        node => terms.put(node, width),
    }
}

/// The goal with inputs in the place of its applications, which come in the order of the walk.
pub(crate) fn reduce(alloc: Global, goal: TermId, terms: &mut Terms) -> Result<Reduced, NoMemory>
    requires { goal < length terms.old }
    ensures goal { IfOk result (λ made. IsMade terms.new
        (reduced (walks.applications (term_at terms.old goal)) (inputs_in terms.old)
        (term_at terms.old goal)) made.goal) }
    ensures applications { IfOk result (λ made. AreTaken terms.new
        (term_at terms.old goal) (inputs_in terms.old) made.applications.items) }
    ensures inputs { OnOk result (inputs_in terms.new
        ≡ inputs_in terms.old + length (walks.applications (term_at terms.old goal))) }
    ensures kept { KeepsTerms terms.old terms.new }
{
    prove!(goal < terms.count());
    let mut applications = Vec::new(alloc);
    let mut ids = TermMap::new(alloc, 0, 0)?;
    for own in &distinct(alloc, terms, goal)? {
        let node = with_parts(alloc, &ids, terms.node(*own))?;
        let id = reduce_node(terms, &mut applications, *own, node, terms.width(*own))?;
        ids.set(*own, id)?;
    }
    Ok(Reduced {
        goal: ids.get(goal).unwrap_or(goal),
        applications,
    })
}
