//! A walk over the terms of an arena.
ghost use Rattle.std.specs.Prelude.{◌≡◌, ◌<◌, [], IfOk, OnOk, Some, filter, length, slice_get};
ghost use Rattle.bv_terms.specs.Arenas.{parts, term_at};
ghost use Rattle.bv_terms.specs.Walks as walks;
ghost use Rattle.bv_terms.specs.Walks.{AreNumbersOf, is_application};
ghost use Rattle.bv_terms.specs.Steps.{IsGoneOn, IsLeft, IsStep};

use crate::arena::Terms;
use crate::node::{Node, TermId};
use crate::term_map::TermMap;
use cocoon_num::NoMemory;
use std::alloc::Global;

/// A term that a walk has entered. Its parts before the place `next` were gone through.
#[derive(Clone, Copy, Drop)]
pub(crate) struct Entered {
    pub(crate) term: TermId,
    pub(crate) next: usize,
}

/// How far a walk has come.
#[derive(Drop)]
pub(crate) struct Walk {
    /// The terms that were left, in this order.
    pub(crate) order: Vec<TermId>,
    /// The same terms, each with a mark.
    pub(crate) left: TermMap<bool>,
    /// The terms that were entered and not left, each a part of the one before it.
    pub(crate) entered: Vec<Entered>,
}

impl Walk {
    /// Goes to a part, which is entered if it was not left before. The rest of its term comes later.
    fn enter(&mut self, rest: Entered, part: TermId) -> Result<(), NoMemory>
        ensures { OnOk result (IsGoneOn rest part self.old self.new) }
    {
        self.entered.push(rest)?;
        if self.left.get(part).is_none() {
            self.entered.push(Entered {
                term: part,
                next: 0,
            })?;
        }
        Ok(())
    }

    /// Numbers a term if it is left for the first time.
    fn leave(&mut self, term: TermId) -> Result<(), NoMemory>
        ensures { OnOk result (IsLeft term self.old self.new) }
    {
        if self.left.get(term).is_none() {
            self.left.set(term, true)?;
            self.order.push(term)?;
        }
        Ok(())
    }

    fn step(&mut self, terms: &Terms, at: Entered) -> Result<(), NoMemory>
        requires { at.term < length terms.now }
        ensures { OnOk result (IsStep terms.now at self.old self.new) }
    {
        let node = terms.node(at.term);
        if at.next < node.part_count() {
            let rest = Entered {
                term: at.term,
                next: at.next + 1,
            };
            self.enter(rest, node.part(at.next))
        } else {
            self.leave(at.term)
        }
    }
}

/// The distinct terms that a term is made of, itself too, in the order in which a walk leaves them. The time that it takes grows
/// with their number and with that of the terms before them in the arena, of which each takes a byte or two meanwhile.
pub fn distinct(alloc: Global, terms: &Terms, term: TermId) -> Result<Vec<TermId>, NoMemory>
    requires { term < length terms.now }
    ensures { IfOk result (λ order.
        AreNumbersOf terms.now (walks.walk (term_at terms.now term) []) order.items) }
{
    prove!(term < terms.count());
    let left = TermMap::new(alloc, 0, term as usize + 1)?;
    let mut walk = Walk {
        order: Vec::new(alloc),
        left,
        entered: Vec::new(alloc),
    };
    walk.entered.push(Entered { term, next: 0 })?;
    while let Some(at) = walk.entered.pop() {
        walk.step(terms, at)?;
    }
    Ok(walk.order)
}

fn is_application(terms: &Terms, term: TermId) -> bool
    requires { term < length terms.now }
    ensures { result ≡ is_application (term_at terms.now term) }
{
    match terms.node(term) {
        Node::Apply(_, _, _) => true,
        _ => false,
    }
}

/// The distinct applications that a term is made of, in the walk's order.
pub fn applications(alloc: Global, terms: &Terms, term: TermId) -> Result<Vec<TermId>, NoMemory>
    requires { term < length terms.now }
    ensures { IfOk result (λ order.
        AreNumbersOf terms.now (walks.applications (term_at terms.now term)) order.items) }
{
    let mut applications = Vec::new(alloc);
    for term in &distinct(alloc, terms, term)? {
        if is_application(terms, *term) {
            applications.push(*term)?;
        }
    }
    Ok(applications)
}
