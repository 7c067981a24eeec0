//! Clauses by their top literals, those of the highest variables, so that those with one top literal are found without a
//! walk over the others. In lists that are made of gates, whose variables are above those of what they are made of, few
//! clauses have one top literal.
ghost use Rattle.std.specs.Prelude.{[], ◌∷◌, ◌++◌, ◌<◌, IfOk, length, List, OnOk, slice_index, ℕ};
ghost use Rattle.cnf_core.specs.Literals.{index_of};
ghost use Rattle.proof_check.specs.Registering.{IsLast, Registers};

use cnf_core::Lit;
use cocoon_num::NoMemory;
use std::alloc::Global;

/// Numbers of clauses. Those with one top literal are a chain: the last of them is found by the literal, and each leads to
/// the one before it.
#[derive(Drop)]
pub(crate) struct Chains {
    heads: Vec<usize>,
    links: Vec<usize>,
}

impl Chains {
    /// No clauses yet, over this many variables.
    pub fn new(alloc: Global, vars: u32) -> Result<Chains, NoMemory>
        ensures { IfOk result (λ chains. Registers vars [] chains) }
    {
        let heads = vec![in alloc; 0; vars as usize * 2 + 2]?;
        Ok(Chains {
            heads,
            links: Vec::new(alloc),
        })
    }

    /// Adds the next clause, which has this top literal.
    pub fn add(&mut self, top: Lit) -> Result<(), NoMemory>
        requires { index_of top.number < length self.old.heads.items }
        ensures { (vars : ℕ) (tops : List ℕ) → Registers vars tops self.old
            → OnOk result (Registers vars (tops ++ index_of top.number ∷ []) self.new) }
    {
        let at = top.index();
        self.links.push(self.heads[at])?;
        self.heads[at] = self.links.len();
        Ok(())
    }

    /// One more than the number of the last clause with this top literal, or 0.
    pub fn last(&self, top: Lit) -> usize
        requires { index_of top.number < length self.now.heads.items }
        ensures { (vars : ℕ) (tops : List ℕ) → Registers vars tops self.now
            → IsLast tops (index_of top.number) (length tops) result }
    {
        let at = top.index();
        self.heads[at]
    }

    /// The same for those before a clause.
    pub fn before(&self, number: usize) -> usize
        requires { number < length self.now.links.items }
        ensures { (vars : ℕ) (tops : List ℕ) → Registers vars tops self.now
            → IsLast tops (slice_index tops number) number result }
    {
        self.links[number]
    }
}
