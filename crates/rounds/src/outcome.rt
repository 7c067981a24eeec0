//! What a search in rounds comes to.
use bv_terms::InputId;
use cnf_core::{Cert, Instance, Log};
use cocoon_num::{Bits, List};
use runtime_defs::Defs;

/// What is asked when an answer is not found.
#[derive(Drop)]
pub enum Query {
    /// The formula, with these instances of assumptions.
    Goal(List<Instance>),
    /// The assumption of this number under these definitions, a candidate of the formula with these
    /// instances.
    Assumption(u32, Defs, List<Instance>),
}

/// Definitions that meet the assumptions, and values at which the formula is true under them.
#[derive(Drop)]
pub struct Witness {
    pub defs: Defs,
    /// The instances with which they were found.
    pub instances: List<Instance>,
    /// The inputs of the formula, in ascending order.
    pub inputs: List<InputId>,
    /// Their values, in this order.
    pub values: List<Bits>,
}

/// What a search in rounds says of a formula.
#[derive(Drop)]
pub enum Outcome {
    /// It is never true, and this shows it.
    Holds(Cert),
    /// It is true under these definitions.
    Found(Witness),
    /// The conflicts are spent on this query: how many variables it has, and the clauses that were
    /// learned.
    SpentConflicts(Query, u32, Log),
    /// The rounds are spent: with these instances the query is satisfied, and a candidate breaks an
    /// assumption again.
    SpentRounds(List<Instance>),
    /// The query has so many clauses, more than 4,000,000.
    Big(Query, u64),
}
