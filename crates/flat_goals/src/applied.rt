//! What a reduction gives.

use bv_terms::{FunId, InputId, TermId};
use cocoon_num::List;

/// An application for which an input stands.
#[derive(Drop)]
pub struct Applied {
    pub function: FunId,
    /// The arguments as they are in the flat goal.
    pub args: List<TermId>,
    pub result: InputId,
}

/// A goal without applications.
#[derive(Drop)]
pub struct Flat {
    pub goal: TermId,
    /// The applications of the given goal, in the order of the walk.
    pub applied: List<Applied>,
}

/// An application, and the term of its input.
#[derive(Drop)]
pub(crate) struct Application {
    pub(crate) applied: Applied,
    pub(crate) term: TermId,
}
