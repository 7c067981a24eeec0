//! Candidates: the definitions that an assignment gives at which a query is true.
#![tactic(auto)]

mod applying;
mod assigned;
mod making;

pub use assigned::environment;
pub use making::candidate;
