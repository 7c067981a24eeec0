//! What is known of packets on their ways through the bodies of roles, as terms of an arena: bodies are followed statement by
//! statement, as the section "Leaves" of docs/CLAUSES.md says.
#![tactic(auto)]

pub mod bodies;
mod fields;
pub mod following;
pub mod states;
mod steps;
pub mod world;

pub use bodies::{begin, follow_body};
pub use following::follow_block;
pub use states::{Choice, Place, State};
pub use world::World;
