//! The rules on forms, the third phase of the rules of a design in docs/LANGUAGE.md: what notes their faults, rule by rule.
//! [`note_bodies`] notes every fault of the bodies of the last level, each of which is walked once.
//!
//! [`first_hidden`] is the read-back rule of bodies: the first choice of a body that is hidden on one of its paths. A body
//! may have more paths than can be followed one by one. So its names are resolved once, and then one choice is followed at a
//! time, by what each value holds of it; paths that hold the same are followed together.
#![tactic(auto)]

pub mod bodies;
mod body_choices;
mod choices;
mod declared;
mod exprs;
mod forks;
pub mod forms;
mod guards;
mod hidden;
mod hidden_choice;
mod refined;
mod resolve;
mod roles;
mod run;
mod same_trees;
mod scope;
mod sends;
mod state;
mod states;
mod steps;
mod stmts;
mod switches;
mod value_places;
mod wires;

pub use bodies::note_bodies;
pub use forms::note_forms;
pub use hidden_choice::first_hidden;
