//! The rules on names, the first phase of the rules of a design: [`note_names`] notes every fault of it. [`uses`] has those
//! on names where they are used, and on variables where they are bound, in one walk. Names are looked up in tables: the
//! time is that of a walk over the text, times a logarithm of the number of names.
#![tactic(auto)]

mod again;
mod decls;
mod exprs;
mod hosts;
mod later;
mod levels;
mod listed;
pub mod names;
mod params;
mod point;
mod redeclared;
mod refined;
mod stmts;
mod truth;
mod unknown;
pub mod uses;

pub use names::note_names;
pub use uses::note_uses;
