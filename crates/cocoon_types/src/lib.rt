//! What designs mean: their levels, the values of expressions, the runs of bodies, and the rules that a design and its
//! definitions keep. The definitions stand in `specs/`; [`runs`], [`first_faults`], [`limits`] and [`tree_names`] have laws
//! of them. [`fault`] has the rules as the code names them, and what faults are noted in; [`noting`] notes one where a test
//! fails.
#![tactic(auto)]

pub mod fault;
pub mod first_faults;
pub mod limits;
pub mod noting;
pub mod runs;
pub mod tree_names;

pub use fault::{Noted, TypeRule};
pub use noting::{among_laws, note_unless};
