//! Two networks compared: the first difference of their wires and programs. Rows are not compared, and no memory is taken. A
//! network of which only the wires are known has bare switches.
#![tactic(auto)]

pub mod bare;
mod exprs;
pub mod laws;
mod lists;
mod parts;
pub mod programs;
mod stmts;
pub mod wiring;

pub use bare::bare_switches;
pub use programs::same_program;
pub use wiring::{Wiring, wiring_differs, wiring_only};
