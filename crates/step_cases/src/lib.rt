//! Cases of a design: a location, a packet and choices, as a file of three lines has them. [`read_case`] reads one, and
//! says which line is not of its form; [`run_case`] says where the body of its role sends the packet, at a level of a
//! design under its definitions.
#![tactic(auto)]

pub mod case;
mod fit;
pub mod laws;
mod lines;
pub mod running;
pub mod sent;

pub use case::{Case, CaseFault};
pub use lines::read_case;
pub use running::run_case;
pub use sent::Sent;
