//! A network that is generated: the text of its design, that of its definitions for so many hosts, the packets that are
//! sent through it, and the count of those that arrive.
#![tactic(auto)]

pub mod counting;
pub mod definitions;
pub mod design;
pub mod laws;
pub mod packets;

pub use counting::count_delivered;
pub use definitions::definitions_text;
pub use design::design_text;
pub use packets::{Stated, packet};
