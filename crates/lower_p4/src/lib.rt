//! From a design with its definitions to a network that delivers what the design says: what `lower_net` makes is what the laws
//! of `lowering_correct` speak of. The command knows a lowering by what it delivers, and nothing of how it is made.
#![tactic(auto)]

pub mod laws;
pub mod networks;
mod wiring;

pub use lower_net::LowerFault;
pub use lower_net::limits::{MOST_HOSTS, MOST_MEMBERS, MOST_SITES, MOST_SWITCHES, MOST_TABLES};
pub use networks::lower;
pub use wiring::wires;
