//! Whole networks. They are loaded once, with the rows of their switches, and what is attached and linked where is found
//! by halving ([`loading`]); then all copies of a packet are followed through one: what is delivered at which host, and
//! what still travels ([`delivering`]).
#![tactic(auto)]

pub mod delivering;
pub mod departed;
pub mod fault;
pub mod finding;
mod following;
pub mod laws;
pub mod loading;
pub mod lookups;
pub mod net;
pub mod room;
mod standing;
pub mod stations;
pub mod switch;
pub mod visiting;

pub use delivering::{Delivered, Delivery, Outcome, deliver, deliver_in};
pub use departed::{Departed, Visited};
pub use fault::{MOST_RUNS, RunFault};
pub use loading::{NetFault, load};
pub use net::Net;
pub use room::Room;
pub use stations::Stations;
pub use switch::LoadedSwitch;
