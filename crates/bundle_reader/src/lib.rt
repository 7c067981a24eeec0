//! Bundles read back: the network that the files of a bundle give, loaded, or the first fault of the files in the bundle's
//! order.
#![tactic(auto)]

pub mod certificates;
pub mod fault;
mod files;
mod last_rows;
pub mod laws;
pub mod reading;
mod switches;

pub use certificates::read_certificates;
pub use fault::ReadFault;
pub use net_run::Net;
pub use p4_read::P4Fault;
pub use p4_run::LoadFault;
pub use reading::{read_bundle, read_wiring};
