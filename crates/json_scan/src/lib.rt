//! JSON texts, read token by token as values of forms: each value is made while its text is passed, and the JSON value of the
//! whole text is never made.
#![tactic(auto)]

pub mod fault;
mod list;
pub mod number;
mod pair;
mod pass;
pub mod scan;
mod start;
pub mod whole;

pub use fault::ScanFault;
pub use number::JsonNumber;
pub use pair::{scan_items, scan_members};
pub use scan::{ScanJson, scan_number};
pub use whole::scan_all;
