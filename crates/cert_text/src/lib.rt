//! The files on what was found: certificates, as text and checked against what the design owes, and spent budgets, which say on what a
//! search was given up, for others to check. Nothing is searched here. docs/FORMATS.md says what the files hold. Bytes that are no file of
//! certificates are refused with the first member that is not of its form.
#![tactic(auto)]

pub mod budget_laws;
mod fault;
pub mod files;
pub mod json_laws;
pub mod json_reading;
pub mod json_writing;
pub mod kind;
pub mod laws;
pub mod log_reading;
pub mod log_writing;
mod members;
mod reading;
mod rechecking;
pub mod verdict_laws;

pub use cnf_core::{Cert, Certs, Instance};
pub use fault::CertFault;
pub use files::{candidate_file, given_file, obligation_file, rounds_file};
pub use json_forms::FormFault;
pub use json_writing::to_json;
pub use kind::LogJson;
pub use reading::from_json;
pub use rechecking::recheck;
