//! The kind rules of P4 programs. docs/FORMATS.md has them under "Kind rules".
#![tactic(auto)]

pub mod bytes;
pub(crate) mod depth;
pub mod exprs;
pub mod kinds;
pub mod laws;
pub mod names;
pub mod numbers;
pub mod sort;
pub(crate) mod stmts;
pub(crate) mod widths;

pub use kinds::is_well_kinded;
