//! Programs of the P4-16 subset, with their rows loaded once and run for packet after packet. Expressions and statements
//! are resolved first: names are indices, and what widths decide is a mask or a shift ([`expr_codes`], [`stmt_codes`]).
//! Then nothing but rows is looked up, and a run takes no memory ([`visits`]).
#![tactic(auto)]

pub mod applying;
pub mod constants;
pub mod evaluating;
pub mod expr_codes;
pub mod expr_resolving;
pub mod faults;
pub mod filling;
pub mod frame;
pub mod laws;
pub mod loaded;
pub mod loading;
pub mod operators;
pub mod origin;
pub mod places;
pub mod registers;
pub mod resolved;
pub mod running;
pub mod stmt_codes;
pub mod stmt_resolving;
pub mod tables;
pub mod visits;

pub use constants::Constants;
pub use evaluating::{number, truth};
pub use expr_codes::{NumberCode, TruthCode};
pub use expr_resolving::{Names, field_place, resolved_number, resolved_truth};
pub use faults::LoadFault;
pub use frame::Frame;
pub use loaded::Loaded;
pub use registers::Registers;
pub use running::{Way, run_all};
pub use stmt_codes::{Application, StmtCode};
pub use stmt_resolving::resolved_stmts;
pub use visits::Next;
