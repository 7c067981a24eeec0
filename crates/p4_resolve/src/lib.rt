//! The program that a P4 text stands for, or the first declaration or statement of it that breaks a kind rule. Names are looked
//! up through an index that is made once.
#![tactic(auto)]

pub(crate) mod controls;
pub(crate) mod exprs;
pub mod fault;
pub(crate) mod fields;
pub(crate) mod headers;
pub(crate) mod lines;
pub(crate) mod numbers;
pub(crate) mod pieces;
pub(crate) mod scope;
pub(crate) mod stmts;
pub(crate) mod table_rules;
pub mod whole_text;

pub use fault::KindFault;
pub use whole_text::resolve;
