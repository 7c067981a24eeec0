//! Fields cut from the bytes of headers, and bytes joined from fields: whole bytes are read and
//! written, and the most significant bit is the first.
#![tactic(auto)]

pub mod at_once;
pub mod cutting;
pub mod joining;

pub use cutting::{cut_fields, cut_into};
pub use joining::{byte_count, join_fields, join_into};
