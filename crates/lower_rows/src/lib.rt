//! The rows of a switch's tables, and the groups of copies, as `lowering_correct` says them.
#![tactic(auto)]

mod args_table;
pub mod counting;
mod first_rows;
mod fork_args;
mod forked;
pub mod groups;
mod keys;
pub mod rows;
mod table_groups;

pub use counting::has_more_rows;
pub use groups::{ForkGroup, fork_groups};
pub use rows::switch_rows;
