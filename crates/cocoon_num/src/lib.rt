//! Numbers of a width, tables of functions, texts and lists, and their copies: the base on which every other crate stands.
//! Its `specs/` hold the values, the trees of designs and definitions, the tokens of texts and the grammar that relates a
//! text to its tree.
#![tactic(auto)]

pub mod bits;
pub mod copies;
pub mod fun_table;
pub mod limit_name;
pub mod list;
pub mod operations;
pub mod packets;
pub mod text;

pub use bits::Bits;
pub use copies::{both, three};
pub use fun_table::{FunRow, FunTable};
pub use limit_name::LimitName;
pub use list::List;
use std::alloc::{AllocError, AllocFailed};
pub use text::Text;

/// There was no memory for what a call had to make.
#[derive(Clone, Copy, Debug, Drop, PartialEq, Eq)]
pub struct NoMemory;

impl From<AllocError> for NoMemory {
    fn from(_: AllocError) -> NoMemory {
        NoMemory
    }
}

impl<T: Drop> From<AllocFailed<T>> for NoMemory {
    fn from(_: AllocFailed<T>) -> NoMemory {
        NoMemory
    }
}
