//! What stood first: names, numbers, and keys of several numbers, each with the index at which it stood first among those
//! of its table. All are found in logarithmic time, whichever they are: they are kept in their order, and are not hashed.
//! Whatever stands again counts for nothing, as the first of rows that match decides.
#![tactic(auto)]

pub mod key_table;
mod name_table;
pub mod number_table;

pub use name_table::NameTable;
