//! Definitions of the functions that are defined at run time. [`bind`] makes tables of a text of definitions that fits
//! its design, and says of any other what is wrong with it, and where. [`print_defs`] is the way back: a text that reads as
//! definitions of which given tables are the tables. [`tables_of`] makes tables of what functions gave at some arguments: a
//! literal row for each list of arguments, and a default that is free but for the functions of guards and of forks.
#![tactic(auto)]

mod defaults;
pub mod defs;
mod entries;
pub mod fault;
pub mod finding;
mod function_set;
mod guards;
pub mod laws;
mod literal_functions;
mod literal_rows;
pub mod lookup_tables;
pub mod lookups;
pub mod print;
mod row_keys;
mod rows;
mod tables;
pub mod text_laws;
mod true_numbers;

pub use defaults::Defaults;
pub use defs::{Defs, MOST_ROWS, bind};
pub use fault::DefsFault;
pub use finding::first_fault;
pub use lookup_tables::tables_of;
pub use lookups::Lookup;
pub use print::print_defs;
