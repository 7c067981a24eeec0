//! Programs of the P4-16 subset, the rows of their tables, and whole networks, as values; and, as definitions, their
//! text, their rules and their meaning. A program is what docs/FORMATS.md writes under "The text", without its marks:
//! headers, fields and meta fields are named by their indices, from 0.
#![tactic(auto)]

pub mod network;
pub mod program;
pub mod rows;

pub use network::{HostPort, Link, LinkEnd, MOST_FILE_BYTES, NetData, SwitchFiles};
pub use program::{Control, P4Binary, P4Expr, P4Field, P4Header, P4Stmt, P4Unary, Program, Table};
pub use rows::{Group, KeyRow, RowsFile, TableRows};
