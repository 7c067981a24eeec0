//! Which header, field, function and role a name stands for, in constant or logarithmic time. The names of a design are put
//! into tables once; the tables hold names and numbers, and a reader is given the design beside them. [`Scopes`] has the
//! variables that are in scope: it is given them in the order in which they are bound, and loses the last of them where a
//! block ends. A time here is logarithmic in the number of names, whichever they are: names are kept in their order, and
//! are not hashed.
#![tactic(auto)]

mod decl_table;
mod function_table;
mod header_table;
mod place;
mod role_table;
pub mod scopes;
pub mod tables;

pub use numbering::NameTable;
pub use scopes::Scopes;
pub use tables::{Declarations, FunId, RoleId};
