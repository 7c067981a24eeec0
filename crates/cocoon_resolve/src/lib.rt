//! The rules of a design, whole: [`resolve`] says what is wrong with a design, and where; or it gives the design back as
//! [`Checked`], which keeps all rules and limits, and which all that looks at designs afterwards reads. [`first_limit`] is
//! the first limit that a design is over. A count that does not fit 64 bits is reported as the greatest number of 64 bits,
//! and a function is counted once, however often it is called.
#![tactic(auto)]

mod assumptions;
mod bodies;
mod body_nodes;
pub mod checked;
mod counts;
mod decls;
pub mod fault;
mod first;
mod forms;
mod functions;
mod layout;
mod nodes;
pub mod resolving;
mod ways;

pub use checked::Checked;
pub use declarations::FunId;
pub use fault::{TypeFault, rule_name};
pub use first::{first_limit, most_of};
pub use resolving::resolve;
