//! Clauses, assignments, and logs that derive clauses from clauses. Its `specs/` say what an assignment satisfies, and
//! what a log derives; a log that derives the empty clause shows that no assignment satisfies. And certificates, in
//! [`certificates`]: what shows that an obligation of a design holds, a log with the values at which the assumptions were used.
#![tactic(auto)]

pub mod certificates;
pub mod clause_status;
pub mod clauses;
pub mod laws;
pub mod lit;
pub mod literals;
pub mod log;
pub mod trail;

pub use certificates::{Cert, Certs, Instance};
pub use clause_status::ClauseStatus;
pub use clauses::{Assignment, Clause, Cnf, satisfies};
pub use lit::Lit;
pub use literals::Literals;
pub use log::{Log, Step, known_clause};
pub use trail::Trail;
