//! Queries of formulas: goals without functions, each in an arena of its own, that are satisfied
//! where a formula may be true; and whether a certificate shows that an obligation of a design never fails
//! ([`rechecking`]). Nothing is searched here.
#![tactic(auto)]

mod asking;
mod checking;
mod fitting;
mod joining;
pub mod rechecking;

pub use asking::{OwnGoal, query};
pub use checking::{RecheckFault, check_cert};
pub use fitting::all_fit;
pub use rechecking::recheck_one;
