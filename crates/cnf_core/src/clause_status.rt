//! The status of a clause under the literals that are true: whether it is a conflict, forces a literal (is unit), or neither.
use crate::lit::Lit;

#[derive(Clone, Copy)]
pub enum ClauseStatus {
    /// All its literals are false.
    Conflict,
    /// It is unit: this literal has no value yet and all others are false, so it has to be true.
    Forces(Lit),
    /// Neither: it has a true literal (is satisfied), or two without a value (is unresolved).
    Open,
}
