//! What designs owe, worked out from the definitions: the trees of bodies, obligations with their formulas, and one round;
//! segments of each length, one that does not leave the new roles, and assumptions that fail.
#![tactic(auto)]

pub mod owed;
pub mod refined;
pub mod round;
pub mod trees;
