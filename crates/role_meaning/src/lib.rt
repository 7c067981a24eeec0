//! One body's run, as the section "A body's run" of docs/LANGUAGE.md defines it, and packets that
//! enter from bytes and leave as bytes. Functions that are defined at run time are evaluated by tables.
//!
//! What else is asked of bodies: [`follow`] runs those of a segment one after another, from a role that a block refines
//! through new ones; [`can_send`] says whether some choices of a body give a send that is wanted, by the choices that each
//! value is alone, and one run decides. How the choices of a segment were found plays no part here.
#![tactic(auto)]

pub mod bytes;
mod following;
mod going;
pub mod leading;
mod level;
mod paths;
mod place;
mod progress;
mod run;
mod sending;
mod steps;
mod trail;
mod tries;

pub use bytes::{enter, leave};
pub use following::{Followed, follow};
pub use leading::{go, lead};
pub use place::{Led, Loc, Packet};
pub use sending::can_send;
