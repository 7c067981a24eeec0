//! The plain and slow program beside the definitions: packets bit by bit. Each call computes what its definition says on
//! small inputs, so that cases (those of `text_tests`) speak of the definitions themselves.
#![tactic(auto)]

mod bits;
pub mod layouts;
pub mod packet;

pub use layouts::is_layout;
pub use packet::{Entered, Packet, enter, leave};
