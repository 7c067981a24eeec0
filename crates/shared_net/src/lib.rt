//! Networks whose switches all run one program, but for their numbers, and have the same rows. The program is held twice, with two
//! different numbers: where these differ, and only there, stands the number of the switch. So memory does not grow with the switches,
//! and the program of a switch need not be made: what reads it goes over both.
#![tactic(auto)]

pub mod beside;
pub mod network;
pub mod program;

pub use network::{SharedNet, SharedSwitches};
pub use program::SwitchProgram;
