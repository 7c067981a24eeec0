//! From a design with its definitions to a network: the program of each switch with its rows, where hosts are attached, and
//! the links. The program of a switch is the code of `lower_code` with its headers, meta fields and tables, as the
//! definitions of `lowering` say it; the network is that of `lowering_correct`.
#![tactic(auto)]

pub mod counts;
mod ends;
mod fields;
mod headers;
mod hosts;
mod idle;
mod led;
pub mod lengths;
pub mod limits;
mod links;
pub mod net_declarations;
pub mod networks;
pub mod switch_laws;
pub mod switch_program;
mod switch_tables;
mod switches;
mod wired;

pub use counts::{ProgramCounts, program_counts, program_size};
pub use net_declarations::{Parts, find_parts};
pub use networks::{LowerFault, first_switch, lower, program};
pub use switch_program::{SwitchCode, switch_code};
pub use wired::wires;
