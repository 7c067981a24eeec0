//! The command line: which command the words give. `clap` reads them, by the one command that
//! `subcommands` states; what stands on this crate sees the command alone.
#![tactic(auto)]

pub mod arguments;
pub mod command;
pub mod laws;
pub mod parse;
pub mod subcommands;
pub mod syntax;

pub use command::{Check, Command, Compile, Forward, Gen, Step, Update};
pub use parse::parse_command;
