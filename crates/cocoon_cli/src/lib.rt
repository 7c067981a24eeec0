//! The commands of `cocoon`: the outcome of each, what it leaves, and what is printed. What a command
//! answers over what is read of its files is in `command_answers`. Here one shell reads the files, asks
//! the command, writes what it answers, and prints its report; it is the same for all commands.
//! docs/CHANGING.md says how to add one.
#![tactic(auto)]

pub mod driver;
pub mod laws;
pub mod reading;
pub mod shell;
pub mod writing;

pub use driver::run;
