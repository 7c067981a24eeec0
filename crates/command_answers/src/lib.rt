//! What each command of `cocoon` answers over what was read of its files: a report, and what is to be
//! written. Each command is a module of its own, and none reads or writes a file by itself; `update`
//! alone is handed a folder, since it reads the bundle that stands after its texts are judged. The crate
//! `cocoon_cli` above reads the files, asks the command, writes what it answers, and prints its report.
//! docs/CHANGING.md says how to add a command.
#![tactic(auto)]

pub mod answer;
pub mod assumptions;
pub mod check;
pub mod compile;
pub mod forward;
pub mod generate;
pub mod laws;
pub mod obligations;
pub mod standing;
pub mod step;
pub mod update;
