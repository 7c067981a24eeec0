//! What a command can answer, and how that is printed: the files of a command and their names, why a command stops, how it
//! ends, and the line of each refusal. [`design_texts`] judges the texts that most commands are given: a design with
//! definitions that fit it, or the refusal of the first fault. No command is known here by its name.
#![tactic(auto)]

pub mod design_texts;
pub mod ending;
pub mod files;
pub mod numbers;
pub mod printing;
pub mod refusal;
pub mod report;
pub mod status;

pub use design_texts::{Bound, bind_text, bound_texts, read_checked};
pub use files::{CommandFile, FileNames, Wanted};
pub use numbers::push_list;
pub use printing::{print, tell_no_memory, tell_usage};
pub use refusal::{BundleCause, DefinitionsFault, EntryRule, InputFault, Refusal, unread};
pub use report::{Report, Verdict};
pub use status::Status;
