//! Files of cases: what stands in their lines, the trial of each case, and what is printed of it. The programs of tests stand
//! on this crate, and each adds what its cases ask.
#![tactic(auto)]

mod digits;
mod files;
mod lines;
mod printer;
mod shorthand;
mod sweep;
mod trial;

pub use digits::{number, numbers, wide_number};
pub use files::{file, input, print, print_of_input, sole_word};
pub use lines::{first_word, last_line};
pub use printer::Printer;
pub use shorthand::{put_expanded, put_framed, put_repeated};
pub use sweep::swept;
pub use trial::{Subject, try_words};
