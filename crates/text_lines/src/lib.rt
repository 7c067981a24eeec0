//! Lines of texts, read and printed. The lines of a file, their parts, and the numbers among these, as files of cases have
//! them and other files of lines: what a line has to say is the business of who reads the file. And [`Printer`], for texts
//! that are printed piece by piece, and lexed again: the lemmas in `proofs/` say, for any lexicon, that pieces which may
//! stand side by side have the tokens of each.
#![tactic(auto)]

pub mod line_parts;
pub mod lines;
pub mod numbers;
mod pieces;
pub mod printer;

pub use line_parts::split_parts;
pub use lines::{Line, Lines, split_lines};
pub use numbers::{decimal_value, read_list, read_number, read_numbers};
pub use printer::Printer;
