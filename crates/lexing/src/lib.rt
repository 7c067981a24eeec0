//! The tokens of a text, by any lexicon. What a token is in the code, a crate above says (`Lexicon`): this one has the
//! bytes, the numbers, the comments, and the way from one token to the next.
#![tactic(auto)]

pub mod bytes;
pub mod lexer;
pub mod lexicon;
pub mod numbers;
mod prefixes;
pub mod spellings;

pub use lexer::{FirstFault, lex};
pub use lexicon::Lexicon;
pub use numbers::Number;
pub use spellings::{Spelled, first_beginning, first_same};
