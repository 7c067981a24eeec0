//! The tree of a P4 text as it is written, with no name looked up, or the first token with which no text goes on. A text is
//! read once into tokens with the offsets of their bytes ([`lexer`]), and no byte of it is copied: a name is the bytes from
//! the start of its token to its end. No word is reserved.
#![tactic(auto)]

mod decls;
mod deep;
mod exprs;
mod joins;
pub mod lexer;
mod lines;
mod p4;
mod pieces;
mod program;
mod source;
mod spellings;
mod stmts;
mod tables;
pub mod token;
pub mod whole_text;

pub use lexer::{LexFault, lex};
pub use parsing::ParseFault;
pub use token::{Mark, Token, TokenKind};
pub use whole_text::parse;
