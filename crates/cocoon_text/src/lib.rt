//! Whole texts of designs and of definitions: the tree of a text, or its first fault with its line and column; and the
//! positions of its tokens. This is where bytes become trees.
//!
//! Tokens come from [`lexer`]. A text is read once, and no byte of it is copied: a name is the bytes from the start of its
//! token to its end. Trees come from [`whole_text`], which goes over the tokens once, from the left and with one token ahead,
//! and no further than up to the first that is too deep. A phrase is read from a token index on: the answer is its tree with
//! the index after it, or the index of the token that cannot be taken. [`source`] has tokens by their indices, [`exprs`] the
//! expressions, [`decls`] declarations, refinements and headers, with the statements in their bodies, and [`defs`] the
//! defaults and rows of definitions.
#![tactic(auto)]

mod byte_position;
pub mod decls;
mod deep;
pub mod defs;
pub mod exprs;
pub mod fault;
pub mod joins;
mod language;
pub mod laws;
pub mod lexer;
pub mod names;
pub mod operators;
pub mod position;
pub mod read;
pub mod source;
mod spellings;
mod stmts;
pub mod token;
pub mod whole_text;

pub use byte_position::position_at;
pub use fault::{FaultKind, TextFault, Unread};
pub use lexer::{LexFault, lex};
pub use parsing::ParseFault;
pub use position::{Position, position_of};
pub use read::{read_defs, read_design};
pub use token::{Keyword, Mark, Token, TokenKind};
pub use whole_text::{parse_defs, parse_design};
