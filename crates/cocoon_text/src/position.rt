//! The positions of the tokens of a text.
ghost use Rattle.std.specs.Prelude.{All, ◌≡◌, ◌<◌, ◌≤◌, ◌^◌, IfOk, length, map, slice_get};
ghost use Rattle.cocoon_text.specs.Kinds.{StandsIn, token_of};
ghost use Rattle.cocoon_text.specs.Positions.{offset_of, position_at, start_or, token_position};

use crate::byte_position::position_at;
use crate::lexer::{LexFault, lex};
use crate::token::Token;
use cocoon_num::NoMemory;
use std::alloc::Global;

/// Where a byte stands in a text: its line and its column, both from 1. A column counts bytes.
#[derive(Clone, Copy, Drop)]
pub struct Position {
    pub line: u32,
    pub column: u32,
}

/// The position of the first byte of the token of this index. Where the text has no such token it is the one after the
/// last byte.
pub fn position_of(alloc: Global, text: &[u8], index: u32) -> Result<Position, NoMemory>
    requires { length text.now < 2 ^ 31 }
    ensures { IfOk result (λ position. position ≡ token_position text.now index) }
{
    let offset = token_start(alloc, text, index)?;
    Ok(position_of_byte(text, offset))
}

/// The position of the byte at this offset.
fn position_of_byte(text: &[u8], offset: u32) -> Position
    requires small { length text.now < 2 ^ 31 }
    requires within { offset ≤ length text.now }
    ensures { result ≡ position_at text.now offset }
{
    let (line, column) = position_at(text, offset);
    Position { line, column }
}

/// The offset of the first byte of the token of this index.
fn token_start(alloc: Global, text: &[u8], index: u32) -> Result<u32, NoMemory>
    requires { length text.now < 2 ^ 31 }
    ensures is { IfOk result (λ offset. offset ≡ offset_of text.now index) }
    ensures within { IfOk result (λ offset. offset ≤ length text.now) }
{
    match lex(alloc, text) {
        Ok(tokens) => Ok(start_among(text, tokens.as_slice(), index)),
        Err(LexFault::BadByte(_) | LexFault::BadNumber(_) | LexFault::OpenComment(_)) => {
            Ok(text.len() as u32)
        }
        Err(LexFault::NoMemory) => Err(NoMemory),
    }
}

/// The same of one of these tokens.
fn start_among(text: &[u8], tokens: &[Token], index: u32) -> u32
    requires small { length text.now < 2 ^ 31 }
    requires offsets { All (StandsIn text.now) tokens.now }
    ensures is { result ≡ start_or (length text.now)
        (slice_get (map (token_of text.now) tokens.now) index) }
    ensures within { result ≤ length text.now }
{
    match tokens.get(index as usize) {
        Some(token) => token.start,
        None => text.len() as u32,
    }
}
