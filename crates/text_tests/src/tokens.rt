//! The tokens of a text as they are written in cases.
ghost use Rattle.std.specs.Prelude.{All, ◌<◌, ◌^◌, length};
ghost use Rattle.cocoon_text.specs.Kinds.{StandsIn};

use crate::pieces::{put_number, put_position};
use case_files::Printer;
use cocoon_text::{LexFault, Token, lex, position_at};
use std::alloc::Global;

/// Puts the tokens of a text, or its first fault with the offset of its first byte, as `BadByte(2)`.
pub fn put_tokens(alloc: Global, text: &[u8], out: &mut Printer)
    requires { length text.now < 2 ^ 31 }
{
    match lex(alloc, text) {
        Ok(tokens) => put_all(text, tokens.as_slice(), out),
        Err(LexFault::NoMemory) => out.lose(),
        Err(fault) => out.put_debug(&fault),
    }
}

fn put_all(text: &[u8], tokens: &[Token], out: &mut Printer)
    requires small { length text.now < 2 ^ 31 }
    requires stand { All (StandsIn text.now) tokens.now }
{
    for token in tokens {
        put_token(out, text, *token);
    }
}

/// A token with its offsets and positions, as `Name 4-5 1:5-1:6; `.
fn put_token(out: &mut Printer, text: &[u8], token: Token)
    requires small { length text.now < 2 ^ 31 }
    requires stands { StandsIn text.now token }
{
    out.put_debug(&token.kind);
    out.put(" ");
    put_number(out, token.start);
    out.put("-");
    put_number(out, token.end);
    out.put(" ");
    put_position(out, position_at(text, token.start));
    out.put("-");
    put_position(out, position_at(text, token.end));
    out.put("; ");
}
