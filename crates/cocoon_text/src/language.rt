//! The tokens of designs and definitions, as the lexer makes them.
use crate::spellings::{mark, run_kind};
use crate::token::{Token, TokenKind};
use lexing::{Lexicon, Number};

/// The lexicon of designs and definitions.
pub struct Language;

impl Lexicon for Language {
    ghost use Rattle.std.specs.Prelude.{refl};
    ghost use Rattle.cocoon_num.specs.Tokens.{language};
    ghost use Rattle.cocoon_text.specs.Kinds.{kind_of as kind_in, token_of as token_in};

    type Kind = TokenKind;

    type Token = Token;

    ghost lexicon = { language };

    ghost kind_of = { kind_in };

    ghost token_of = { token_in };

    fn widest() -> u8 {
        64
    }

    fn run(run: &[u8]) -> TokenKind {
        run_kind(run)
    }

    fn mark(text: &[u8]) -> Option<(TokenKind, usize)> {
        let mark = mark(text)?;
        Some((TokenKind::Mark(mark), mark.text().len()))
    }

    fn number(number: Number) -> TokenKind {
        match number {
            Number::Plain(value) => TokenKind::Plain(value),
            Number::Literal(bits) => TokenKind::Literal(bits),
        }
    }

    fn end() -> TokenKind {
        TokenKind::End
    }

    fn token(kind: TokenKind, start: u32, end: u32) -> Token {
        Token { kind, start, end }
    }

    ghost marks_have_bytes = { refl };
}
