//! The tokens of P4 texts, as the lexer makes them.
use crate::spellings::mark;
use crate::token::{Token, TokenKind};
use lexing::{Lexicon, Number};

/// The lexicon of P4 texts.
pub struct P4;

impl Lexicon for P4 {
    ghost use Rattle.std.specs.Prelude.{refl};
    ghost use Rattle.p4_ir.specs.P4Text.{p4_lexicon};
    ghost use Rattle.p4_parse.specs.Kinds.{kind_of as kind_in, token_of as token_in};

    type Kind = TokenKind;

    type Token = Token;

    ghost lexicon = { p4_lexicon };

    ghost kind_of = { kind_in };

    ghost token_of = { token_in };

    fn widest() -> u8 {
        128
    }

    #[tactic(auto, using(crate::proofs::Names::is_name))]
    fn run(_: &[u8]) -> TokenKind {
        TokenKind::Name
    }

    fn mark(text: &[u8]) -> Option<(TokenKind, usize)> {
        let mark = mark(text)?;
        Some((TokenKind::Mark(mark), mark.text().len()))
    }

    fn number(number: Number) -> TokenKind {
        match number {
            Number::Plain(value) => TokenKind::Plain(value),
            Number::Literal(bits) => TokenKind::Literal(bits),
        }
    }

    fn end() -> TokenKind {
        TokenKind::End
    }

    fn token(kind: TokenKind, start: u32, end: u32) -> Token {
        Token { kind, start, end }
    }

    ghost marks_have_bytes = { refl };
}
