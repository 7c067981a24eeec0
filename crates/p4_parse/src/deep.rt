//! Which tokens of P4 texts count for the depth of a text.
ghost use Rattle.std.specs.Prelude.{◌≡◌};
ghost use Rattle.cocoon_num.specs.Tokens.{is_kind_of};
ghost use Rattle.p4_ir.specs.P4Text.{p4_bounds};
ghost use Rattle.p4_parse.specs.Phrases.{mark_kind};
ghost use Rattle.parsing.specs.Depth.{closing, opening, restarting};

use crate::{Mark, Token, TokenKind};
use parsing::Depth;

/// P4 texts.
pub struct P4;

impl Depth for P4 {
    ghost use Rattle.p4_ir.specs.P4Text.{p4_bounds};
    ghost use Rattle.p4_parse.specs.Phrases.{kind_at as kind_in};

    type Token = Token;

    ghost kind_at = { kind_in };

    ghost bounds = { p4_bounds };

    fn most_open() -> u32 {
        512
    }

    fn most_operators() -> u32 {
        1024
    }

    fn opens(token: &Token) -> bool {
        match token.kind {
            TokenKind::Mark(mark) => opens(mark),
            _ => false,
        }
    }

    fn closes(token: &Token) -> bool {
        match token.kind {
            TokenKind::Mark(mark) => closes(mark),
            _ => false,
        }
    }

    fn restarts(token: &Token) -> bool {
        match token.kind {
            TokenKind::Mark(mark) => restarts(mark),
            _ => false,
        }
    }

    fn is_operator(token: &Token) -> bool {
        match token.kind {
            TokenKind::Mark(mark) => is_operator(mark),
            _ => false,
        }
    }
}

fn opens(mark: Mark) -> bool
    ensures { result ≡ is_kind_of opening (mark_kind mark) }
{
    match mark {
        Mark::OpenParen | Mark::OpenBracket | Mark::OpenBrace => true,
        _ => false,
    }
}

fn closes(mark: Mark) -> bool
    ensures { result ≡ is_kind_of closing (mark_kind mark) }
{
    match mark {
        Mark::CloseParen | Mark::CloseBracket | Mark::CloseBrace => true,
        _ => false,
    }
}

fn restarts(mark: Mark) -> bool
    ensures { result ≡ is_kind_of restarting (mark_kind mark) }
{
    match mark {
        Mark::Semicolon | Mark::OpenBrace | Mark::CloseBrace => true,
        _ => false,
    }
}

fn is_operator(mark: Mark) -> bool
    ensures { result ≡ is_kind_of p4_bounds.operators (mark_kind mark) }
{
    match mark {
        Mark::Plus
        | Mark::Minus
        | Mark::And
        | Mark::Or
        | Mark::Xor
        | Mark::PlusPlus
        | Mark::Flip
        | Mark::Not
        | Mark::Equal
        | Mark::Unequal
        | Mark::Less
        | Mark::LessEqual
        | Mark::Greater
        | Mark::GreaterEqual
        | Mark::Both
        | Mark::Either
        | Mark::Question
        | Mark::Colon
        | Mark::OpenBracket => true,
        _ => false,
    }
}
