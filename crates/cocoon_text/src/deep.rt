//! Which tokens of designs and definitions count for the depth of a text.
ghost use Rattle.std.specs.Prelude.{◌≡◌};
ghost use Rattle.cocoon_num.specs.Tokens.{is_kind_of, language_bounds};
ghost use Rattle.cocoon_text.specs.Agrees.{keyword_kind, mark_kind};
ghost use Rattle.parsing.specs.Depth.{closing, opening, restarting};

use crate::token::{Keyword, Mark, Token, TokenKind};
use parsing::Depth;

/// Designs and definitions.
pub struct Language;

impl Depth for Language {
    ghost use Rattle.cocoon_num.specs.Tokens.{language_bounds};
    ghost use Rattle.cocoon_text.specs.Agrees.{kind_at as kind_in};

    type Token = Token;

    ghost kind_at = { kind_in };

    ghost bounds = { language_bounds };

    fn most_open() -> u32 {
        64
    }

    fn most_operators() -> u32 {
        128
    }

    fn opens(token: &Token) -> bool {
        match token.kind {
            TokenKind::Mark(mark) => opens(mark),
            _ => false,
        }
    }

    fn closes(token: &Token) -> bool {
        match token.kind {
            TokenKind::Mark(mark) => closes(mark),
            _ => false,
        }
    }

    fn restarts(token: &Token) -> bool {
        match token.kind {
            TokenKind::Mark(mark) => restarts(mark),
            _ => false,
        }
    }

    fn is_operator(token: &Token) -> bool {
        match token.kind {
            TokenKind::Mark(mark) => is_operator(mark),
            TokenKind::Keyword(keyword) => is_reserved_operator(keyword),
            _ => false,
        }
    }
}

fn opens(mark: Mark) -> bool
    ensures { result ≡ is_kind_of opening (mark_kind mark) }
{
    match mark {
        Mark::OpenParen | Mark::OpenBracket | Mark::OpenBrace => true,
        _ => false,
    }
}

fn closes(mark: Mark) -> bool
    ensures { result ≡ is_kind_of closing (mark_kind mark) }
{
    match mark {
        Mark::CloseParen | Mark::CloseBracket | Mark::CloseBrace => true,
        _ => false,
    }
}

fn restarts(mark: Mark) -> bool
    ensures { result ≡ is_kind_of restarting (mark_kind mark) }
{
    match mark {
        Mark::Semicolon | Mark::OpenBrace | Mark::CloseBrace => true,
        _ => false,
    }
}

fn is_operator(mark: Mark) -> bool
    ensures { result ≡ is_kind_of language_bounds.operators (mark_kind mark) }
{
    match mark {
        Mark::Plus
        | Mark::Minus
        | Mark::And
        | Mark::Or
        | Mark::Xor
        | Mark::PlusPlus
        | Mark::Flip
        | Mark::Equal
        | Mark::Unequal
        | Mark::Less
        | Mark::LessEqual
        | Mark::Greater
        | Mark::GreaterEqual
        | Mark::Implies
        | Mark::Question
        | Mark::Colon
        | Mark::OpenBracket => true,
        _ => false,
    }
}

fn is_reserved_operator(keyword: Keyword) -> bool
    ensures { result ≡ is_kind_of language_bounds.operators (keyword_kind keyword) }
{
    match keyword {
        Keyword::And | Keyword::Or | Keyword::Not => true,
        _ => false,
    }
}
