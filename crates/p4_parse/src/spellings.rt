//! The marks, and which of them stands in a text.
ghost use Rattle.std.specs.Prelude.{◌≡◌, option_map};
ghost use Rattle.cocoon_num.specs.Tokens as tokens;
ghost use Rattle.p4_ir.specs.P4Text.{p4_lexicon};
ghost use Rattle.p4_parse.specs.Kinds.{mark_text};

use crate::token::Mark;
use lexing::{Spelled, first_beginning};

/// A longer mark stands before its beginnings.
const MARKS: [Mark; 29] = [
    Mark::Include,
    Mark::LessEqual,
    Mark::GreaterEqual,
    Mark::Equal,
    Mark::Unequal,
    Mark::PlusPlus,
    Mark::Both,
    Mark::Either,
    Mark::OpenBrace,
    Mark::CloseBrace,
    Mark::OpenParen,
    Mark::CloseParen,
    Mark::OpenBracket,
    Mark::CloseBracket,
    Mark::Less,
    Mark::Greater,
    Mark::Assign,
    Mark::Plus,
    Mark::Minus,
    Mark::And,
    Mark::Or,
    Mark::Xor,
    Mark::Flip,
    Mark::Not,
    Mark::Comma,
    Mark::Semicolon,
    Mark::Colon,
    Mark::Dot,
    Mark::Question,
];

impl Spelled for Mark {
    ghost use Rattle.p4_parse.specs.Kinds.{mark_text};

    ghost text_of = { mark_text };

    fn spelling(self) -> &'static str {
        self.text()
    }
}

/// The longest mark with which a text begins.
pub fn mark(text: &[u8]) -> Option<Mark>
    ensures { option_map mark_text result ≡ tokens.beginning p4_lexicon.marks text.now }
{
    first_beginning(&MARKS, text)
}
