//! The reserved words and the marks, and which of them stands in a text.
ghost use Rattle.std.specs.Prelude.{◌≡◌, option_map};
ghost use Rattle.cocoon_num.specs.Tokens as tokens;
ghost use Rattle.cocoon_text.specs.Kinds.{kind_of, mark_text};
ghost use Rattle.lexing.specs.Prefixes.{BeginsWithLetter};

use crate::token::{Keyword, Mark, TokenKind};
use lexing::bytes::same_bytes;
use lexing::{Spelled, first_beginning, first_same};

const KEYWORDS: [Keyword; 27] = [
    Keyword::Packet,
    Keyword::Header,
    Keyword::Function,
    Keyword::Assume,
    Keyword::Role,
    Keyword::Host,
    Keyword::Switch,
    Keyword::Refine,
    Keyword::Within,
    Keyword::Ports,
    Keyword::Let,
    Keyword::If,
    Keyword::Else,
    Keyword::Filter,
    Keyword::Havoc,
    Keyword::Fork,
    Keyword::Send,
    Keyword::Pkt,
    Keyword::Bit,
    Keyword::Bool,
    Keyword::True,
    Keyword::False,
    Keyword::And,
    Keyword::Or,
    Keyword::Not,
    Keyword::Default,
    Keyword::Define,
];

/// A longer mark stands before its beginnings.
const MARKS: [Mark; 28] = [
    Mark::Mask,
    Mark::LessEqual,
    Mark::GreaterEqual,
    Mark::Equal,
    Mark::Unequal,
    Mark::Implies,
    Mark::PlusPlus,
    Mark::OpenBrace,
    Mark::CloseBrace,
    Mark::OpenParen,
    Mark::CloseParen,
    Mark::OpenBracket,
    Mark::CloseBracket,
    Mark::Less,
    Mark::Greater,
    Mark::Assign,
    Mark::Plus,
    Mark::Minus,
    Mark::And,
    Mark::Or,
    Mark::Xor,
    Mark::Flip,
    Mark::Comma,
    Mark::Semicolon,
    Mark::Colon,
    Mark::Dot,
    Mark::Question,
    Mark::Any,
];

impl Spelled for Keyword {
    ghost use Rattle.cocoon_text.specs.Kinds.{keyword_text};

    ghost text_of = { keyword_text };

    fn spelling(self) -> &'static str {
        self.text()
    }
}

impl Spelled for Mark {
    ghost use Rattle.cocoon_text.specs.Kinds.{mark_text};

    ghost text_of = { mark_text };

    fn spelling(self) -> &'static str {
        self.text()
    }
}

/// The longest mark with which a text begins.
pub fn mark(text: &[u8]) -> Option<Mark>
    ensures { option_map mark_text result ≡ tokens.beginning tokens.language.marks text.now }
{
    first_beginning(&MARKS, text)
}

/// What a run of letters, digits and `_` that begins with a letter is.
pub fn run_kind(run: &[u8]) -> TokenKind
    requires { BeginsWithLetter run.now }
    ensures { kind_of result run.now ≡ tokens.run_kind tokens.language run.now }
{
    if same_bytes(b"_", run) {
        return TokenKind::Mark(Mark::Any);
    }
    match first_same(&KEYWORDS, run) {
        Some(keyword) => TokenKind::Keyword(keyword),
        None => TokenKind::Name,
    }
}
