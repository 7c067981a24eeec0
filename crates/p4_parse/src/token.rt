//! Tokens. Their kinds follow "The text" in docs/FORMATS.md. No word is reserved.
ghost use Rattle.std.specs.Prelude.{◌≡◌};
ghost use Rattle.p4_parse.specs.Kinds.{mark_text};

use cocoon_num::Bits;

/// A mark.
#[derive(Clone, Copy, Debug, Drop, PartialEq, Eq)]
pub enum Mark {
    /// `#include <core.p4>`
    Include,
    /// `<=`
    LessEqual,
    /// `>=`
    GreaterEqual,
    /// `==`
    Equal,
    /// `!=`
    Unequal,
    /// `++`
    PlusPlus,
    /// `&&`
    Both,
    /// `||`
    Either,
    /// `{`
    OpenBrace,
    /// `}`
    CloseBrace,
    /// `(`
    OpenParen,
    /// `)`
    CloseParen,
    /// `[`
    OpenBracket,
    /// `]`
    CloseBracket,
    /// `<`
    Less,
    /// `>`
    Greater,
    /// `=`
    Assign,
    /// `+`
    Plus,
    /// `-`
    Minus,
    /// `&`
    And,
    /// `|`
    Or,
    /// `^`
    Xor,
    /// `~`
    Flip,
    /// `!`
    Not,
    /// `,`
    Comma,
    /// `;`
    Semicolon,
    /// `:`
    Colon,
    /// `.`
    Dot,
    /// `?`
    Question,
}

impl Mark {
    /// How it is written.
    pub fn text(self) -> &'static str
        ensures { result.now ≡ mark_text self }
    {
        match self {
            Mark::Include => "#include <core.p4>",
            Mark::LessEqual => "<=",
            Mark::GreaterEqual => ">=",
            Mark::Equal => "==",
            Mark::Unequal => "!=",
            Mark::PlusPlus => "++",
            Mark::Both => "&&",
            Mark::Either => "||",
            Mark::OpenBrace => "{",
            Mark::CloseBrace => "}",
            Mark::OpenParen => "(",
            Mark::CloseParen => ")",
            Mark::OpenBracket => "[",
            Mark::CloseBracket => "]",
            Mark::Less => "<",
            Mark::Greater => ">",
            Mark::Assign => "=",
            Mark::Plus => "+",
            Mark::Minus => "-",
            Mark::And => "&",
            Mark::Or => "|",
            Mark::Xor => "^",
            Mark::Flip => "~",
            Mark::Not => "!",
            Mark::Comma => ",",
            Mark::Semicolon => ";",
            Mark::Colon => ":",
            Mark::Dot => ".",
            Mark::Question => "?",
        }
    }
}

/// What a token is.
#[derive(Clone, Copy, Debug, Drop, PartialEq, Eq)]
pub enum TokenKind {
    /// A name, whose bytes are those of the text from the token's start to its end.
    Name,
    /// A number without a width, below 2^32.
    Plain(u32),
    /// A number with its width.
    Literal(Bits),
    Mark(Mark),
    /// The end of the text.
    End,
}

/// A token, from the offset of its first byte up to the offset after its last.
#[derive(Clone, Copy, Debug, Drop, PartialEq, Eq)]
pub struct Token {
    pub kind: TokenKind,
    pub start: u32,
    pub end: u32,
}
