//! Tokens. Their kinds follow "Tokens" in docs/LANGUAGE.md.
ghost use Rattle.std.specs.Prelude.{◌≡◌};
ghost use Rattle.cocoon_text.specs.Kinds.{keyword_text, mark_text};

use cocoon_num::Bits;

/// A reserved word.
#[derive(Clone, Copy, Debug, Drop, PartialEq, Eq)]
pub enum Keyword {
    Packet,
    Header,
    Function,
    Assume,
    Role,
    Host,
    Switch,
    Refine,
    Within,
    Ports,
    Let,
    If,
    Else,
    Filter,
    Havoc,
    Fork,
    Send,
    Pkt,
    Bit,
    Bool,
    True,
    False,
    And,
    Or,
    Not,
    Default,
    Define,
}

impl Keyword {
    /// How it is written.
    pub fn text(self) -> &'static str
        ensures { result.now ≡ keyword_text self }
    {
        match self {
            Keyword::Packet => "packet",
            Keyword::Header => "header",
            Keyword::Function => "function",
            Keyword::Assume => "assume",
            Keyword::Role => "role",
            Keyword::Host => "host",
            Keyword::Switch => "switch",
            Keyword::Refine => "refine",
            Keyword::Within => "within",
            Keyword::Ports => "ports",
            Keyword::Let => "let",
            Keyword::If => "if",
            Keyword::Else => "else",
            Keyword::Filter => "filter",
            Keyword::Havoc => "havoc",
            Keyword::Fork => "fork",
            Keyword::Send => "send",
            Keyword::Pkt => "pkt",
            Keyword::Bit => "bit",
            Keyword::Bool => "bool",
            Keyword::True => "true",
            Keyword::False => "false",
            Keyword::And => "and",
            Keyword::Or => "or",
            Keyword::Not => "not",
            Keyword::Default => "default",
            Keyword::Define => "define",
        }
    }
}

/// A mark.
#[derive(Clone, Copy, Debug, Drop, PartialEq, Eq)]
pub enum Mark {
    /// `{`
    OpenBrace,
    /// `}`
    CloseBrace,
    /// `(`
    OpenParen,
    /// `)`
    CloseParen,
    /// `[`
    OpenBracket,
    /// `]`
    CloseBracket,
    /// `<`
    Less,
    /// `>`
    Greater,
    /// `<=`
    LessEqual,
    /// `>=`
    GreaterEqual,
    /// `==`
    Equal,
    /// `!=`
    Unequal,
    /// `=`
    Assign,
    /// `=>`
    Implies,
    /// `+`
    Plus,
    /// `++`
    PlusPlus,
    /// `-`
    Minus,
    /// `&`
    And,
    /// `|`
    Or,
    /// `^`
    Xor,
    /// `~`
    Flip,
    /// `,`
    Comma,
    /// `;`
    Semicolon,
    /// `:`
    Colon,
    /// `.`
    Dot,
    /// `?`
    Question,
    /// `&&&`
    Mask,
    /// `_`
    Any,
}

impl Mark {
    /// How it is written.
    pub fn text(self) -> &'static str
        ensures { result.now ≡ mark_text self }
    {
        match self {
            Mark::OpenBrace => "{",
            Mark::CloseBrace => "}",
            Mark::OpenParen => "(",
            Mark::CloseParen => ")",
            Mark::OpenBracket => "[",
            Mark::CloseBracket => "]",
            Mark::Less => "<",
            Mark::Greater => ">",
            Mark::LessEqual => "<=",
            Mark::GreaterEqual => ">=",
            Mark::Equal => "==",
            Mark::Unequal => "!=",
            Mark::Assign => "=",
            Mark::Implies => "=>",
            Mark::Plus => "+",
            Mark::PlusPlus => "++",
            Mark::Minus => "-",
            Mark::And => "&",
            Mark::Or => "|",
            Mark::Xor => "^",
            Mark::Flip => "~",
            Mark::Comma => ",",
            Mark::Semicolon => ";",
            Mark::Colon => ":",
            Mark::Dot => ".",
            Mark::Question => "?",
            Mark::Mask => "&&&",
            Mark::Any => "_",
        }
    }
}

/// What a token is.
#[derive(Clone, Copy, Debug, Drop, PartialEq, Eq)]
pub enum TokenKind {
    /// A name, whose bytes are those of the text from the token's start to its end.
    Name,
    Keyword(Keyword),
    /// A number without a width, below 2^32.
    Plain(u32),
    /// A number with its width.
    Literal(Bits),
    Mark(Mark),
    /// The end of the text.
    End,
}

/// A token, from the offset of its first byte up to the offset after its last.
#[derive(Clone, Copy, Debug, Drop, PartialEq, Eq)]
pub struct Token {
    pub kind: TokenKind,
    pub start: u32,
    pub end: u32,
}
