//! Faults of texts, with their positions.
ghost use Rattle.std.specs.Prelude.{◌≡◌};
ghost use Rattle.cocoon_text.specs.TextFaults.{kind_name};

/// What is wrong with a text.
#[derive(Clone, Copy, Debug, Drop, PartialEq, Eq)]
pub enum FaultKind {
    /// A byte that begins no token.
    BadByte,
    /// A run of letters, digits and `_` that begins with a digit and is no number.
    BadNumber,
    /// A comment `/*` without its end.
    OpenComment,
    /// The tokens before this one begin some text, and those up to and with it begin none.
    Unexpected,
    /// More brackets are open here, or more operators have come, than may be.
    TooDeep,
}

impl FaultKind {
    /// The name in a report.
    pub fn name(self) -> &'static str
        ensures { result.now ≡ kind_name self }
    {
        match self {
            FaultKind::BadByte => "BadByte",
            FaultKind::BadNumber => "BadNumber",
            FaultKind::OpenComment => "OpenComment",
            FaultKind::Unexpected => "Unexpected",
            FaultKind::TooDeep => "TooDeep",
        }
    }
}

/// A fault of a text, with the line and the column, both from 1, of its first byte. A column counts bytes.
#[derive(Clone, Copy, Debug, Drop, PartialEq, Eq)]
pub struct TextFault {
    pub kind: FaultKind,
    pub line: u32,
    pub column: u32,
}

/// Why a text has no tree.
#[derive(Clone, Copy, Debug, Drop, PartialEq, Eq)]
pub enum Unread {
    Faulty(TextFault),
    NoMemory,
}
