//! The first fault of a P4 text.
use p4_parse::{LexFault, ParseFault};
use p4_resolve::KindFault;

/// The first fault of a P4 text.
#[derive(Clone, Copy, Debug, Drop)]
pub enum P4Fault {
    /// At this byte begins no token.
    Lex(u32),
    /// The tokens before this one begin some text, and those up to and with it begin none.
    Unexpected(u32),
    /// More brackets are open at this token, or more operators have come, than may be.
    TooDeep(u32),
    /// What begins at this token is the first declaration or statement, in the order of the text, that breaks a kind rule.
    Kind(u32),
    NoMemory,
}

impl From<LexFault> for P4Fault {
    ghost use Rattle.std.specs.Prelude.{◌≡◌};
    ghost use Rattle.p4_read.specs.FirstFault.{of_lex};

    ghost from_gives = { λ fault given. given ≡ of_lex fault };

    fn from(fault: LexFault) -> P4Fault {
        match fault {
            LexFault::NoToken(at) => P4Fault::Lex(at),
            LexFault::NoMemory => P4Fault::NoMemory,
        }
    }
}

impl From<ParseFault> for P4Fault {
    ghost use Rattle.std.specs.Prelude.{◌≡◌};
    ghost use Rattle.p4_read.specs.FirstFault.{of_parse};

    ghost from_gives = { λ fault given. given ≡ of_parse fault };

    fn from(fault: ParseFault) -> P4Fault {
        match fault {
            ParseFault::Unexpected(token) => P4Fault::Unexpected(token),
            ParseFault::TooDeep(token) => P4Fault::TooDeep(token),
            ParseFault::NoMemory => P4Fault::NoMemory,
        }
    }
}

impl From<KindFault> for P4Fault {
    ghost use Rattle.std.specs.Prelude.{◌≡◌};
    ghost use Rattle.p4_read.specs.FirstFault.{of_kind};

    ghost from_gives = { λ fault given. given ≡ of_kind fault };

    fn from(fault: KindFault) -> P4Fault {
        match fault {
            KindFault::Kind(token) => P4Fault::Kind(token),
            KindFault::NoMemory => P4Fault::NoMemory,
        }
    }
}
