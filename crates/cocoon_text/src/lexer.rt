//! The tokens of a text, or its first fault.
ghost use Rattle.std.specs.Prelude.{All, ◌≡◌, ◌<◌, ◌^◌, IfErr, IfOk, Ok, length, map};
ghost use Rattle.cocoon_num.specs.Tokens.{language, lex as tokens_of};
ghost use Rattle.cocoon_text.specs.Kinds.{HasFault, IsSpelled, StandsIn, token_of};

use crate::language::Language;
use crate::token::Token;
use lexing::FirstFault;
use std::alloc::Global;

/// The first fault of a text, with the offset of its first byte.
#[derive(Clone, Copy, Debug, Drop, PartialEq, Eq)]
pub enum LexFault {
    /// A byte that begins no token.
    BadByte(u32),
    /// A run of letters, digits and `_` that begins with a digit and is no number.
    BadNumber(u32),
    /// A comment `/*` without its end.
    OpenComment(u32),
    NoMemory,
}

impl From<FirstFault> for LexFault {
    ghost use Rattle.std.specs.Prelude.{◌≡◌};
    ghost use Rattle.cocoon_text.specs.LexFaults.{fault_of};

    ghost from_gives = { λ first fault. fault ≡ fault_of first };

    fn from(first: FirstFault) -> LexFault {
        match first {
            FirstFault::BadByte(at) => LexFault::BadByte(at),
            FirstFault::BadNumber(at) => LexFault::BadNumber(at),
            FirstFault::OpenComment(at) => LexFault::OpenComment(at),
            FirstFault::NoMemory => LexFault::NoMemory,
        }
    }
}

/// The tokens of a text, with one `End` at its length, or the first fault.
pub fn lex(alloc: Global, text: &[u8]) -> Result<Vec<Token>, LexFault>
    requires { length text.now < 2 ^ 32 }
    ensures ok { IfOk result (λ v.
        tokens_of language text.now ≡ Ok (map (token_of text.now) v.items)) }
    ensures offsets { IfOk result (λ v. All (StandsIn text.now) v.items) }
    ensures names { IfOk result (λ v. All (IsSpelled text.now) v.items) }
    ensures fault { IfErr result (λ f. HasFault text.now f) }
{
    Ok(lexing::lex::<Language>(alloc, text)?)
}
