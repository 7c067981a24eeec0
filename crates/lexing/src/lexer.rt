//! The tokens of a text, or its first fault.
ghost use Rattle.std.specs.Prelude.{All, ◌≡◌, ◌<◌, ◌≤◌, ◌^◌, IfErr, IfOk, Ok, drop, length, map};
ghost use Rattle.cocoon_num.specs.Tokens.{lex as tokens_of};
ghost use Rattle.lexing.specs.Lexed.{HasFault, IsSpelled, StandsIn};

use crate::lexicon::Lexicon;
use crate::prefixes::{Prefix, read_prefix};
use std::alloc::{AllocFailed, Global};

/// The first fault of a text, with the offset of its first byte.
#[derive(Clone, Copy, Debug, Drop, PartialEq, Eq)]
pub enum FirstFault {
    /// A byte that begins no token.
    BadByte(u32),
    /// A run of letters, digits and `_` that begins with a digit and is no number.
    BadNumber(u32),
    /// A comment `/*` without its end.
    OpenComment(u32),
    NoMemory,
}

impl<T: Drop> From<AllocFailed<T>> for FirstFault {
    ghost use Rattle.std.specs.Prelude.{◌≡◌};
    ghost use Rattle.lexing.specs.declared.lexer.FirstFault.TheVariants.{NoMemory};

    ghost from_gives = { λ _ fault. fault ≡ NoMemory };

    fn from(_: AllocFailed<T>) -> FirstFault {
        FirstFault::NoMemory
    }
}

/// The tokens of a text, with one at its end, or the first fault.
pub fn lex<L: Lexicon>(alloc: Global, text: &[u8]) -> Result<Vec<L::Token>, FirstFault>
    requires { length text.now < 2 ^ 32 }
    ensures ok { IfOk result (λ v.
        tokens_of L.lexicon text.now ≡ Ok (map (L.token_of text.now) v.items)) }
    ensures offsets { IfOk result
        (λ v. All (λ t. StandsIn text.now (L.token_of text.now t)) v.items) }
    ensures names { IfOk result
        (λ v. All (λ t. IsSpelled ((L.token_of text.now t).kind)) v.items) }
    ensures fault { IfErr result (λ f. HasFault L.lexicon text.now f) }
{
    let mut tokens = Vec::new(alloc);
    let mut at = 0;
    while at < text.len() {
        let start = at as u32;
        match read_prefix::<L>(rest(text, at)) {
            Prefix::Gap(size) => at += size,
            Prefix::Piece(kind, size) => {
                at += size;
                tokens.push(L::token(kind, start, at as u32))?;
            }
            Prefix::Faulty(fault) => return Err(fault.at(start)),
        }
    }
    let end = at as u32;
    tokens.push(L::token(L::end(), end, end))?;
    Ok(tokens)
}

/// The bytes from an offset on.
fn rest(text: &[u8], at: usize) -> &[u8]
    requires { at ≤ length text.now }
    ensures { result.now ≡ drop at text.now }
{
    &text[at..]
}
