//! The tree of a whole text, or its first fault.
ghost use Rattle.std.specs.Prelude.{All, ◌≡◌, ◌<◌, ◌≤◌, ◌^◌, ◌⊎◌, IfErr, IfOk, Ok, length, map};
ghost use Rattle.cocoon_num.specs.Reads.{Reads, ReadsDefs};
ghost use Rattle.cocoon_num.specs.FirstFaults.{BeginsDefs, BeginsDesign};
ghost use Rattle.cocoon_num.specs.Tokens.{kinds, language, lex as tokens_of};
ghost use Rattle.cocoon_text.specs.Kinds.{HasFault, StandsIn, token_of};
ghost use Rattle.cocoon_text.specs.Position.{column_of, line_of};
ghost use Rattle.cocoon_text.specs.ParseFaults.{IsFirstFault};
ghost use Rattle.cocoon_syntax.specs.TreeOf.{design_of, entries_of};
ghost use Rattle.cocoon_text.specs.TextFaults.{IsUnread};
ghost use Rattle.cocoon_text.specs.OfToken.{OfToken};

use crate::byte_position::position_at;
use crate::fault::{FaultKind, TextFault, Unread};
use crate::lexer::{LexFault, lex};
use crate::token::Token;
use crate::whole_text::{parse_defs, parse_design};
use cocoon_syntax::{DefsText, Design};
use parsing::ParseFault;
use std::alloc::Global;

/// The tree of a text of a design, or the first fault.
pub fn read_design(alloc: Global, text: &[u8]) -> Result<Design, Unread>
    requires small { length text.now < 2 ^ 31 }
    ensures reads { IfOk result (λ d. Reads text.now (design_of d)) }
    ensures fault { IfErr result (IsUnread BeginsDesign text.now) }
{
    match lex(alloc, text) {
        Ok(tokens) => match parse_design(alloc, text, tokens.as_slice()) {
            Ok(design) => Ok(design),
            Err(fault) => Err(unparsed(text, tokens.as_slice(), fault)),
        },
        Err(fault) => Err(unlexed(text, fault)),
    }
}

/// The tree of a text of definitions, or the first fault.
pub fn read_defs(alloc: Global, text: &[u8]) -> Result<DefsText, Unread>
    requires small { length text.now < 2 ^ 31 }
    ensures reads { IfOk result (λ d. ReadsDefs text.now (entries_of d)) }
    ensures fault { IfErr result (IsUnread BeginsDefs text.now) }
{
    match lex(alloc, text) {
        Ok(tokens) => match parse_defs(alloc, text, tokens.as_slice()) {
            Ok(entries) => Ok(entries),
            Err(fault) => Err(unparsed(text, tokens.as_slice(), fault)),
        },
        Err(fault) => Err(unlexed(text, fault)),
    }
}

/// A fault that begins at this offset.
fn fault_at(text: &[u8], kind: FaultKind, offset: u32) -> TextFault
    requires small { length text.now < 2 ^ 31 }
    requires within { offset ≤ length text.now }
    ensures kind { result.kind ≡ kind }
    ensures line { result.line ≡ line_of text.now offset }
    ensures column { result.column ≡ column_of text.now offset }
{
    let (line, column) = position_at(text, offset);
    TextFault { kind, line, column }
}

/// A fault that begins with the token of this index.
fn fault_at_token(text: &[u8], tokens: &[Token], kind: FaultKind, index: u32) -> TextFault
    requires small { length text.now < 2 ^ 31 }
    requires offsets { All (StandsIn text.now) tokens.now }
    requires within { index < length tokens.now }
    ensures kind { result.kind ≡ kind }
    ensures line { OfToken tokens.now index (λ t. result.line ≡ line_of text.now t.start) }
    ensures column { OfToken tokens.now index (λ t. result.column ≡ column_of text.now t.start) }
{
    fault_at(text, kind, tokens[index as usize].start)
}

/// Why a text with this fault has no tree.
fn unlexed(text: &[u8], fault: LexFault) -> Unread
    requires small { length text.now < 2 ^ 31 }
    requires fault { HasFault text.now fault }
    ensures design { IsUnread BeginsDesign text.now result }
    ensures definitions { IsUnread BeginsDefs text.now result }
{
    match fault {
        LexFault::BadByte(at) => Unread::Faulty(fault_at(text, FaultKind::BadByte, at)),
        LexFault::BadNumber(at) => Unread::Faulty(fault_at(text, FaultKind::BadNumber, at)),
        LexFault::OpenComment(at) => Unread::Faulty(fault_at(text, FaultKind::OpenComment, at)),
        LexFault::NoMemory => Unread::NoMemory,
    }
}

/// Why a text whose tokens have this fault has no tree.
fn unparsed(text: &[u8], tokens: &[Token], fault: ParseFault) -> Unread
    requires small { length text.now < 2 ^ 31 }
    requires tokens { tokens_of language text.now ≡ Ok (map (token_of text.now) tokens.now) }
    requires offsets { All (StandsIn text.now) tokens.now }
    requires fault { IsFirstFault BeginsDesign (kinds (map (token_of text.now) tokens.now)) fault
        ⊎ IsFirstFault BeginsDefs (kinds (map (token_of text.now) tokens.now)) fault }
    ensures design { IsFirstFault BeginsDesign (kinds (map (token_of text.now) tokens.now)) fault
        → IsUnread BeginsDesign text.now result }
    ensures definitions { IsFirstFault BeginsDefs (kinds (map (token_of text.now) tokens.now)) fault
        → IsUnread BeginsDefs text.now result }
{
    match fault {
        ParseFault::Unexpected(index) => {
            Unread::Faulty(fault_at_token(text, tokens, FaultKind::Unexpected, index))
        }
        ParseFault::TooDeep(index) => {
            Unread::Faulty(fault_at_token(text, tokens, FaultKind::TooDeep, index))
        }
        ParseFault::NoMemory => Unread::NoMemory,
    }
}
