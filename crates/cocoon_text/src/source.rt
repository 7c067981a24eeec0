//! Tokens of a text, by their indices.
ghost use Rattle.std.specs.Prelude.{◌≡◌, ◌<◌, ◌≤◌, ◌^◌, ℕ, List, IfOk, IsSome, Some, option_map, length, slice_get, true};
ghost use Rattle.cocoon_text.specs.Kinds.{keyword_text, kind_of, mark_text};
ghost use Rattle.cocoon_syntax.specs.TreeOf.{binary_of};
ghost use Rattle.cocoon_num.specs.Reads.{of_cmp, of_expr};
ghost use Rattle.cocoon_text.specs.ExprPhrases.{level_of};
ghost use Rattle.parsing.specs.PlainParser as parser;
ghost use Rattle.cocoon_text.specs.Agrees.{LiteralAt, NameAt, NumberAt, TokenAt, kind_at, kinds_at, is_name_token, literal_of, name_bytes};

use crate::operators::{Chain, chained, compared, implied};
use crate::token::{Keyword, Mark, Token, TokenKind};
use cocoon_num::{Bits, NoMemory, Text};
use cocoon_syntax::{BinaryOp, Name};
use parsing::{Stop, bytes_between};
use std::alloc::Global;
use std::marker::Model;

/// Tokens of a text that are read.
#[derive(Drop)]
pub struct Source<'a> {
    text: &'a [u8],
    tokens: &'a [Token],
}

impl<'a> Model for Source<'a> {
    ghost use Rattle.std.specs.Prelude.{◌≤◌, ◌^◌, List, length};
    ghost use Rattle.cocoon_num.specs.Tokens.{Kind};
    ghost use Rattle.cocoon_text.specs.Agrees.{kinds_at};

    ghost Value = { List Kind };

    ghost view = { λ source. kinds_at source.text.now source.tokens.now };

    ghost invariant = { λ source. length source.tokens.now ≤ 2 ^ 32 };
}

impl<'a> Source<'a> {
    /// The tokens, of which no more than these are read.
    pub fn new(text: &'a [u8], tokens: &'a [Token]) -> Source<'a>
        requires { length tokens.now ≤ 2 ^ 32 }
        ensures { result ≡ kinds_at text.now tokens.now }
    {
        Source { text, tokens }
    }

    /// The index of a token, as trees have it.
    pub fn token_index(&self, pos: usize) -> u32
        requires { pos < length self.now }
        ensures { result ≡ pos }
    {
        prove!(pos < self.tokens.len());
        pos as u32
    }

    /// Whether this mark stands at a token index.
    pub fn is_mark(&self, pos: usize, mark: Mark) -> bool
        ensures is { result ≡ parser.is_mark (mark_text mark) (slice_get self.now pos) }
        ensures within { result ≡ true → (pos < length self.now) × (length self.now ≤ 2 ^ 32) }
    {
        match self.tokens.get(pos) {
            Some(token) => is_mark(token.kind, mark),
            None => false,
        }
    }

    /// Whether this reserved word stands at a token index.
    pub fn is_keyword(&self, pos: usize, keyword: Keyword) -> bool
        ensures is { result ≡ parser.is_keyword (keyword_text keyword) (slice_get self.now pos) }
        ensures within { result ≡ true → (pos < length self.now) × (length self.now ≤ 2 ^ 32) }
    {
        match self.tokens.get(pos) {
            Some(token) => is_keyword(token.kind, keyword),
            None => false,
        }
    }

    /// Whether the text ends at a token index.
    pub fn is_end(&self, pos: usize) -> bool
        ensures { result ≡ parser.is_finish (slice_get self.now pos) }
    {
        match self.tokens.get(pos) {
            Some(token) => is_end(token.kind),
            None => false,
        }
    }

    /// The number without a width at a token index.
    pub fn plain(&self, pos: usize) -> Option<u32>
        ensures is { result ≡ parser.plain_of (slice_get self.now pos) }
        ensures within { IsSome result → (pos < length self.now) × (length self.now ≤ 2 ^ 32) }
    {
        match self.tokens.get(pos) {
            Some(token) => plain_of(token.kind),
            None => None,
        }
    }

    /// Whether a name stands at a token index.
    pub fn is_name(&self, pos: usize) -> bool
        ensures { result ≡ is_name_token (slice_get self.now pos) }
    {
        match self.tokens.get(pos) {
            Some(token) => is_name(token.kind),
            None => false,
        }
    }

    /// The operator of a chain at a token index.
    pub fn chained(&self, pos: usize, level: Chain) -> Option<BinaryOp>
        ensures is { option_map binary_of result ≡
            parser.op_at (level_of level) (slice_get self.now pos) }
        ensures within { IsSome result → (pos < length self.now) × (length self.now ≤ 2 ^ 32) }
    {
        match self.tokens.get(pos) {
            Some(token) => chained(token.kind, level),
            None => None,
        }
    }

    /// The operator of a comparison at a token index.
    pub fn compared(&self, pos: usize) -> Option<BinaryOp>
        ensures is { option_map binary_of result ≡ parser.op_at of_cmp (slice_get self.now pos) }
        ensures within { IsSome result → (pos < length self.now) × (length self.now ≤ 2 ^ 32) }
    {
        match self.tokens.get(pos) {
            Some(token) => compared(token.kind),
            None => None,
        }
    }

    /// The implication at a token index.
    pub fn implied(&self, pos: usize) -> Option<BinaryOp>
        ensures is { option_map binary_of result ≡ parser.op_at of_expr (slice_get self.now pos) }
        ensures within { IsSome result → (pos < length self.now) × (length self.now ≤ 2 ^ 32) }
    {
        match self.tokens.get(pos) {
            Some(token) => implied(token.kind),
            None => None,
        }
    }

    /// Demands this mark at a token index.
    pub fn expect(&self, pos: usize, mark: Mark) -> Result<(), Stop>
        ensures is { TokenAt pos (parser.is_mark (mark_text mark) (slice_get self.now pos)) result }
        ensures within { IfOk result (λ _. (pos < length self.now) × (length self.now ≤ 2 ^ 32)) }
    {
        if self.is_mark(pos, mark) {
            Ok(())
        } else {
            Err(Stop::Unexpected(pos))
        }
    }

    /// Demands this reserved word at a token index.
    pub fn expect_keyword(&self, pos: usize, keyword: Keyword) -> Result<(), Stop>
        ensures is { TokenAt
            pos (parser.is_keyword (keyword_text keyword) (slice_get self.now pos)) result }
        ensures within { IfOk result (λ _. (pos < length self.now) × (length self.now ≤ 2 ^ 32)) }
    {
        if self.is_keyword(pos, keyword) {
            Ok(())
        } else {
            Err(Stop::Unexpected(pos))
        }
    }

    /// The number without a width at a token index.
    pub fn number(&self, pos: usize) -> Result<u32, Stop>
        ensures is { NumberAt pos (slice_get self.now pos) result }
        ensures within { IfOk result (λ _. (pos < length self.now) × (length self.now ≤ 2 ^ 32)) }
    {
        match self.plain(pos) {
            Some(number) => Ok(number),
            None => Err(Stop::Unexpected(pos)),
        }
    }

    /// The number with a width at a token index.
    pub fn literal(&self, pos: usize) -> Option<Bits>
        ensures is { option_map literal_of result ≡ parser.literal_of (slice_get self.now pos) }
        ensures within { IsSome result → (pos < length self.now) × (length self.now ≤ 2 ^ 32) }
    {
        match self.tokens.get(pos) {
            Some(token) => bits_of(token.kind),
            None => None,
        }
    }

    /// Demands a number with a width at a token index.
    pub fn demand_literal(&self, pos: usize) -> Result<Bits, Stop>
        ensures is { LiteralAt pos (slice_get self.now pos) result }
        ensures within { IfOk result (λ _. (pos < length self.now) × (length self.now ≤ 2 ^ 32)) }
    {
        match self.literal(pos) {
            Some(bits) => Ok(bits),
            None => Err(Stop::Unexpected(pos)),
        }
    }

    /// The bytes of the name at a token index.
    pub fn name_bytes(&self, pos: usize) -> Option<&'a [u8]>
        ensures is { option_map (λ bytes. bytes.now) result ≡ name_bytes (slice_get self.now pos) }
        ensures within { IsSome result → (pos < length self.now) × (length self.now ≤ 2 ^ 32) }
    {
        match self.tokens.get(pos) {
            Some(token) => name_bytes(self.text, token),
            None => None,
        }
    }

    /// The name at a token index.
    pub fn name(&self, alloc: Global, pos: usize) -> Result<Name, Stop>
        ensures is { NameAt pos (slice_get self.now pos) result }
        ensures within { IfOk
            result (λ name. (pos < length self.now) × (length self.now ≤ 2 ^ 32)) }
    {
        match self.name_bytes(pos) {
            Some(bytes) => Ok(Name {
                at: pos as u32,
                text: Text::from(alloc, bytes)?,
            }),
            None => Err(Stop::Unexpected(pos)),
        }
    }
}

fn is_name(kind: TokenKind) -> bool
    ensures { (bytes : List ℕ) → result ≡ is_name_token (Some (kind_of kind bytes)) }
{
    match kind {
        TokenKind::Name => true,
        _ => false,
    }
}

fn is_mark(kind: TokenKind, wanted: Mark) -> bool
    ensures { (bytes : List ℕ)
        → result ≡ parser.is_mark (mark_text wanted) (Some (kind_of kind bytes)) }
{
    match kind {
        TokenKind::Mark(found) => found == wanted,
        _ => false,
    }
}

fn is_keyword(kind: TokenKind, wanted: Keyword) -> bool
    ensures { (bytes : List ℕ)
        → result ≡ parser.is_keyword (keyword_text wanted) (Some (kind_of kind bytes)) }
{
    match kind {
        TokenKind::Keyword(found) => found == wanted,
        _ => false,
    }
}

fn is_end(kind: TokenKind) -> bool
    ensures { (bytes : List ℕ) → result ≡ parser.is_finish (Some (kind_of kind bytes)) }
{
    match kind {
        TokenKind::End => true,
        _ => false,
    }
}

fn plain_of(kind: TokenKind) -> Option<u32>
    ensures { (bytes : List ℕ) → result ≡ parser.plain_of (Some (kind_of kind bytes)) }
{
    match kind {
        TokenKind::Plain(number) => Some(number),
        _ => None,
    }
}

fn bits_of(kind: TokenKind) -> Option<Bits>
    ensures { (bytes : List ℕ)
        → option_map literal_of result ≡ parser.literal_of (Some (kind_of kind bytes)) }
{
    match kind {
        TokenKind::Literal(bits) => Some(bits),
        _ => None,
    }
}

fn name_bytes<'a>(text: &'a [u8], token: &Token) -> Option<&'a [u8]>
    ensures { option_map (λ bytes. bytes.now) result ≡
        name_bytes (Some (kind_at text.now token.now)) }
{
    match token.kind {
        TokenKind::Name => Some(bytes_between(text, token.start, token.end)),
        _ => None,
    }
}
