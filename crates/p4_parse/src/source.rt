//! Tokens of a text, by their indices.
ghost use Rattle.std.specs.Prelude.{◌≡◌, ◌<◌, ◌≤◌, ◌+◌, ◌^◌, ℕ, List, [], ◌∷◌, IfOk, IsSome, Some, false, option_map, length, slice_get, true};
ghost use Rattle.cocoon_num.specs.Tokens.{a_name, finish, literal, mark as the_kind, plain};
ghost use Rattle.cocoon_num.specs.declared.bits.Bits.{Bits as CodeBits};
ghost use Rattle.p4_parse.specs.Kinds.{kind_of, mark_text};
ghost use Rattle.p4_texts.specs.Machine.{any_literal, any_name, any_plain, exactly, same_token, the_mark, the_word};
ghost use Rattle.p4_texts.specs.Reading.{is_end as is_the_end};
ghost use Rattle.p4_parse.specs.Phrases.{Fixed, NoName, Phrase, is_mark, is_word, kind_at, kinds_at, literal_in, literal_of, among, mark_in, name_in, plain_in, signs};
ghost use Rattle.p4_parse.specs.Pieces.{ends_at, has_end, is_some_literal, is_some_name, is_some_number, same_at};

use crate::{Mark, Token, TokenKind};
use cocoon_num::{Bits, Text};
use lexing::bytes::same_bytes;
use p4_ir::P4Binary;
use parsing::{Stop, bytes_between};
use std::alloc::Global;
use std::marker::Model;

/// Tokens of a text that are read.
#[derive(Drop)]
pub struct Source<'a> {
    text: &'a [u8],
    tokens: &'a [Token],
}

impl<'a> Model for Source<'a> {
    ghost use Rattle.std.specs.Prelude.{◌≤◌, ◌^◌, List, length};
    ghost use Rattle.cocoon_num.specs.Tokens.{Kind};
    ghost use Rattle.p4_parse.specs.Phrases.{kinds_at};

    ghost Value = { List Kind };

    ghost view = { λ source. kinds_at source.text.now source.tokens.now };

    ghost invariant = { λ source. length source.tokens.now ≤ 2 ^ 32 };
}

impl<'a> Source<'a> {
    /// The tokens, of which no more than these are read.
    pub fn new(text: &'a [u8], tokens: &'a [Token]) -> Source<'a>
        requires { length tokens.now ≤ 2 ^ 32 }
        ensures { result ≡ kinds_at text.now tokens.now }
    {
        Source { text, tokens }
    }

    /// Whether this mark stands at a token index.
    pub fn is_mark(&self, pos: usize, mark: Mark) -> bool
        ensures is { result ≡ is_mark (mark_text mark) (slice_get self.now pos) }
        ensures within { result ≡ true → (pos < length self.now) × (length self.now ≤ 2 ^ 32) }
    {
        match self.tokens.get(pos) {
            Some(token) => has_mark(token.kind, mark),
            None => false,
        }
    }

    /// Whether this word stands at a token index.
    pub fn is_word(&self, pos: usize, word: &str) -> bool
        ensures is { result ≡ is_word word.now (slice_get self.now pos) }
        ensures within { result ≡ true → (pos < length self.now) × (length self.now ≤ 2 ^ 32) }
    {
        match self.name_bytes(pos) {
            Some(bytes) => same_bytes(word.as_bytes(), bytes),
            None => false,
        }
    }

    /// The number without a width at a token index.
    pub fn plain(&self, pos: usize) -> Option<u32>
        ensures is { result ≡ plain_in (slice_get self.now pos) }
        ensures within { IsSome result → (pos < length self.now) × (length self.now ≤ 2 ^ 32) }
    {
        match self.tokens.get(pos) {
            Some(token) => plain_of(token.kind),
            None => None,
        }
    }

    /// The number with a width at a token index.
    pub fn literal(&self, pos: usize) -> Option<Bits>
        ensures is { option_map literal_of result ≡ literal_in (slice_get self.now pos) }
        ensures within { IsSome result → (pos < length self.now) × (length self.now ≤ 2 ^ 32) }
    {
        match self.tokens.get(pos) {
            Some(token) => bits_of(token.kind),
            None => None,
        }
    }

    /// The bytes of the name at a token index.
    pub fn name_bytes(&self, pos: usize) -> Option<&'a [u8]>
        ensures is { option_map (λ bytes. bytes.now) result ≡ name_in (slice_get self.now pos) }
        ensures within { IsSome result → (pos < length self.now) × (length self.now ≤ 2 ^ 32) }
    {
        match self.tokens.get(pos) {
            Some(token) => name_of(self.text, token),
            None => None,
        }
    }

    /// The mark at a token index.
    pub fn mark(&self, pos: usize) -> Option<Mark>
        ensures is { option_map mark_text result ≡ mark_in (slice_get self.now pos) }
        ensures within { IsSome result → (pos < length self.now) × (length self.now ≤ 2 ^ 32) }
    {
        match self.tokens.get(pos) {
            Some(token) => mark_of(token.kind),
            None => None,
        }
    }

    /// Whether a token is the one at an index of another source.
    pub fn is_same(&self, pos: usize, other: &Source, index: usize) -> bool
        ensures is { result ≡ same_at (slice_get other.now index) (slice_get self.now pos) }
        ensures within { result ≡ true → (pos < length self.now) × (length self.now ≤ 2 ^ 32) }
    {
        match self.tokens.get(pos) {
            Some(token) => other.has(index, self.text, token),
            None => false,
        }
    }

    /// Whether the token at an index is this one of a text.
    fn has(&self, index: usize, text: &[u8], token: &Token) -> bool
        ensures { result ≡
            same_at (slice_get self.now index) (Some (kind_at text.now token.now)) }
    {
        match self.tokens.get(index) {
            Some(wanted) => is_token(self.text, wanted, text, token),
            None => false,
        }
    }

    /// Whether the tokens end at an index: with the end of a text, or with the last of them.
    pub fn is_end(&self, pos: usize) -> bool
        ensures is { result ≡ ends_at (slice_get self.now pos) }
        ensures within { result ≡ false → (pos < length self.now) × (length self.now ≤ 2 ^ 32) }
    {
        match self.tokens.get(pos) {
            Some(token) => is_end(token.kind),
            None => true,
        }
    }

    /// Demands this mark at a token index, and gives the next index.
    pub fn expect(&self, pos: usize, mark: Mark) -> Result<usize, Stop>
        requires { pos ≤ length self.now }
        ensures { Fixed (the_mark (mark_text mark) ∷ []) (the_kind (mark_text mark) ∷ [])
            self.now pos result }
    {
        if self.is_mark(pos, mark) {
            Ok(pos + 1)
        } else {
            Err(Stop::Unexpected(pos))
        }
    }

    /// Demands this word at a token index, and gives the next index.
    pub fn expect_word(&self, pos: usize, word: &str) -> Result<usize, Stop>
        requires { pos ≤ length self.now }
        ensures { Fixed (the_word word.now ∷ []) (a_name word.now ∷ []) self.now pos result }
    {
        if self.is_word(pos, word) {
            Ok(pos + 1)
        } else {
            Err(Stop::Unexpected(pos))
        }
    }

    /// Whether the end of a text stands at a token index.
    fn has_end(&self, pos: usize) -> bool
        ensures is { result ≡ has_end (slice_get self.now pos) }
        ensures within { result ≡ true → (pos < length self.now) × (length self.now ≤ 2 ^ 32) }
    {
        match self.tokens.get(pos) {
            Some(token) => is_end(token.kind),
            None => false,
        }
    }

    /// Demands the end of a text at a token index, and gives the next index.
    pub fn expect_end(&self, pos: usize) -> Result<usize, Stop>
        requires { pos ≤ length self.now }
        ensures { Fixed (exactly finish ∷ []) (finish ∷ []) self.now pos result }
    {
        if self.has_end(pos) {
            Ok(pos + 1)
        } else {
            Err(Stop::Unexpected(pos))
        }
    }

    /// Demands a name at a token index.
    pub fn name(&self, alloc: Global, pos: usize) -> Result<(Text, usize), Stop>
        requires { pos ≤ length self.now }
        ensures phrase { Phrase (any_name ∷ []) (λ x ks. a_name x ∷ ks) self.now pos result }
        ensures no_name { NoName pos (slice_get self.now pos) result }
    {
        match self.name_bytes(pos) {
            Some(bytes) => Ok((Text::from(alloc, bytes)?, pos + 1)),
            None => Err(Stop::Unexpected(pos)),
        }
    }

    /// Demands a number without a width at a token index.
    pub fn number(&self, pos: usize) -> Result<(u32, usize), Stop>
        requires { pos ≤ length self.now }
        ensures { Phrase (any_plain ∷ []) (λ n ks. plain n ∷ ks) self.now pos result }
    {
        match self.plain(pos) {
            Some(number) => Ok((number, pos + 1)),
            None => Err(Stop::Unexpected(pos)),
        }
    }

    /// Demands a number with a width at a token index.
    pub fn bits(&self, pos: usize) -> Result<(Bits, usize), Stop>
        requires { pos ≤ length self.now }
        ensures { Phrase (any_literal ∷ []) (λ (b : CodeBits) ks. literal b.width b.value ∷ ks)
            self.now pos result }
    {
        match self.literal(pos) {
            Some(bits) => Ok((bits, pos + 1)),
            None => Err(Stop::Unexpected(pos)),
        }
    }
}

/// Whether a token of one text is that of another.
fn is_token(wanted_text: &[u8], wanted: &Token, text: &[u8], token: &Token) -> bool
    ensures { result ≡
        same_token (kind_at wanted_text.now wanted.now) (kind_at text.now token.now) }
{
    match wanted.kind {
        TokenKind::Name => is_name(
            bytes_between(wanted_text, wanted.start, wanted.end),
            name_of(text, token),
        ),
        TokenKind::Plain(number) => is_number(number, plain_of(token.kind)),
        TokenKind::Literal(bits) => is_literal(bits, bits_of(token.kind)),
        TokenKind::Mark(mark) => has_mark(token.kind, mark),
        TokenKind::End => is_end(token.kind),
    }
}

fn is_name(wanted: &[u8], found: Option<&[u8]>) -> bool
    ensures { result ≡ is_some_name wanted.now (option_map (λ bytes. bytes.now) found.entry) }
{
    match found {
        Some(bytes) => same_bytes(wanted, bytes),
        None => false,
    }
}

fn is_number(wanted: u32, found: Option<u32>) -> bool
    ensures { result ≡ is_some_number wanted found }
{
    match found {
        Some(number) => wanted == number,
        None => false,
    }
}

fn is_literal(wanted: Bits, found: Option<Bits>) -> bool
    ensures { result ≡ is_some_literal (literal_of wanted) (option_map literal_of found) }
{
    match found {
        Some(bits) => wanted.width == bits.width && wanted.value == bits.value,
        None => false,
    }
}

fn is_end(kind: TokenKind) -> bool
    ensures { (bytes : List ℕ) → result ≡ is_the_end (kind_of kind bytes) }
{
    match kind {
        TokenKind::End => true,
        _ => false,
    }
}

fn has_mark(kind: TokenKind, wanted: Mark) -> bool
    ensures { (bytes : List ℕ)
        → result ≡ is_mark (mark_text wanted) (Some (kind_of kind bytes)) }
{
    match kind {
        TokenKind::Mark(found) => found == wanted,
        _ => false,
    }
}

fn mark_of(kind: TokenKind) -> Option<Mark>
    ensures { (bytes : List ℕ) → option_map mark_text result ≡ mark_in (Some (kind_of kind bytes)) }
{
    match kind {
        TokenKind::Mark(found) => Some(found),
        _ => None,
    }
}

fn plain_of(kind: TokenKind) -> Option<u32>
    ensures { (bytes : List ℕ) → result ≡ plain_in (Some (kind_of kind bytes)) }
{
    match kind {
        TokenKind::Plain(number) => Some(number),
        _ => None,
    }
}

fn bits_of(kind: TokenKind) -> Option<Bits>
    ensures { (bytes : List ℕ)
        → option_map literal_of result ≡ literal_in (Some (kind_of kind bytes)) }
{
    match kind {
        TokenKind::Literal(bits) => Some(bits),
        _ => None,
    }
}

fn name_of<'a>(text: &'a [u8], token: &Token) -> Option<&'a [u8]>
    ensures { option_map (λ bytes. bytes.now) result ≡
        name_in (Some (kind_at text.now token.now)) }
{
    match token.kind {
        TokenKind::Name => Some(bytes_between(text, token.start, token.end)),
        _ => None,
    }
}

/// The operator that a mark is.
pub fn operation(mark: Mark) -> Option<P4Binary>
    ensures { result ≡ among signs (mark_text mark) }
{
    match mark {
        Mark::Plus => Some(P4Binary::Add),
        Mark::Minus => Some(P4Binary::Sub),
        Mark::And => Some(P4Binary::BitAnd),
        Mark::Or => Some(P4Binary::BitOr),
        Mark::Xor => Some(P4Binary::BitXor),
        Mark::PlusPlus => Some(P4Binary::Concat),
        Mark::Equal => Some(P4Binary::Equal),
        Mark::Unequal => Some(P4Binary::Unequal),
        Mark::Less => Some(P4Binary::Less),
        Mark::LessEqual => Some(P4Binary::LessEqual),
        Mark::Greater => Some(P4Binary::Greater),
        Mark::GreaterEqual => Some(P4Binary::GreaterEqual),
        Mark::Both => Some(P4Binary::And),
        Mark::Either => Some(P4Binary::Or),
        _ => None,
    }
}
