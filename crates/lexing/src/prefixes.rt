//! The prefix of a text that the lexer takes next: bytes of no token, or a token; or a fault.
ghost use Rattle.std.specs.Prelude.{◌≡◌, ◌<◌, ◌≤◌, codes, length, true};
ghost use Rattle.cocoon_num.specs.Tokens as tokens;
ghost use Rattle.lexing.specs.Prefixes.{BeginsWithLetter, Fits, first_fault, first_prefix, prefix_of};

use crate::bytes::{begins, comment_len, is_blank, is_digit, is_letter, len_before, run_len};
use crate::lexer::FirstFault;
use crate::lexicon::Lexicon;
use crate::numbers::read_number;

#[derive(Clone, Copy)]
pub enum Fault {
    Byte,
    Number,
    Comment,
}

impl Fault {
    pub fn at(self, offset: u32) -> FirstFault
        ensures { result ≡ first_fault self offset }
    {
        match self {
            Fault::Byte => FirstFault::BadByte(offset),
            Fault::Number => FirstFault::BadNumber(offset),
            Fault::Comment => FirstFault::OpenComment(offset),
        }
    }
}

#[derive(Drop)]
pub enum Prefix<K> {
    /// So many bytes of no token.
    Gap(usize),
    /// A token of so many bytes.
    Piece(K, usize),
    Faulty(Fault),
}

fn line_prefix<L: Lexicon>(text: &[u8]) -> Prefix<L::Kind>
    ensures { tokens.line_prefix text.now ≡ prefix_of L.kind_of text.now result }
{
    Prefix::Gap(len_before(text, b'\n'))
}

fn block_prefix<L: Lexicon>(text: &[u8]) -> Prefix<L::Kind>
    requires { 2 ≤ length text.now }
    ensures { tokens.block_prefix text.now ≡ prefix_of L.kind_of text.now result }
{
    let (_, inside) = text.split_at(2);
    match comment_len(inside) {
        Some(len) => Prefix::Gap(2 + len),
        None => Prefix::Faulty(Fault::Comment),
    }
}

fn digit_prefix<L: Lexicon>(text: &[u8]) -> Prefix<L::Kind>
    ensures { tokens.digit_prefix L.lexicon text.now ≡ prefix_of L.kind_of text.now result }
{
    let len = run_len(text);
    let (run, _) = text.split_at(len);
    match read_number(run, L::widest()) {
        Some(number) => Prefix::Piece(L::number(number), len),
        None => Prefix::Faulty(Fault::Number),
    }
}

fn letter_prefix<L: Lexicon>(text: &[u8]) -> Prefix<L::Kind>
    requires { BeginsWithLetter text.now }
    ensures { tokens.letter_prefix L.lexicon text.now ≡ prefix_of L.kind_of text.now result }
{
    let len = run_len(text);
    let (run, _) = text.split_at(len);
    Prefix::Piece(L::run(run), len)
}

fn mark_prefix<L: Lexicon>(text: &[u8]) -> Prefix<L::Kind>
    ensures { tokens.mark_prefix (tokens.beginning L.lexicon.marks text.now)
        ≡ prefix_of L.kind_of text.now result }
{
    match L::mark(text) {
        Some((kind, len)) => Prefix::Piece(kind, len),
        None => Prefix::Faulty(Fault::Byte),
    }
}

/// What a text of one byte or more begins with.
fn any_prefix<L: Lexicon>(text: &[u8]) -> Prefix<L::Kind>
    requires { 0 < length text.now }
    ensures { first_prefix L.lexicon text.now ≡ prefix_of L.kind_of text.now result }
{
    let byte = text[0];
    if is_blank(byte) {
        Prefix::Gap(1)
    } else if begins(text, b"//") {
        line_prefix::<L>(text)
    } else if begins(text, b"/*") {
        block_prefix::<L>(text)
    } else if is_digit(byte) {
        digit_prefix::<L>(text)
    } else if is_letter(byte) {
        letter_prefix::<L>(text)
    } else {
        mark_prefix::<L>(text)
    }
}

/// The same, with what is known of any prefix: it stands in the text.
pub fn read_prefix<L: Lexicon>(text: &[u8]) -> Prefix<L::Kind>
    requires { 0 < length text.now }
    ensures is { first_prefix L.lexicon text.now ≡ prefix_of L.kind_of text.now result }
    ensures fits { Fits text.now (prefix_of L.kind_of text.now result) }
{
    any_prefix::<L>(text)
}
