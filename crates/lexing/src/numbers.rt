//! Plain numbers and literals. A value of more than 128 bits is none: the widest literals have so many.
ghost use Rattle.std.specs.Prelude.{◌≡◌, ◌+◌, ◌*◌, ◌^◌, ◌≤◌, nat_lt, option_and_then, option_map};
ghost use Rattle.cocoon_num.specs.Tokens as tokens;
ghost use Rattle.lexing.specs.Numbers.{base_of, digit_of, literal_kind, literal_read, kind_of_number, small, value_of};

use crate::bytes::{begins, is_digit, len_before};
use cocoon_num::Bits;

/// What a run of letters, digits and `_` that begins with a digit may be.
#[derive(Clone, Copy, Drop)]
pub enum Number {
    /// A number without a width, below 2^32.
    Plain(u32),
    /// A number with its width.
    Literal(Bits),
}

#[derive(Clone, Copy)]
enum Radix {
    Decimal,
    Hexadecimal,
}

impl Radix {
    fn base(self) -> u128
        ensures { result ≡ base_of self }
    {
        match self {
            Radix::Decimal => 10,
            Radix::Hexadecimal => 16,
        }
    }

    fn digit(self, byte: u8) -> Option<u8>
        ensures { result ≡ digit_of self byte }
    {
        match self {
            Radix::Decimal => decimal_digit(byte),
            Radix::Hexadecimal => hexadecimal_digit(byte),
        }
    }
}

fn decimal_digit(byte: u8) -> Option<u8>
    ensures { result ≡ tokens.dec_digit byte }
{
    if is_digit(byte) {
        Some(byte - b'0')
    } else {
        None
    }
}

fn hexadecimal_digit(byte: u8) -> Option<u8>
    ensures { result ≡ tokens.hex_digit byte }
{
    if is_digit(byte) {
        Some(byte - b'0')
    } else if byte >= b'a' && byte <= b'f' {
        Some(byte - b'a' + 10)
    } else if byte >= b'A' && byte <= b'F' {
        Some(byte - b'A' + 10)
    } else {
        None
    }
}

/// The value with one digit more, where it has 128 bits.
fn with_digit(value: u128, base: u128, digit: u8) -> Option<u128>
    ensures { result ≡ small (value * base + digit) }
{
    value.checked_mul(base)?.checked_add(u128::from(digit))
}

/// The value of one or more digits, where it has 128 bits.
fn digits_value(radix: Radix, text: &[u8]) -> Option<u128>
    ensures { result ≡ value_of radix text.now }
{
    if text.is_empty() {
        return None;
    }
    let mut value = 0;
    for byte in text {
        let digit = radix.digit(*byte)?;
        value = with_digit(value, radix.base(), digit)?;
    }
    Some(value)
}

/// The value of decimal digits, or of `0x` and hexadecimal digits.
fn literal_value(text: &[u8]) -> Option<u128>
    ensures { result ≡ option_and_then small (tokens.literal_value text.now) }
{
    if begins(text, b"0x") {
        let (_, digits) = text.split_at(2);
        return digits_value(Radix::Hexadecimal, digits);
    }
    digits_value(Radix::Decimal, text)
}

/// A width, the letter `w` and a value.
fn literal(run: &[u8], widest: u8) -> Option<Bits>
    requires { widest ≤ 128 }
    ensures { option_map literal_kind result ≡ literal_read widest run.now }
{
    let width_len = len_before(run, b'w');
    if width_len == run.len() {
        return None;
    }
    let (width, _) = run.split_at(width_len);
    let (_, rest) = run.split_at(width_len + 1);
    let width = digits_value(Radix::Decimal, width)?;
    let value = literal_value(rest)?;
    bits(width, value, widest)
}

/// The number of this width, where the width is one of literals and the value fits it.
fn bits(width: u128, value: u128, widest: u8) -> Option<Bits>
    requires { widest ≤ 128 }
    ensures { option_map literal_kind result
        ≡ tokens.literal_of widest (Some width) (Some value) }
{
    if width < 1 || width > u128::from(widest) || value > u128::MAX >> (128 - width) as u32 {
        return None;
    }
    Some(Bits::new(width as u8, value))
}

/// What a run of letters, digits and `_` that begins with a digit is. The widest literal has so many bits.
pub fn read_number(run: &[u8], widest: u8) -> Option<Number>
    requires { widest ≤ 128 }
    ensures { option_map kind_of_number result ≡ tokens.number_kind widest run.now }
{
    match digits_value(Radix::Decimal, run) {
        Some(value) => plain(value),
        None => Some(Number::Literal(literal(run, widest)?)),
    }
}

/// A plain number, where it is below 2^32.
fn plain(value: u128) -> Option<Number>
    ensures { option_map kind_of_number result
        ≡ tokens.kept_if (nat_lt value (2 ^ 32)) (tokens.plain value) }
{
    if value > u128::from(u32::MAX) {
        return None;
    }
    Some(Number::Plain(value as u32))
}
