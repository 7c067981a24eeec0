//! Numbers in the names of actions and tables.
ghost use Rattle.std.specs.Prelude.{◌≡◌, ◌+◌, ◌*◌, ◌<◌, ◌^◌, ◌∷◌, Some, SomeIff, decimal, drop, true, ℕ};
ghost use Rattle.cocoon_num.specs.Lists.{each};
ghost use Rattle.cocoon_num.specs.Names.{same_name};
ghost use Rattle.cocoon_num.specs.Tokens as tokens;
ghost use Rattle.p4_texts.specs.Meant.{number_in};
ghost use Rattle.p4_resolve.specs.Numbered as spec;

use p4_kinds::bytes::{is_digit, is_same};

fn are_digits(bytes: &[u8]) -> bool
    ensures { result ≡ each tokens.is_digit bytes.now }
{
    for byte in bytes {
        if !is_digit(*byte) {
            return false;
        }
    }
    true
}

fn begins_with(start: u8, bytes: &[u8]) -> bool
    ensures { result ≡ spec.begins_with start bytes.now }
{
    match bytes.first() {
        Some(byte) => *byte == start,
        None => false,
    }
}

/// Digits as a number is printed: with no zero before others, and at most 64.
fn is_canonical(digits: &[u8]) -> bool
    ensures { result ≡ spec.is_canonical digits.now }
{
    let has_no_zero = !begins_with(b'0', digits) || digits.len() == 1;
    are_digits(digits) && !digits.is_empty() && has_no_zero && digits.len() <= 64
}

/// What follows the first byte.
pub(crate) fn tail(name: &[u8]) -> &[u8]
    ensures { result.now ≡ drop 1 name.now }
{
    if name.is_empty() {
        return name;
    }
    &name[1..]
}

/// The name is this letter with a number as it is printed.
#[tactic(auto, using(crate::proofs::NumberFacts::numbered_is))]
pub(crate) fn is_numbered(letter: u8, name: &[u8]) -> bool
    ensures { result ≡ same_name name.now (letter ∷ decimal (number_in name.now)) }
{
    begins_with(letter, name) && is_canonical(tail(name))
}

/// The name is this letter with this after it.
pub(crate) fn is_with(letter: u8, name: &[u8], rest: &[u8]) -> bool
    ensures { result ≡ same_name name.now (letter ∷ rest.now) }
{
    begins_with(letter, name) && is_same(tail(name), rest)
}

fn digit(byte: u8) -> Option<u32>
    ensures { result ≡ tokens.dec_digit byte }
{
    if is_digit(byte) {
        Some(u32::from(byte - b'0'))
    } else {
        None
    }
}

/// The value with one digit more, where it has 32 bits.
fn with_digit(value: u32, digit: u32) -> Option<u32>
    ensures { SomeIff result (value * 10 + digit < 2 ^ 32) (value * 10 + digit) }
{
    value.checked_mul(10)?.checked_add(digit)
}

/// The number that these digits write, where it is one of a table.
fn number(digits: &[u8]) -> Option<u32>
    ensures { (n : ℕ) → tokens.digits_after 10 tokens.dec_digit 0 digits.now ≡ Some n
        → result ≡ spec.small n }
{
    let mut value = 0;
    for byte in digits {
        let digit = digit(*byte)?;
        value = with_digit(value, digit)?;
    }
    if value < u32::MAX { Some(value) } else { None }
}

/// The number in a name that is a letter with a number as it is printed, where it is one of a table.
pub(crate) fn table_number(name: &[u8]) -> Option<u32>
    ensures { (letter : ℕ) → same_name name.now (letter ∷ decimal (number_in name.now)) ≡ true
        → result ≡ spec.small (number_in name.now) }
{
    number(tail(name))
}
