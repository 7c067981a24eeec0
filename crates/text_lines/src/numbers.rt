//! The numbers of a line.
ghost use Rattle.std.specs.Prelude.{◌≡◌, ◌<◌, ◌≤◌, IfOk, length, map, option_map};
ghost use Rattle.cocoon_num.specs.Names.{same_name};
ghost use Rattle.cocoon_num.specs.Tokens as tokens;
ghost use Rattle.text_lines.specs.Numbers.{is_dash, list_of, part_number, numbers_of};

use cocoon_num::NoMemory;
use std::alloc::Global;

/// The most digits that a number may have.
const MOST_DIGITS: usize = 20;

fn decimal_digit(byte: u8) -> Option<u8>
    ensures { result ≡ tokens.dec_digit byte }
{
    if byte.is_ascii_digit() {
        Some(byte - b'0')
    } else {
        None
    }
}

/// The value of one or more decimal digits, of 20 at most. There is none where something is no digit.
pub fn decimal_value(digits: &[u8]) -> Option<u128>
    requires { length digits.now ≤ 20 }
    ensures { result ≡ tokens.decimal_value digits.now }
{
    if digits.is_empty() {
        return None;
    }
    let mut value = 0;
    for byte in digits {
        value = value * 10 + u128::from(decimal_digit(*byte)?);
    }
    Some(value)
}

/// The number that a part is: 1 to 20 decimal digits, below 2^64. Leading zeros count as digits.
pub fn read_number(part: &[u8]) -> Option<u64>
    ensures { result ≡ part_number part.now }
{
    if part.len() > MOST_DIGITS {
        return None;
    }
    let value = decimal_value(part)?;
    u64::try_from(value).ok()
}

/// The numbers that some parts are, where each is one.
pub fn read_numbers(alloc: Global, parts: &[&[u8]]) -> Result<Option<Vec<u64>>, NoMemory>
    ensures { IfOk result (λ numbers. option_map (λ v. v.items) numbers
        ≡ numbers_of (map (λ part. part.now) parts.now)) }
{
    let mut numbers = Vec::new(alloc);
    for part in parts {
        match read_number(part) {
            Some(number) => numbers.push(number)?,
            None => return Ok(None),
        }
    }
    Ok(Some(numbers))
}

#[tactic(auto, using(crate::proofs::Bytes::same_is))]
fn is_same(one: &[u8], other: &[u8]) -> bool
    ensures { result ≡ same_name one.now other.now }
{
    one == other
}

/// Whether the parts are the one part `-`.
fn is_dash(parts: &[&[u8]]) -> bool
    ensures { result ≡ is_dash (map (λ part. part.now) parts.now) }
{
    match parts {
        [part] => is_same(part, b"-"),
        _ => false,
    }
}

/// The list that some parts are: numbers, or `-` for none.
pub fn read_list(alloc: Global, parts: &[&[u8]]) -> Result<Option<Vec<u64>>, NoMemory>
    ensures { IfOk result (λ numbers. option_map (λ v. v.items) numbers
        ≡ list_of (map (λ part. part.now) parts.now)) }
{
    if is_dash(parts) {
        Ok(Some(Vec::new(alloc)))
    } else {
        read_numbers(alloc, parts)
    }
}
