//! The bytes of a packet, as hexadecimal digits.
ghost use Rattle.std.specs.Prelude.{◌≡◌, ◌<◌, ◌≤◌, IfOk, IfSome, drop, length, option_map};
ghost use Rattle.cocoon_num.specs.Tokens as tokens;
ghost use Rattle.packet_runs.specs.Packets.{byte_of, bytes_of, is_dash, pairs_of};

use cocoon_num::NoMemory;
use std::alloc::Global;

fn hex_digit(byte: u8) -> Option<u8>
    ensures digit { result ≡ tokens.hex_digit byte }
    ensures small { IfSome result (λ digit. digit < 16) }
{
    if byte.is_ascii_digit() {
        Some(byte - b'0')
    } else if b'a' <= byte && byte <= b'f' {
        Some(byte - b'a' + 10)
    } else if b'A' <= byte && byte <= b'F' {
        Some(byte - b'A' + 10)
    } else {
        None
    }
}

/// The byte of two digits.
fn byte_of(high: u8, low: u8) -> Option<u8>
    ensures { result ≡ byte_of high low }
{
    let high = hex_digit(high)?;
    let low = hex_digit(low)?;
    Some(high * 16 + low)
}

/// What stands behind the first two digits.
fn behind_pair(digits: &[u8]) -> &[u8]
    requires { 2 ≤ length digits.now }
    ensures { result.now ≡ drop 2 digits.now }
{
    &digits[2..]
}

/// The bytes of pairs of digits.
fn read_pairs(alloc: Global, digits: &[u8]) -> Result<Option<Vec<u8>>, NoMemory>
    ensures { IfOk result (λ r. option_map (λ v. v.items) r ≡ pairs_of digits.now) }
{
    let mut bytes = Vec::new(alloc);
    let mut rest = digits;
    while rest.len() >= 2 {
        match byte_of(rest[0], rest[1]) {
            Some(byte) => bytes.push(byte)?,
            None => return Ok(None),
        }
        rest = behind_pair(rest);
    }
    if rest.is_empty() {
        Ok(Some(bytes))
    } else {
        Ok(None)
    }
}

/// Whether a part is `-`.
fn is_dash(part: &[u8]) -> bool
    ensures { result ≡ is_dash part.now }
{
    match part {
        [byte] => *byte == b'-',
        _ => false,
    }
}

/// The bytes that a part stands for: two hexadecimal digits each, of either case, or `-` for none.
pub(crate) fn read_bytes(alloc: Global, part: &[u8]) -> Result<Option<Vec<u8>>, NoMemory>
    ensures { IfOk result (λ r. option_map (λ v. v.items) r ≡ bytes_of part.now) }
{
    if is_dash(part) {
        return Ok(Some(Vec::new(alloc)));
    }
    if part.is_empty() {
        return Ok(None);
    }
    read_pairs(alloc, part)
}
