//! Numbers as they are written in cases.
use std::alloc::Global;

/// The number of these digits. There is none where there are no digits, where something is no digit, or where it is 2^128 or more.
pub fn wide_number(digits: &str) -> Option<u128> {
    if digits.is_empty() {
        return None;
    }
    let mut number: u128 = 0;
    for byte in digits.bytes() {
        if !byte.is_ascii_digit() {
            return None;
        }
        number = number
            .checked_mul(10)?
            .checked_add(u128::from(byte - b'0'))?;
    }
    Some(number)
}

/// The same of a number below 2^64.
pub fn number(digits: &str) -> Option<u64> {
    u64::try_from(wide_number(digits)?).ok()
}

/// The numbers of a text with this letter between them; none where the text is empty.
pub fn numbers(alloc: Global, text: &str, between: char) -> Option<Vec<u64>> {
    let mut numbers = Vec::new(alloc);
    if text.is_empty() {
        return Some(numbers);
    }
    for digits in text.split(between) {
        numbers.push(number(digits)?).ok()?;
    }
    Some(numbers)
}
