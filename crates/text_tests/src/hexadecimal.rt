//! Bytes in hexadecimal digits.
use case_files::Printer;
use std::alloc::Global;

/// The value of a hexadecimal digit.
fn digit(byte: u8) -> Option<u8> {
    match byte {
        b'0'..=b'9' => Some(byte - b'0'),
        b'a'..=b'f' => Some(byte - b'a' + 10),
        _ => None,
    }
}

/// The bytes that a word has in hexadecimal digits; `-` has none.
pub fn bytes(alloc: Global, word: &str) -> Option<Vec<u8>> {
    let mut bytes = Vec::new(alloc);
    let mut high = None;
    let digits = if word == "-" { "" } else { word };
    for byte in digits.bytes() {
        let digit = digit(byte)?;
        match high {
            None => high = Some(digit),
            Some(first) => {
                bytes.push((first << 4) | digit).ok()?;
                high = None;
            }
        }
    }
    match high {
        Some(_) => None,
        None => Some(bytes),
    }
}

/// Puts bytes in hexadecimal digits.
pub fn put_hex(bytes: &[u8], given: &mut Printer) {
    for byte in bytes {
        given.put_hex(*byte);
    }
}
