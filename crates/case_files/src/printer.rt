//! A text that grows.
use std::alloc::Global;
use std::fmt::Debug;
use std::str;

/// A text that grows. Whether there was memory for all of it is asked once, at its end.
#[derive(Drop)]
pub struct Printer {
    text: String,
    is_whole: bool,
}

impl Printer {
    /// An empty text.
    pub fn new(alloc: Global) -> Printer {
        Printer {
            text: String::new(alloc),
            is_whole: true,
        }
    }

    /// What was put so far.
    pub fn text(&self) -> &str {
        self.text.as_str()
    }

    /// Whether there was memory for all that was put.
    pub fn is_whole(&self) -> bool {
        self.is_whole
    }

    /// Says that there was no memory for what should be put.
    pub fn lose(&mut self) {
        self.is_whole = false;
    }

    /// The same where there was none for all of another text.
    pub fn lose_with(&mut self, other: &Printer) {
        if !other.is_whole {
            self.lose();
        }
    }

    /// Takes memory for so many more bytes.
    pub fn reserve(&mut self, bytes: usize) {
        if self.text.reserve(bytes).is_err() {
            self.lose();
        }
    }

    pub fn put_letter(&mut self, letter: char) {
        if self.text.push(letter).is_err() {
            self.lose();
        }
    }

    pub fn put(&mut self, piece: &str) {
        if self.text.push_str(piece).is_err() {
            self.lose();
        }
    }

    /// Bytes that are a text; for others a `?`.
    pub fn put_bytes(&mut self, bytes: &[u8]) {
        match str::from_utf8(bytes) {
            Ok(piece) => self.put(piece),
            Err(_) => self.put("?"),
        }
    }

    /// A number in decimal digits.
    pub fn put_number(&mut self, number: u64) {
        if write!(self.text, "{number}").is_err() {
            self.lose();
        }
    }

    /// A byte in two hexadecimal digits.
    pub fn put_hex(&mut self, byte: u8) {
        if write!(self.text, "{byte:02x}").is_err() {
            self.lose();
        }
    }

    /// A number with its width, as `8w1`.
    pub fn put_bits(&mut self, width: u8, value: u128) {
        if write!(self.text, "{width}w{value}").is_err() {
            self.lose();
        }
    }

    /// A value as its `Debug` writes it.
    pub fn put_debug<T: Debug>(&mut self, value: &T) {
        if write!(self.text, "{value:?}").is_err() {
            self.lose();
        }
    }
}
