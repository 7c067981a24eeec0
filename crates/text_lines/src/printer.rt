//! A printer that remembers whether there was memory for all.
ghost use Rattle.std.specs.Prelude.{◌≡◌, [], IfOk, None, Some, decimal};
ghost use Rattle.text_lines.specs.Printing.{Prints, literal_text, new_line};

use cocoon_num::{NoMemory, Text};
use std::alloc::Global;
use std::marker::Model;

/// What was printed so far. Once it is out of memory nothing more is printed.
#[derive(Drop)]
pub struct Printer {
    alloc: Global,
    bytes: Vec<u8>,
    is_whole: bool,
}

impl Model for Printer {
    ghost use Rattle.std.specs.Prelude.{List, None, Option, Some, if◌then◌else◌, ℕ};

    ghost Value = { Option (List ℕ) };

    ghost view = { λ p. if p.is_whole then Some p.bytes.items else None };
}

impl Printer {
    /// Nothing is printed.
    pub fn new(alloc: Global) -> Printer
        ensures { result ≡ Some [] }
    {
        Printer {
            alloc,
            bytes: Vec::new(alloc),
            is_whole: true,
        }
    }

    /// What was printed, where there was memory for all.
    pub fn finish(self) -> Result<Vec<u8>, NoMemory>
        ensures { IfOk result (λ bytes. self ≡ Some bytes.items) }
    {
        let Printer {
            bytes,
            is_whole,
            ..
        } = self;
        if is_whole { Ok(bytes) } else { Err(NoMemory) }
    }

    /// There was no memory for what should be printed.
    pub fn lose(&mut self)
        ensures { self.new ≡ None }
    {
        self.is_whole = false;
    }

    pub fn push_bytes(&mut self, bytes: &[u8])
        ensures { Prints self.old bytes.now self.new }
    {
        if self.is_whole {
            self.is_whole = self.bytes.extend_from_slice(bytes).is_ok();
        }
    }

    pub fn push(&mut self, text: &str)
        ensures { Prints self.old text.now self.new }
    {
        self.push_bytes(text.as_bytes());
    }

    pub fn push_name(&mut self, name: &Text)
        ensures { Prints self.old name.now self.new }
    {
        self.push_bytes(name.bytes());
    }

    pub fn push_number(&mut self, number: u32)
        ensures { Prints self.old (decimal number) self.new }
    {
        match number.to_string(self.alloc) {
            Ok(digits) => self.push(&digits),
            Err(_) => self.lose(),
        }
    }

    pub fn push_width(&mut self, width: u8)
        ensures { Prints self.old (decimal width) self.new }
    {
        match width.to_string(self.alloc) {
            Ok(digits) => self.push(&digits),
            Err(_) => self.lose(),
        }
    }

    fn push_value(&mut self, value: u128)
        ensures { Prints self.old (decimal value) self.new }
    {
        match value.to_string(self.alloc) {
            Ok(digits) => self.push(&digits),
            Err(_) => self.lose(),
        }
    }

    pub fn push_literal(&mut self, width: u8, value: u128)
        ensures { Prints self.old (literal_text width value) self.new }
    {
        self.push_width(width);
        self.push("w");
        self.push_value(value);
    }

    /// A new line that begins with so many blanks.
    pub fn new_line(&mut self, indent: u32)
        ensures { Prints self.old (new_line indent) self.new }
    {
        self.push("\n");
        for _i in 0..indent {
            self.push(" ");
        }
    }
}
