//! A text that is changed at each of its bytes in turn.
use crate::program_answers::put_reading;
use case_files::{Printer, first_word, number, swept};
use std::alloc::Global;

/// How far a sweep has come.
#[derive(Drop)]
struct Sweeping<'a> {
    alloc: Global,
    text: &'a str,
    /// What comes for the byte. Without it, the text ends before the byte.
    byte: Option<u8>,
    offset: usize,
}

impl<'a> Sweeping<'a> {
    /// Puts what the text reads as, changed at the next byte.
    fn put_next(&self, found: &mut Printer) {
        match swept(self.alloc, self.text.as_bytes(), self.offset, self.byte) {
            Some(changed) => put_reading(self.alloc, &changed, found),
            None => found.lose(),
        }
    }

    /// Tries the text changed at the next byte, and puts what differs.
    fn try_next(&mut self, wanted: &str, given: &mut Printer) {
        let mut found = Printer::new(self.alloc);
        self.put_next(&mut found);
        if found.text() != wanted {
            given.put_debug(&self.offset);
            given.put(": ");
            given.put(found.text());
            given.put("; ");
        }
        given.lose_with(&found);
        self.offset = self.offset.saturating_add(1);
    }

    /// Tries the bytes of a part of what is wanted, as `3 Unexpected 7`: so many have this answer.
    fn try_part(&mut self, part: &str, given: &mut Printer) {
        let (count, wanted) = first_word(part);
        for _ in 0..number(count).unwrap_or_default() {
            self.try_next(wanted, given);
        }
    }
}

/// Tries a text changed at each byte, and puts where the answer is not the one that is wanted. Behind it stands how many bytes were
/// tried.
pub fn put_sweep(alloc: Global, text: &str, byte: Option<u8>, wanted: &str, given: &mut Printer) {
    let mut sweeping = Sweeping {
        alloc,
        text,
        byte,
        offset: 0,
    };
    for part in wanted.split(';') {
        sweeping.try_part(part.trim(), given);
    }
    given.put_debug(&sweeping.offset);
    given.put(" of ");
    given.put_debug(&text.len());
}
