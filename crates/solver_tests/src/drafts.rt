//! Terms by the words that say them.
use crate::building::{apply, binary, bits, input, input_term, not, pick, replaced, slice};
use bv_terms::{TermId, TermOp, Terms};
use case_files::{first_word, number};
use cocoon_num::Bits;
use std::alloc::Global;

/// The terms of some words.
#[derive(Drop)]
pub(crate) struct Draft {
    pub(crate) terms: Terms,
    /// The number that each input is given, in the order of the words.
    pub(crate) inputs: Vec<Bits>,
    /// The terms that wait to be parts, the last one on top.
    pub(crate) waiting: Vec<TermId>,
}

/// A number below 256.
fn small(digits: &str) -> Option<u8> {
    u8::try_from(number(digits)?).ok()
}

/// A number below 2^128.
fn large(digits: &str) -> Option<u128> {
    if digits.is_empty() {
        return None;
    }
    let mut number: u128 = 0;
    for byte in digits.bytes() {
        if !byte.is_ascii_digit() {
            return None;
        }
        number = number
            .checked_mul(10)?
            .checked_add(u128::from(byte - b'0'))?;
    }
    Some(number)
}

/// The number that a word `WIDTHwVALUE` is.
pub(crate) fn constant(word: &str) -> Option<Bits> {
    let (width, value) = word.split_once('w')?;
    bits(small(width)?, large(value)?)
}

/// The number that a new input is given by a word `WIDTH:VALUE`; by `WIDTH` it is 0.
fn given(word: &str) -> Option<Bits> {
    let (width, value) = word.split_once(':').unwrap_or((word, "0"));
    bits(small(width)?, large(value)?)
}

fn operator(word: &str) -> Option<TermOp> {
    match word {
        "Add" => Some(TermOp::Add),
        "Sub" => Some(TermOp::Sub),
        "And" => Some(TermOp::And),
        "Or" => Some(TermOp::Or),
        "Xor" => Some(TermOp::Xor),
        "Concat" => Some(TermOp::Concat),
        "Equal" => Some(TermOp::Equal),
        "Less" => Some(TermOp::Less),
        _ => None,
    }
}

impl Draft {
    fn new(alloc: Global) -> Draft {
        Draft {
            terms: Terms::new(alloc),
            inputs: Vec::new(alloc),
            waiting: Vec::new(alloc),
        }
    }

    /// A new input that is given this number.
    fn input(&mut self, number: Bits) -> Option<TermId> {
        let term = input(&mut self.terms, number.width)?;
        self.inputs.push(number).ok()?;
        Some(term)
    }

    /// The term `xNUMBER` of an input.
    fn again(&self, digits: &str) -> Option<TermId> {
        input_term(&self.terms, u32::try_from(number(digits)?).ok()?)
    }

    fn operate(&mut self, op: TermOp) -> Option<TermId> {
        let second = self.waiting.pop()?;
        let first = self.waiting.pop()?;
        binary(&mut self.terms, op, first, second)
    }

    fn flip(&mut self) -> Option<TermId> {
        let part = self.waiting.pop()?;
        not(&mut self.terms, part)
    }

    fn choose(&mut self) -> Option<TermId> {
        let second = self.waiting.pop()?;
        let first = self.waiting.pop()?;
        let choice = self.waiting.pop()?;
        pick(&mut self.terms, choice, first, second)
    }

    /// `Slice.HIGH.LOW`
    fn cut(&mut self, places: &str) -> Option<TermId> {
        let (high, low) = places.split_once('.')?;
        let part = self.waiting.pop()?;
        slice(&mut self.terms, part, small(high)?, small(low)?)
    }

    /// The last terms that wait, so many, in their order.
    fn last(&mut self, count: u64) -> Option<Vec<TermId>> {
        let mut last = Vec::new(*self.waiting.allocator());
        for _ in 0..count {
            last.push(self.waiting.pop()?).ok()?;
        }
        last.reverse();
        Some(last)
    }

    /// `Apply.FUNCTION.WIDTH.COUNT`: a function at so many terms, the last ones; without a count at the last two.
    fn call(&mut self, said: &str) -> Option<TermId> {
        let (function, rest) = said.split_once('.')?;
        let (width, count) = rest.split_once('.').unwrap_or((rest, "2"));
        let args = self.last(number(count)?)?;
        let function = u32::try_from(number(function)?).ok()?;
        apply(&mut self.terms, function, &args, small(width)?)
    }

    /// `Put.INPUT`: the last but one with the last in the place of the input.
    fn put(&mut self, digits: &str) -> Option<TermId> {
        let by = self.waiting.pop()?;
        let term = self.waiting.pop()?;
        let input = u32::try_from(number(digits)?).ok()?;
        let alloc = *self.waiting.allocator();
        replaced(alloc, &mut self.terms, term, input, by)
    }

    /// The term of a word with a number in it: an input, the term of one, a slice, an application, a term put in the place of
    /// an input, or a constant.
    fn numbered(&mut self, word: &str) -> Option<TermId> {
        if let Some(rest) = word.strip_prefix("in") {
            return self.input(given(rest)?);
        }
        if let Some(digits) = word.strip_prefix("x") {
            return self.again(digits);
        }
        if let Some(places) = word.strip_prefix("Slice.") {
            return self.cut(places);
        }
        if let Some(said) = word.strip_prefix("Apply.") {
            return self.call(said);
        }
        if let Some(digits) = word.strip_prefix("Put.") {
            return self.put(digits);
        }
        self.terms.constant(constant(word)?).ok()
    }

    /// The term of a word. The word `_` is a new input that is given the number of the blank.
    fn term(&mut self, word: &str, blank: Option<Bits>) -> Option<TermId> {
        match word {
            "_" => self.input(blank?),
            "Not" => self.flip(),
            "Pick" => self.choose(),
            _ => match operator(word) {
                Some(op) => self.operate(op),
                None => self.numbered(word),
            },
        }
    }

    fn add_words(&mut self, words: &str, blank: Option<Bits>) -> Option<()> {
        for word in words.split_ascii_whitespace() {
            let term = self.term(word, blank)?;
            self.waiting.push(term).ok()?;
        }
        Some(())
    }

    /// Adds words so many times, `COUNT WORDS`.
    fn add_times(&mut self, piece: &str, blank: Option<Bits>) -> Option<()> {
        let (count, words) = first_word(piece);
        for _ in 0..number(count)? {
            self.add_words(words, blank)?;
        }
        Some(())
    }

    /// All terms of the words. A part in quotes, as `"3 x0 Add"`, stands for its words so many times.
    pub(crate) fn read_all(alloc: Global, words: &str, blank: Option<Bits>) -> Option<Draft> {
        let mut draft = Draft::new(alloc);
        let mut is_quoted = false;
        for piece in words.split('"') {
            if is_quoted {
                draft.add_times(piece, blank)?;
            } else {
                draft.add_words(piece, blank)?;
            }
            is_quoted = !is_quoted;
        }
        Some(draft)
    }

    /// The last term of the words.
    pub(crate) fn read(alloc: Global, words: &str, blank: Option<Bits>) -> Option<(Draft, TermId)> {
        let mut draft = Draft::read_all(alloc, words, blank)?;
        let goal = draft.waiting.pop()?;
        Some((draft, goal))
    }
}
