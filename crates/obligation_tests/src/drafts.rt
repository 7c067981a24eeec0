//! Terms by the words that say them.
use crate::building::{apply, binary, input, not, pick, slice};
use crate::numbers::{constant, sized, small};
use crate::random::Generator;
use bv_terms::{TermId, TermOp, Terms};
use case_files::number;
use cocoon_num::Bits;
use std::alloc::Global;

/// The terms of some words.
#[derive(Drop)]
pub(crate) struct Draft {
    pub(crate) terms: Terms,
    /// The width of each input.
    inputs: Vec<u8>,
    /// The terms that wait to be parts, the last one on top.
    waiting: Vec<TermId>,
}

fn operator(word: &str) -> Option<TermOp> {
    match word {
        "Add" => Some(TermOp::Add),
        "Sub" => Some(TermOp::Sub),
        "And" => Some(TermOp::And),
        "Or" => Some(TermOp::Or),
        "Xor" => Some(TermOp::Xor),
        "Concat" => Some(TermOp::Concat),
        "Equal" => Some(TermOp::Equal),
        "Less" => Some(TermOp::Less),
        _ => None,
    }
}

impl Draft {
    pub(crate) fn new(alloc: Global) -> Draft {
        Draft {
            terms: Terms::new(alloc),
            inputs: Vec::new(alloc),
            waiting: Vec::new(alloc),
        }
    }

    pub(crate) fn input(&mut self, width: u8) -> Option<TermId> {
        let term = input(&mut self.terms, width)?;
        self.inputs.push(width).ok()?;
        Some(term)
    }

    /// The term `xNUMBER` of an input.
    fn again(&self, digits: &str) -> Option<TermId> {
        let input = u32::try_from(number(digits)?).ok()?;
        if input < self.terms.input_count() {
            Some(self.terms.input_term(input))
        } else {
            None
        }
    }

    fn operate(&mut self, op: TermOp) -> Option<TermId> {
        let second = self.waiting.pop()?;
        let first = self.waiting.pop()?;
        binary(&mut self.terms, op, first, second)
    }

    fn flip(&mut self) -> Option<TermId> {
        let part = self.waiting.pop()?;
        not(&mut self.terms, part)
    }

    /// `Slice.HIGH.LOW`
    fn cut(&mut self, places: &str) -> Option<TermId> {
        let (high, low) = places.split_once('.')?;
        let part = self.waiting.pop()?;
        slice(&mut self.terms, part, small(high)?, small(low)?)
    }

    fn choose(&mut self) -> Option<TermId> {
        let second = self.waiting.pop()?;
        let first = self.waiting.pop()?;
        let choice = self.waiting.pop()?;
        pick(&mut self.terms, choice, first, second)
    }

    /// `fNUMBER.COUNT.WIDTH`: a function at the last so many.
    fn call(&mut self, said: &str) -> Option<TermId> {
        let (function, rest) = said.split_once('.')?;
        let (count, width) = rest.split_once('.')?;
        let first = self.waiting.len().checked_sub(number(count)? as usize)?;
        let args = self.waiting.split_off(first).ok()?;
        let function = u32::try_from(number(function)?).ok()?;
        apply(&mut self.terms, function, &args, small(width)?)
    }

    fn numbered(&mut self, word: &str) -> Option<TermId> {
        if let Some(width) = word.strip_prefix("in") {
            return self.input(small(width)?);
        }
        if let Some(digits) = word.strip_prefix('x') {
            return self.again(digits);
        }
        if let Some(said) = word.strip_prefix('f') {
            return self.call(said);
        }
        if let Some(places) = word.strip_prefix("Slice.") {
            return self.cut(places);
        }
        self.terms.constant(constant(word)?).ok()
    }

    fn term(&mut self, word: &str) -> Option<TermId> {
        match operator(word) {
            Some(op) => self.operate(op),
            None if word == "Pick" => self.choose(),
            None if word == "Not" => self.flip(),
            None => self.numbered(word),
        }
    }

    /// The last term of the words, which are read after all words before.
    pub(crate) fn read(&mut self, words: &str) -> Option<TermId> {
        for word in words.split_ascii_whitespace() {
            let term = self.term(word)?;
            self.waiting.push(term).ok()?;
        }
        self.waiting.pop()
    }

    /// The numbers `NUMBER,NUMBER`, one for each input.
    pub(crate) fn numbers(&self, alloc: Global, word: &str) -> Option<Vec<Bits>> {
        let mut numbers = Vec::new(alloc);
        let mut widths = self.inputs.iter();
        for digits in word.split(',') {
            numbers.push(sized(*widths.next()?, digits)?).ok()?;
        }
        Some(numbers)
    }

    /// A number for each input.
    pub(crate) fn drawn(&self, alloc: Global, generator: &mut Generator) -> Option<Vec<Bits>> {
        let mut numbers = Vec::new(alloc);
        for width in &self.inputs {
            numbers.push(generator.number(*width)?).ok()?;
        }
        Some(numbers)
    }
}
