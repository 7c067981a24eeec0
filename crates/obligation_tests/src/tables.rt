//! Tables, by the words that say them.
use crate::numbers::{constant, sized, small};
use cocoon_num::{Bits, FunRow, FunTable, List};
use std::alloc::Global;

/// The number of a pattern, if it fits the width; of a width above 64 there is none.
fn part(width: u8, digits: &str) -> Option<u64> {
    u64::try_from(sized(width, digits)?.value).ok()
}

/// The value and the mask of a pattern `VALUE`, `VALUE&MASK` or `_`.
fn pattern(width: u8, word: &str) -> Option<(u64, u64)> {
    if word == "_" {
        return Some((0, 0));
    }
    match word.split_once('&') {
        Some((value, mask)) => Some((part(width, value)?, part(width, mask)?)),
        None if width < 1 || width > 64 => None,
        None => Some((part(width, word)?, u64::MAX >> (64 - width))),
    }
}

/// The row `PATTERN,PATTERN=RESULT`.
fn row(alloc: Global, widths: &[u8], width: u8, word: &str) -> Option<FunRow> {
    let (patterns, result) = word.split_once('=')?;
    let mut values = Vec::new(alloc);
    let mut masks = Vec::new(alloc);
    let mut rest = widths.iter();
    for word in patterns.split(',') {
        let (value, mask) = pattern(*rest.next()?, word)?;
        values.push(value).ok()?;
        masks.push(mask).ok()?;
    }
    Some(FunRow {
        values: List::from(values),
        masks: List::from(masks),
        result: sized(width, result)?,
    })
}

/// The widths `WIDTH,WIDTH`.
fn widths(alloc: Global, word: &str) -> Option<Vec<u8>> {
    let mut widths = Vec::new(alloc);
    for digits in word.split(',') {
        widths.push(small(digits)?).ok()?;
    }
    Some(widths)
}

/// The table `WIDTHS DEFAULT ROW ROW ..`.
fn table(alloc: Global, words: &str) -> Option<FunTable> {
    let mut words = words.split_ascii_whitespace();
    let widths = widths(alloc, words.next()?)?;
    let default: Bits = constant(words.next()?)?;
    let mut rows = Vec::new(alloc);
    for word in words {
        rows.push(row(alloc, &widths, default.width, word)?).ok()?;
    }
    Some(FunTable {
        widths: List::from(widths),
        rows: List::from(rows),
        default,
    })
}

/// The tables of a line, with a `;` between two of them; `-` for a function without one.
pub(crate) fn tables(alloc: Global, line: &str) -> Option<Vec<Option<FunTable>>> {
    let mut tables = Vec::new(alloc);
    for words in line.split(';') {
        let table = if words.trim() == "-" {
            None
        } else {
            Some(table(alloc, words)?)
        };
        tables.push(table).ok()?;
    }
    Some(tables)
}
