//! Rows in the order of their values, searched by halves.
ghost use Rattle.std.specs.Prelude.{All, ◌≡◌, ◌↔◌, ◌+◌, ◌*◌, ◌<◌, get_or, IsTrue, length, unwrap_or};
ghost use Rattle.std.specs.Cmp.Lexicographic.{slice_cmp};
ghost use Rattle.std.specs.Ordering.{nat_cmp};
ghost use Rattle.row_search.specs.Keyed.{keyed};
ghost use Rattle.row_search.specs.Laid.{masked};
ghost use Rattle.row_search.specs.Pairs.{found, pairs_of};
ghost use Rattle.row_search.specs.Searched.{asked, IsTelling, Searched, values_at};
ghost use Rattle.row_search.specs.Spans.{IsNarrowed};

use crate::laying::laid_row;
use crate::sorted::SortedRows;
use std::cmp::Ordering;

// ---- comparing

/// Compares the values of a row with the numbers in some keys, each in the bits of its mask, one after another.
#[inline(never)]
fn compare(values: &[u64], masks: &[u64], keys: &[u32], meta: &[u64]) -> Ordering
    requires many { length values.now ≡ length keys.now }
    requires masks { length masks.now ≡ length keys.now }
    requires keys { All (λ key. key < length meta.now) keys.now }
    ensures { result ≡ slice_cmp nat_cmp values.now (masked masks.now (keyed meta.now keys.now)) }
{
    for (index, key) in keys.iter().enumerate() {
        let order = values[index].cmp(&(meta[*key as usize] & masks[index]));
        if order != Ordering::Equal {
            return order;
        }
    }
    Ordering::Equal
}

#[inline(always)]
fn compare_numbers(one: u64, other: u64) -> Ordering
    ensures { result ≡ nat_cmp one other }
{
    one.cmp(&other)
}

/// Whether a comparison of first values, one for the first of some keys, tells what all tell.
#[inline(always)]
fn is_telling(found: Ordering, keys: &[u32]) -> bool
    ensures { IsTrue result → IsTelling found (length keys.now) }
{
    found != Ordering::Equal || keys.len() == 1
}

/// The number in the first key, in the bits of its mask.
#[inline(always)]
fn first_asked(rows: &SortedRows, keys: &[u32], meta: &[u64]) -> u64
    requires many { length keys.now ≡ length rows.now.masks.items }
    requires keys { All (λ key. key < length meta.now) keys.now }
    ensures { result ≡ get_or (asked rows.now meta.now keys.now) 0 0 }
{
    meta[keys[0] as usize] & rows.masks[0]
}

/// Compares the values of the row at an index with the numbers in some keys, the first of which is given. The others are looked
/// at only where it does not tell.
#[inline(always)]
fn compare_at(rows: &SortedRows, first: u64, keys: &[u32], meta: &[u64], row: usize) -> Ordering
    requires many { length keys.now ≡ length rows.now.masks.items }
    requires keys { All (λ key. key < length meta.now) keys.now }
    requires first { first ≡ get_or (asked rows.now meta.now keys.now) 0 0 }
    requires row { row < length rows.now.results.items }
    ensures { result
        ≡ slice_cmp nat_cmp (values_at rows.now row) (asked rows.now meta.now keys.now) }
{
    let at = row * keys.len();
    let found = compare_numbers(rows.values[at], first);
    if is_telling(found, keys) {
        return found;
    }
    compare(
        laid_row(&rows.values, at, keys.len()),
        &rows.masks,
        keys,
        meta,
    )
}

// ---- searching

#[inline(always)]
fn is_equal(found: Ordering) -> bool
    ensures { IsTrue result ↔ (found ≡ Ordering.Equal) }
{
    matches!(found, Ordering::Equal)
}

/// Where a row may still be: from `low` up to, and without, `high`.
#[derive(Clone, Copy, Drop)]
struct Span {
    low: usize,
    high: usize,
}

/// The half behind or before the middle, by how that compares.
#[inline(always)]
fn narrowed(span: Span, middle: usize, found: Ordering) -> Span
    requires { middle < span.high }
    ensures { IsNarrowed span middle found result }
{
    if found == Ordering::Less {
        Span {
            low: middle + 1,
            high: span.high,
        }
    } else {
        Span {
            low: span.low,
            high: middle,
        }
    }
}

/// The index of the row that has the numbers in some keys.
fn search(rows: &SortedRows, keys: &[u32], meta: &[u64]) -> Option<usize>
    requires many { length keys.now ≡ length rows.now.masks.items }
    requires keys { All (λ key. key < length meta.now) keys.now }
    ensures { Searched (values_at rows.now) (length rows.now.results.items)
        (asked rows.now meta.now keys.now) result }
{
    let first = first_asked(rows, keys, meta);
    let mut span = Span {
        low: 0,
        high: rows.results.len(),
    };
    while span.low < span.high {
        let middle = span.low + (span.high - span.low) / 2;
        let found = compare_at(rows, first, keys, meta, middle);
        if is_equal(found) {
            return Some(middle);
        }
        span = narrowed(span, middle, found);
    }
    None
}

impl SortedRows {
    /// The result of the row that matches the numbers in some keys, else the default.
    pub(crate) fn look(&self, default: u64, keys: &[u32], meta: &[u64]) -> u64
        requires many { length keys.now ≡ length self.now.masks.items }
        requires keys { All (λ key. key < length meta.now) keys.now }
        ensures { result ≡ unwrap_or (found (pairs_of (length self.now.masks.items)
            self.now.values.items self.now.results.items) (asked self.now meta.now keys.now))
            default }
    {
        match search(self, keys, meta) {
            Some(row) => self.results[row],
            None => default,
        }
    }
}
