//! Rows that are looked at in their order.
ghost use Rattle.std.specs.Prelude.{All, ◌≡◌, ◌+◌, ◌*◌, ◌++◌, ◌<◌, ◌≤◌, get_or, IfOk, length, map, OnOk};
ghost use Rattle.p4_ir.specs.NetOf.{key_row_of};
ghost use Rattle.row_search.specs.Keyed.{HasKeys, keyed};
ghost use Rattle.row_search.specs.Laid.{results_of};
ghost use Rattle.row_search.specs.Scanned as spec;

use crate::laying::row_results;
use cocoon_num::NoMemory;
use p4_ir::KeyRow;
use std::alloc::Global;

/// What a row asks of one key: to have this value in the bits of the mask.
#[derive(Clone, Copy, Drop)]
pub(crate) struct KeyTest {
    pub(crate) mask: u64,
    pub(crate) value: u64,
}

/// Rows in their order: the tests of each row, one row after another, and the results.
#[derive(Drop)]
pub(crate) struct ScannedRows {
    pub(crate) count: usize,
    pub(crate) tests: Vec<KeyTest>,
    pub(crate) results: Vec<u64>,
    ghost many: { length tests.items ≡ length results.items * count },
}

// ---- laying

/// Appends the tests of a row.
fn push_tests(tests: &mut Vec<KeyTest>, values: &[u64], masks: &[u64]) -> Result<(), NoMemory>
    requires { length values.now ≡ length masks.now }
    ensures { OnOk result
        (tests.new.items ≡ tests.old.items ++ spec.row_tests values.now masks.now) }
{
    for (index, mask) in masks.iter().enumerate() {
        tests.push(KeyTest {
            mask: *mask,
            value: values[index] & *mask,
        })?;
    }
    Ok(())
}

fn rows_tests(alloc: Global, count: usize, rows: &[KeyRow]) -> Result<Vec<KeyTest>, NoMemory>
    requires { All (HasKeys count) rows.now }
    ensures { IfOk result (λ tests. tests.items ≡ spec.rows_tests (map key_row_of rows.now)) }
{
    let mut tests = Vec::new(alloc);
    for row in rows {
        push_tests(&mut tests, row.values.items(), row.masks.items())?;
    }
    Ok(tests)
}

// ---- looking

/// Whether the numbers in some keys are those that the first tests ask for.
#[inline(never)]
fn fits(tests: &[KeyTest], keys: &[u32], meta: &[u64]) -> bool
    requires many { length keys.now ≤ length tests.now }
    requires keys { All (λ key. key < length meta.now) keys.now }
    ensures { result ≡ spec.fits tests.now (keyed meta.now keys.now) }
{
    for (index, key) in keys.iter().enumerate() {
        let test = tests[index];
        if meta[*key as usize] & test.mask != test.value {
            return false;
        }
    }
    true
}

/// The same, where the number in the first key is given: it mostly tells.
#[inline(always)]
fn matches(tests: &[KeyTest], first: u64, keys: &[u32], meta: &[u64]) -> bool
    requires some { 0 < length keys.now }
    requires many { length keys.now ≤ length tests.now }
    requires keys { All (λ key. key < length meta.now) keys.now }
    requires first { first ≡ get_or (keyed meta.now keys.now) 0 0 }
    ensures { result ≡ spec.fits tests.now (keyed meta.now keys.now) }
{
    let test = tests[0];
    if first & test.mask != test.value {
        return false;
    }
    fits(tests, keys, meta)
}

#[inline(always)]
fn first_number(keys: &[u32], meta: &[u64]) -> u64
    requires some { 0 < length keys.now }
    requires keys { All (λ key. key < length meta.now) keys.now }
    ensures { result ≡ get_or (keyed meta.now keys.now) 0 0 }
{
    meta[keys[0] as usize]
}

impl ScannedRows {
    pub(crate) fn new(alloc: Global, count: usize, rows: &[KeyRow]) -> Result<ScannedRows, NoMemory>
        requires { All (HasKeys count) rows.now }
        ensures count { IfOk result (λ s. s.count ≡ count) }
        ensures tests { IfOk result (λ s. s.tests.items
            ≡ spec.rows_tests (map key_row_of rows.now)) }
        ensures results { IfOk result (λ s. s.results.items
            ≡ results_of (map key_row_of rows.now)) }
    {
        let tests = rows_tests(alloc, count, rows)?;
        let results = row_results(alloc, rows)?;
        Ok(ScannedRows {
            count,
            tests,
            results,
        })
    }

    /// The result of the first row that matches the numbers in some keys, else the default.
    pub(crate) fn look(&self, default: u64, keys: &[u32], meta: &[u64]) -> u64
        requires some { 0 < length keys.now }
        requires many { length keys.now ≡ self.now.count }
        requires keys { All (λ key. key < length meta.now) keys.now }
        ensures { result ≡ spec.scanned self.now.count self.now.tests.items self.now.results.items
            default (keyed meta.now keys.now) }
    {
        let tests = self.tests.as_slice();
        let first = first_number(keys, meta);
        let mut at = 0;
        for result in self.results.as_slice() {
            if matches(&tests[at..], first, keys, meta) {
                return *result;
            }
            at += self.count;
        }
        default
    }
}
