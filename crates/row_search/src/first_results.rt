//! Rows in the order of their values, the first of equal ones.
ghost use Rattle.std.specs.Prelude.{◌≡◌, ◌*◌, IfOk, length, List, None, OnOk, ℕ};
ghost use Rattle.row_search.specs.FirstResults.{AreCounted, result_by};
ghost use Rattle.row_search.specs.Laid.{Ascend, laid_at};
ghost use Rattle.row_search.specs.Pairs.{found, noted, pairs_of};

use crate::laying::laid_row;
use cocoon_num::NoMemory;
use std::alloc::Global;
use std::collections::BTreeMap;

/// For the values of rows, the result of the first row that has them.
#[derive(Drop)]
struct FirstResults {
    results: BTreeMap<Vec<u64>, u64>,
}

/// The values of some rows, one row after another, and the results.
#[derive(Drop)]
pub(crate) struct LaidPairs {
    pub(crate) values: Vec<u64>,
    pub(crate) results: Vec<u64>,
}

impl FirstResults {
    fn new(alloc: Global) -> FirstResults
        ensures none { (xs : List ℕ) → result_by result xs ≡ None }
        ensures counted { (count : ℕ) → AreCounted count result }
    {
        FirstResults {
            results: BTreeMap::new(alloc),
        }
    }

    /// Notes the result of a row with these values, in place of any other.
    fn note(&mut self, alloc: Global, values: &[u64], row_result: u64) -> Result<(), NoMemory>
        ensures noted { (xs : List ℕ) → OnOk result
            (result_by self.new xs ≡ noted values.now row_result xs (result_by self.old xs)) }
        ensures counted { (count : ℕ) → length values.now ≡ count → AreCounted count self.old
            → OnOk result (AreCounted count self.new) }
    {
        self.results.insert(values.to_vec(alloc)?, row_result)?;
        Ok(())
    }

    /// Those of some rows. They are noted from the last to the first, so that the first decides.
    fn of(
        alloc: Global,
        count: usize,
        values: &[u64],
        results: &[u64],
    ) -> Result<FirstResults, NoMemory>
        requires { length values.now ≡ length results.now * count }
        ensures found { IfOk result (λ first. (xs : List ℕ) → result_by first xs
            ≡ found (pairs_of count values.now results.now) xs) }
        ensures counted { IfOk result (λ first. AreCounted count first) }
    {
        let mut first = FirstResults::new(alloc);
        let mut row = results.len();
        let mut at = values.len();
        while row > 0 {
            row -= 1;
            at -= count;
            first.note(alloc, laid_row(values, at, count), results[row])?;
        }
        Ok(first)
    }

    /// The rows that are noted, in the order of their values.
    fn laid(&self, alloc: Global, count: usize) -> Result<LaidPairs, NoMemory>
        requires { AreCounted count self.now }
        ensures many { IfOk result (λ laid.
            length laid.values.items ≡ length laid.results.items * count) }
        ensures found { IfOk result (λ laid. (xs : List ℕ) → found
            (pairs_of count laid.values.items laid.results.items) xs ≡ result_by self.now xs) }
        ensures sorted { IfOk result (λ laid.
            Ascend (laid_at count laid.values.items) (length laid.results.items)) }
    {
        let mut values = Vec::new(alloc);
        let mut results = Vec::new(alloc);
        for (key, row_result) in &self.results {
            values.extend_from_slice(key)?;
            results.push(*row_result)?;
        }
        Ok(LaidPairs { values, results })
    }
}

/// Some rows in the order of their values, the first of equal ones.
pub(crate) fn first_pairs(
    alloc: Global,
    count: usize,
    values: &[u64],
    results: &[u64],
) -> Result<LaidPairs, NoMemory>
    requires { length values.now ≡ length results.now * count }
    ensures many { IfOk result (λ laid.
        length laid.values.items ≡ length laid.results.items * count) }
    ensures found { IfOk result (λ laid. (xs : List ℕ) → found
        (pairs_of count laid.values.items laid.results.items) xs
        ≡ found (pairs_of count values.now results.now) xs) }
    ensures sorted { IfOk result (λ laid.
        Ascend (laid_at count laid.values.items) (length laid.results.items)) }
{
    let first = FirstResults::of(alloc, count, values, results)?;
    first.laid(alloc, count)
}
