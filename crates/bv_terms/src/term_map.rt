//! Values under the numbers of terms.
ghost use Rattle.std.specs.Prelude.{◌≡◌, ℕ, None, IfOk, OnOk, length, replicate};
ghost use Rattle.bv_terms.specs.TermMaps.{IsSet, place_in, value_at};

use crate::node::TermId;
use cocoon_num::NoMemory;
use std::alloc::Global;
use std::collections::BTreeMap;

/// Numbers lie side by side where at least one of so many has a value.
const SPARSEST: usize = 4;

/// At most one value for each term. A range of terms has its values side by side, so that one is found at once; the others are
/// found in a tree.
#[derive(Drop)]
pub struct TermMap<T> {
    /// The first term of the range.
    first: TermId,
    near: Vec<Option<T>>,
    far: BTreeMap<TermId, T>,
}

/// No values, so many.
fn no_values<T: Drop>(alloc: Global, count: usize) -> Result<Vec<Option<T>>, NoMemory>
    ensures { IfOk result (λ values. values.items ≡ replicate count None) }
{
    let mut values = Vec::with_capacity(alloc, count)?;
    for _ in 0..count {
        values.push(None)?;
    }
    Ok(values)
}

impl<T: Copy + Drop> TermMap<T> {
    /// A map with no values, whose range is so many terms from the first one on.
    pub fn new(alloc: Global, first: TermId, count: usize) -> Result<TermMap<T>, NoMemory>
        ensures { IfOk result (λ map. (id : ℕ) → value_at map id ≡ None) }
    {
        Ok(TermMap {
            first,
            near: no_values(alloc, count)?,
            far: BTreeMap::new(alloc),
        })
    }

    /// A map with no values that will have some for these terms. The first is the greatest and the last the least.
    pub fn over(alloc: Global, ids: &[TermId]) -> Result<TermMap<T>, NoMemory>
        ensures { IfOk result (λ map. (id : ℕ) → value_at map id ≡ None) }
    {
        if let (Some(greatest), Some(least)) = (ids.first(), ids.last()) {
            let reach = greatest.saturating_sub(*least) as usize;
            if reach / SPARSEST < ids.len() {
                return TermMap::new(alloc, *least, reach + 1);
            }
        }
        TermMap::new(alloc, 0, 0)
    }

    fn place(&self, id: TermId) -> Option<usize>
        ensures { result ≡ place_in self.now id }
    {
        if id < self.first {
            return None;
        }
        let place = (id - self.first) as usize;
        if place < self.near.len() {
            Some(place)
        } else {
            None
        }
    }

    /// The value for a term.
    pub fn get(&self, id: TermId) -> Option<T>
        ensures { result ≡ value_at self.now id }
    {
        match self.place(id) {
            Some(place) => self.near[place],
            None => self.far.get(&id).copied(),
        }
    }

    /// Sets the value for a term.
    pub fn set(&mut self, id: TermId, value: T) -> Result<(), NoMemory>
        ensures { OnOk result (IsSet self.old self.new id value) }
    {
        match self.place(id) {
            Some(place) => self.near[place] = Some(value),
            None => {
                self.far.insert(id, value)?;
            }
        }
        Ok(())
    }
}
