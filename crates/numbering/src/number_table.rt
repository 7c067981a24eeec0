//! Numbers, and the place at which each stood first. What is numbered is looked up by it, as tables and groups of switches are: the
//! first of a number counts, whatever follows.

ghost use Rattle.std.specs.Prelude.{◌≡◌, ◌+◌, [], ◌∷◌, ◌++◌, List, ℕ, IfOk, OnOk};
ghost use Rattle.cocoon_num.specs.Lists.{has_number};
ghost use Rattle.numbering.specs.NumberPlaces.{held_at, HasPlaces, place_in, place_of};

use cocoon_num::NoMemory;
use std::alloc::Global;
use std::collections::BTreeMap;

/// Numbers, each with the place at which it stood first, and how many stood there. They are found in logarithmic time.
#[derive(Drop)]
pub struct NumberTable {
    held: BTreeMap<u32, usize>,
    count: usize,
}

/// The next place.
fn next_place(place: usize) -> Result<usize, NoMemory>
    ensures { IfOk result (λ next. next ≡ place + 1) }
{
    place.checked_add(1).ok_or(NoMemory)
}

impl NumberTable {
    /// A table of no numbers.
    pub fn new(alloc: Global) -> NumberTable
        ensures { HasPlaces result [] }
    {
        NumberTable {
            held: BTreeMap::new(alloc),
            count: 0,
        }
    }

    fn get(&self, number: u32) -> Option<usize>
        ensures { result ≡ held_at self.now number }
    {
        self.held.get(&number).copied()
    }

    /// The place at which the number stood first, from 0, or how many numbers there are.
    pub fn place(&self, number: u32) -> usize
        ensures held { result ≡ place_in self.now number }
        ensures first { (numbers : List ℕ) → HasPlaces self.now numbers
            → result ≡ place_of numbers number }
    {
        match self.get(number) {
            Some(place) => place,
            None => self.count,
        }
    }

    /// Whether the number stood there.
    pub fn has(&self, number: u32) -> bool
        ensures { (numbers : List ℕ) → HasPlaces self.now numbers
            → result ≡ has_number number numbers }
    {
        self.get(number).is_some()
    }

    /// One more number, after the others.
    pub fn append(&mut self, number: u32) -> Result<(), NoMemory>
        ensures { (numbers : List ℕ) → HasPlaces self.old numbers
            → OnOk result (HasPlaces self.new (numbers ++ number ∷ [])) }
    {
        let next = next_place(self.count)?;
        if self.get(number).is_none() {
            self.held.insert(number, self.count)?;
        }
        self.count = next;
        Ok(())
    }
}
