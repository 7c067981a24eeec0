//! Keys of several numbers, and the place at which each stood first. Tables whose rows compare all bits are looked up by it: the
//! first row with a key decides, whatever rows follow.

ghost use Rattle.std.specs.Prelude.{◌≡◌, ◌+◌, [], ◌∷◌, ◌++◌, List, ℕ, IfOk, OnOk};
ghost use Rattle.numbering.specs.KeyPlaces.{first_place, Holds, place_in};

use cocoon_num::NoMemory;
use std::alloc::Global;
use std::collections::BTreeMap;

/// Keys, each with the place at which it stood first, and how many stood there.
#[derive(Drop)]
pub struct KeyTable {
    held: BTreeMap<Vec<u64>, u32>,
    count: u32,
}

/// The next place.
fn next_place(place: u32) -> Result<u32, NoMemory>
    ensures { IfOk result (λ next. next ≡ place + 1) }
{
    place.checked_add(1).ok_or(NoMemory)
}

impl KeyTable {
    /// A table of no keys.
    pub fn new(alloc: Global) -> KeyTable
        ensures { Holds result [] }
    {
        KeyTable {
            held: BTreeMap::new(alloc),
            count: 0,
        }
    }

    /// The place at which the key stood first, from 0.
    pub fn place(&self, key: &[u64]) -> Option<u32>
        ensures { (keys : List (List ℕ)) → Holds self.now keys → result ≡ first_place key.now keys }
    {
        self.get(key)
    }

    fn get(&self, key: &[u64]) -> Option<u32>
        ensures { result ≡ place_in self.now key.now }
    {
        self.held.get(key).copied()
    }

    /// One more key, after the others.
    pub fn append(&mut self, alloc: Global, key: &[u64]) -> Result<(), NoMemory>
        ensures { (keys : List (List ℕ)) → Holds self.old keys
            → OnOk result (Holds self.new (keys ++ key.now ∷ [])) }
    {
        let next = next_place(self.count)?;
        if self.get(key).is_none() {
            self.held.insert(key.to_vec(alloc)?, self.count)?;
        }
        self.count = next;
        Ok(())
    }
}
