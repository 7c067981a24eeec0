//! Numbers of names.
ghost use Rattle.std.specs.Prelude.{◌≡◌, ◌+◌, ◌<◌, ◌^◌, [], ◌∷◌, ◌++◌, List, ℕ, OnOk};
ghost use Rattle.numbering.specs.NameNumbers.{Numbers, number_of};

use cocoon_num::NoMemory;
use std::alloc::Global;
use std::collections::BTreeMap;

/// Names, each with the index at which it stood first, and how many stood there.
#[derive(Drop)]
pub struct NameTable {
    held: BTreeMap<Vec<u8>, u32>,
    count: u32,
}

impl NameTable {
    pub fn new(alloc: Global) -> NameTable
        ensures { Numbers result [] }
    {
        NameTable {
            held: BTreeMap::new(alloc),
            count: 0,
        }
    }

    /// How many names stood there, those that are the same included.
    pub fn count(&self) -> u32
        ensures { result ≡ self.now.count }
    {
        self.count
    }

    /// The index at which the name stood first.
    pub fn number(&self, name: &[u8]) -> Option<u32>
        ensures { result ≡ number_of self.now name.now }
    {
        self.held.get(name).copied()
    }

    /// One more name, where there is a number for it.
    pub fn add(&mut self, alloc: Global, name: &[u8]) -> Result<(), NoMemory>
        requires room { self.now.count + 1 < 2 ^ 32 }
        ensures { (names : List (List ℕ)) → Numbers self.old names
            → OnOk result (Numbers self.new (names ++ name.now ∷ [])) }
    {
        if self.number(name).is_none() {
            self.held.insert(name.to_vec(alloc)?, self.count)?;
        }
        self.count += 1;
        Ok(())
    }

    /// One more name, however many there are. There is no number for another one after 2^32 - 1 names, which as parts
    /// of a tree take more than 100 GiB: that is told as out of memory.
    pub fn append(&mut self, alloc: Global, name: &[u8]) -> Result<(), NoMemory>
        ensures { (names : List (List ℕ)) → Numbers self.old names
            → OnOk result (Numbers self.new (names ++ name.now ∷ [])) }
    {
        if self.count == u32::MAX {
            return Err(NoMemory);
        }
        self.add(alloc, name)
    }
}
