//! Numbers of lists of arguments, in the order in which they came first.
ghost use Rattle.std.specs.Prelude.{◌≡◌, [], List, ℕ, OnOk, map};
ghost use Rattle.declarations.specs.NameNumbers.{with_name};
ghost use Rattle.lower_rows.specs.Numbered.{Holds, held_index};

use cocoon_num::NoMemory;
use std::alloc::Global;
use std::collections::BTreeMap;

/// Lists of arguments, each once, with their numbers.
#[derive(Drop)]
pub(crate) struct ArgsTable {
    held: BTreeMap<Vec<u64>, usize>,
    pub(crate) lists: Vec<Vec<u64>>,
}

impl ArgsTable {
    pub(crate) fn new(alloc: Global) -> ArgsTable
        ensures { Holds result [] }
    {
        ArgsTable {
            held: BTreeMap::new(alloc),
            lists: Vec::new(alloc),
        }
    }

    /// The number of some arguments.
    pub(crate) fn number(&self, args: &[u64]) -> Option<usize>
        ensures { result ≡ held_index self.now args.now }
    {
        self.held.get(args).copied()
    }

    /// Gives the next number to some arguments that have none.
    pub(crate) fn add(&mut self, alloc: Global, args: &[u64]) -> Result<(), NoMemory>
        ensures { (ns : List (List ℕ)) → Holds self.old ns
            → OnOk result (Holds self.new (with_name ns args.now)) }
    {
        if self.number(args).is_none() {
            self.held.insert(args.to_vec(alloc)?, self.lists.len())?;
            self.lists.push(args.to_vec(alloc)?)?;
        }
        Ok(())
    }
}
