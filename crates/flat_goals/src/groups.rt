//! The applications of each function.
ghost use Rattle.std.specs.Prelude.{◌≡◌, ℕ, [], OnOk};
ghost use Rattle.flat_goals.specs.Groups.{IsAdded, places_of};

use bv_terms::FunId;
use cocoon_num::NoMemory;
use std::alloc::Global;
use std::collections::BTreeMap;

/// The places of the applications of each function so far, in order.
#[derive(Drop)]
pub(crate) struct Groups {
    pub(crate) places: BTreeMap<FunId, Vec<usize>>,
}

impl Groups {
    pub(crate) fn new(alloc: Global) -> Groups
        ensures { (function : ℕ) → places_of result function ≡ [] }
    {
        Groups {
            places: BTreeMap::new(alloc),
        }
    }

    pub(crate) fn of(&self, function: FunId) -> &[usize]
        ensures { result.now ≡ places_of self.now function }
    {
        match self.places.get(&function) {
            Some(places) => places.as_slice(),
            None => &[],
        }
    }

    /// One more place of a function.
    pub(crate) fn add(
        &mut self,
        alloc: Global,
        function: FunId,
        place: usize,
    ) -> Result<(), NoMemory>
        ensures { OnOk result (IsAdded self.old self.new function place) }
    {
        let mut places = match self.places.remove(&function) {
            Some(places) => places,
            None => Vec::new(alloc),
        };
        places.push(place)?;
        self.places.insert(function, places)?;
        Ok(())
    }
}
