//! Roles by name, and the declarations of each.
ghost use Rattle.std.specs.Prelude.{◌≡◌, [], ◌∷◌, ◌++◌, ◌<◌, List, OnOk, length, set, slice_get, Some};
ghost use Rattle.std.specs.List.Sorted.{IsNonDecreasingBy};
ghost use Rattle.cocoon_num.specs.Lists.{first_of};
ghost use Rattle.cocoon_num.specs.Tree.{a_role};
ghost use Rattle.cocoon_syntax.specs.TreeOf.{role_of};
ghost use Rattle.numbering.specs.NameNumbers.{number_of};
ghost use Rattle.declarations.specs.Places.{Placed};
ghost use Rattle.declarations.specs.Declares.{AddsAt, AddsName, HoldsRoles, latest_of, places_at};

use crate::place::{Place, item};
use cocoon_num::NoMemory;
use cocoon_syntax::Role;
use numbering::NameTable;
use std::alloc::Global;

/// The roles in the order of their first declarations, and the places of all declarations of each.
#[derive(Drop)]
pub struct RoleTable {
    names: NameTable,
    places: Vec<Vec<Place>>,
}

fn add_place(lists: &mut Vec<Vec<Place>>, number: u32, place: Place) -> Result<(), NoMemory>
    ensures { number < length lists.old.items
        → OnOk result (AddsAt number place lists.old.items lists.new.items) }
{
    if (number as usize) < lists.len() {
        lists[number as usize].push(place)?;
    }
    Ok(())
}

/// The last place at a level of at most this.
fn latest(places: &[Place], level: u32) -> Option<Place>
    requires { IsNonDecreasingBy (λ (p : Place). p.level) places.now }
    ensures { result ≡ latest_of level places.now }
{
    let count = places.partition_point(|place| place.level <= level);
    item(places, count.checked_sub(1)?).copied()
}

impl RoleTable {
    pub fn new(alloc: Global) -> RoleTable
        ensures { HoldsRoles result [] }
    {
        RoleTable {
            names: NameTable::new(alloc),
            places: Vec::new(alloc),
        }
    }

    fn append_new(&mut self, alloc: Global, place: Place, name: &[u8]) -> Result<(), NoMemory>
        ensures { OnOk result (AddsName self.old self.new place name.now) }
    {
        let mut places = Vec::new(alloc);
        places.push(place)?;
        self.places.push(places)?;
        self.names.append(alloc, name)?;
        Ok(())
    }

    /// One more declaration of a role.
    pub fn append(&mut self, alloc: Global, place: Place, role: &Role) -> Result<(), NoMemory>
        ensures { (placed : List Placed) → HoldsRoles self.old placed
            → OnOk result (HoldsRoles self.new
            (placed ++ (place, a_role (role_of role.now)) ∷ [])) }
    {
        match self.names.number(role.name.text.bytes()) {
            Some(number) => add_place(&mut self.places, number, place)?,
            None => self.append_new(alloc, place, role.name.text.bytes())?,
        }
        Ok(())
    }

    /// The number of the role.
    pub fn number(&self, name: &[u8]) -> Option<u32>
        ensures { result ≡ number_of self.now.names name.now }
    {
        self.names.number(name)
    }

    /// The first place of a role.
    pub fn first(&self, number: u32) -> Option<Place>
        ensures { result ≡ first_of (places_at self.now number) }
    {
        item(&self.places, number as usize)?.first().copied()
    }

    /// The last place of a role at a level of at most this.
    pub fn latest(&self, number: u32, level: u32) -> Option<Place>
        requires { IsNonDecreasingBy (λ (p : Place). p.level) (places_at self.now number) }
        ensures { result ≡ latest_of level (places_at self.now number) }
    {
        latest(item(&self.places, number as usize)?, level)
    }
}
