//! Functions by name, and by their number in the order of declaration.
ghost use Rattle.std.specs.Prelude.{◌≡◌, [], ◌∷◌, ◌++◌, List, OnOk, Some, option_map, slice_get};
ghost use Rattle.numbering.specs.NameNumbers.{number_of};
ghost use Rattle.declarations.specs.Places.{Placed};
ghost use Rattle.declarations.specs.Declares.{HoldsFunctions};
ghost use Rattle.cocoon_num.specs.Tree.{a_function};
ghost use Rattle.cocoon_syntax.specs.TreeOf.{function_of};

use crate::place::{Place, item};
use cocoon_num::NoMemory;
use cocoon_syntax::FunctionDecl;
use numbering::NameTable;
use std::alloc::Global;

/// The functions, and where each is declared.
#[derive(Drop)]
pub struct FunctionTable {
    names: NameTable,
    places: Vec<Place>,
}

impl FunctionTable {
    pub fn new(alloc: Global) -> FunctionTable
        ensures { HoldsFunctions result [] }
    {
        FunctionTable {
            names: NameTable::new(alloc),
            places: Vec::new(alloc),
        }
    }

    /// One more function.
    pub fn append(
        &mut self,
        alloc: Global,
        place: Place,
        function: &FunctionDecl,
    ) -> Result<(), NoMemory>
        ensures { (placed : List Placed) → HoldsFunctions self.old placed
            → OnOk result (HoldsFunctions self.new
            (placed ++ (place, a_function (function_of function.now)) ∷ [])) }
    {
        self.places.push(place)?;
        self.names.append(alloc, function.name.text.bytes())?;
        Ok(())
    }

    /// The number of the first function of this name.
    pub fn number(&self, name: &[u8]) -> Option<u32>
        ensures { result ≡ number_of self.now.names name.now }
    {
        self.names.number(name)
    }

    /// Where the function of this number is declared.
    pub fn place(&self, number: u32) -> Option<Place>
        ensures { result ≡ slice_get self.now.places.items number }
    {
        item(&self.places, number as usize).copied()
    }
}
