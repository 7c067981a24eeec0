//! Sets of functions of a design.
ghost use Rattle.std.specs.Prelude.{◌≡◌, ◌==◌, ◌∷◌, [], ℕ, false, is_some, List, OnOk, true};
ghost use Rattle.cocoon_num.specs.Lists.{is_one_of};
ghost use Rattle.cocoon_num.specs.Tree.{Design as Tree};
ghost use Rattle.cocoon_syntax.specs.TreeOf.{design_of};
ghost use Rattle.declarations.specs.Declares.{function_number};
ghost use Rattle.runtime_defs.specs.Sets.{has_flag, Holds};

use cocoon_num::NoMemory;
use cocoon_resolve::Checked;
use std::alloc::Global;

/// For each function, by its number, whether it is in the set; those past the end are not.
#[derive(Drop)]
pub(crate) struct FunctionSet {
    flags: Vec<bool>,
}

fn flag(flags: &[bool], index: usize) -> bool
    ensures { result ≡ has_flag flags.now index }
{
    flags.get(index).copied().unwrap_or(false)
}

/// Sets the flag of an index, however many flags there are.
fn set_flag(flags: &mut Vec<bool>, index: usize) -> Result<(), NoMemory>
    ensures there { OnOk result (has_flag flags.new.items index ≡ true) }
    ensures others { (i : ℕ) → (i == index) ≡ false
        → OnOk result (has_flag flags.new.items i ≡ has_flag flags.old.items i) }
{
    while flags.len() <= index {
        flags.push(false)?;
    }
    flags[index] = true;
    Ok(())
}

impl FunctionSet {
    pub(crate) fn new(alloc: Global) -> FunctionSet
        ensures { (d : Tree) → Holds d [] result }
    {
        FunctionSet {
            flags: Vec::new(alloc),
        }
    }

    /// Adds the function of this name, if there is one.
    pub(crate) fn add(&mut self, checked: &Checked, function: &[u8]) -> Result<(), NoMemory>
        ensures { (fs : List (List ℕ)) → Holds (design_of checked.now) fs self.old
            → OnOk result (Holds (design_of checked.now) (function.now ∷ fs) self.new) }
    {
        if let Some(number) = checked.function_of(function) {
            set_flag(&mut self.flags, number as usize)?;
        }
        Ok(())
    }

    /// Whether the function of this name is in the set.
    pub(crate) fn has(&self, checked: &Checked, function: &[u8]) -> bool
        ensures { (fs : List (List ℕ)) → Holds (design_of checked.now) fs self.now
            → is_some (function_number (design_of checked.now) function.now) ≡ true
            → result ≡ is_one_of fs function.now }
    {
        match checked.function_of(function) {
            Some(number) => flag(&self.flags, number as usize),
            None => false,
        }
    }
}
