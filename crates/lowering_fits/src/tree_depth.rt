//! The depth of the trees of designs, as a law: the contract of a function that does nothing.

ghost use Rattle.std.specs.Prelude.{List, ℕ};
ghost use Rattle.cocoon_num.specs.Reads.{Reads};
ghost use Rattle.cocoon_num.specs.Tree.{Design};
ghost use Rattle.lowering_fits.specs.ShallowTrees.{IsShallowTree};

/// The tree of a text is shallow, since no token of the text is deep.
pub fn readings_are_shallow()
    ensures { (text : List ℕ) (d : Design) → Reads text d → IsShallowTree d }
{}
