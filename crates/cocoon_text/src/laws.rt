//! A text has one first fault, or a tree and none.
ghost use Rattle.std.specs.Prelude.{◌≡◌, List, ℕ};
ghost use Rattle.cocoon_num.specs.Tree.{DefsText, Design};
ghost use Rattle.cocoon_num.specs.Reads.{Reads, ReadsDefs};
ghost use Rattle.cocoon_num.specs.FirstFaults.{BeginsDefs, BeginsDesign};
ghost use Rattle.cocoon_text.specs.TextFaults.{FirstFault};

use crate::fault::TextFault;
pub use parsing::text_laws::{one_definitions_tree, one_tree};

/// A text has at most one first fault.
pub fn one_fault()
    ensures designs { (text : List ℕ) (f g : TextFault) → FirstFault BeginsDesign text f
        → FirstFault BeginsDesign text g → f ≡ g }
    ensures definitions { (text : List ℕ) (f g : TextFault) → FirstFault BeginsDefs text f
        → FirstFault BeginsDefs text g → f ≡ g }
{}

/// A text with a tree has no fault.
pub fn trees_have_no_fault()
    ensures designs { (text : List ℕ) (d : Design) (f : TextFault) → Reads text d
        → ¬ FirstFault BeginsDesign text f }
    ensures definitions { (text : List ℕ) (d : DefsText) (f : TextFault) → ReadsDefs text d
        → ¬ FirstFault BeginsDefs text f }
{}
