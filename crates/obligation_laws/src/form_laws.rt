//! The law on widths of formulas. The function does nothing; its contract is the law.
ghost use Rattle.std.specs.Prelude.{◌≡◌, List, ℕ, slice_get, Some};
ghost use Rattle.cocoon_num.specs.Tree.{Design, Refine};
ghost use Rattle.cocoon_types.specs.Rules.{WellFormed};
ghost use Rattle.obligation_laws.specs.Shown.{HasWidth};
ghost use Rattle.sound_types.specs.Literals.{DesignLiteralsFit};
ghost use Rattle.obligation_laws.specs.Leaves.{end_role, Leaf};
ghost use Rattle.obligation_laws.specs.Formulas.{formula};
ghost use Rattle.obligation_laws.specs.Obligations.{old_tree, refined_tree};
ghost use Rattle.obligation_laws.specs.FormulaForms.{PartFits};

use crate::tree_laws::leaves_have_widths;
use sound_types::laws::declarations_are_typed;

/// A formula has width 1, and the terms of each of its parts have the widths that they are joined at.
pub fn formulas_fit()
    ensures formulas { (d : Design) → WellFormed d → DesignLiteralsFit d
        → (above : ℕ) (block : Refine) → slice_get d.refines above ≡ Some block
        → (role : List ℕ) (first n : ℕ) (leaf : Leaf)
        → slice_get (refined_tree above d block role first).leaves n ≡ Some leaf
        → HasWidth 1 (formula (old_tree above d block role first)
        (refined_tree above d block role first) leaf) }
    ensures parts { (d : Design) → WellFormed d → DesignLiteralsFit d
        → (above : ℕ) (block : Refine) → slice_get d.refines above ≡ Some block
        → (role : List ℕ) (first n m : ℕ) (leaf old : Leaf)
        → slice_get (refined_tree above d block role first).leaves n ≡ Some leaf
        → slice_get (old_tree above d block role first).leaves m ≡ Some old
        → end_role leaf.end ≡ end_role old.end
        → PartFits (old_tree above d block role first) old
        (refined_tree above d block role first) leaf }
{
    declarations_are_typed();
    leaves_have_widths();
}
