//! The law on choices that are read back. The function does nothing; its contract is the law.
ghost use Rattle.std.specs.Prelude.{◌≡◌, List, ℕ, slice_get, Some, true};
ghost use Rattle.cocoon_num.specs.Reads.{Reads};
ghost use Rattle.cocoon_num.specs.Tree.{Design, Role};
ghost use Rattle.cocoon_resolve.specs.Readers.{reads_back};
ghost use Rattle.cocoon_types.specs.Design.{role_at};
ghost use Rattle.cocoon_types.specs.Rules.{WellFormed};
ghost use Rattle.sound_types.specs.Literals.{DesignLiteralsFit};
ghost use Rattle.obligation_laws.specs.Leaves.{body_tree, Leaf};
ghost use Rattle.obligation_laws.specs.States.{NewInput};
ghost use Rattle.obligation_laws.specs.ReadBackLeaves.{IsReadBack};

use refinement::laws::statements_differ;
use sound_types::laws::declarations_are_typed;

/// In a design that was read, of a body that reads back: each choice of a leaf stands alone among the
/// values and fields that the leaf sends, or no term of the leaf names it.
pub fn leaves_read_back()
    ensures { (text : List ℕ) (d : Design) → Reads text d → WellFormed d → DesignLiteralsFit d
        → (level : ℕ) (role : List ℕ) (r : Role) → role_at level d role ≡ Some r
        → reads_back d r ≡ true → (first n : ℕ) (leaf : Leaf)
        → slice_get (body_tree level d role first).leaves n ≡ Some leaf
        → (m : ℕ) (i : NewInput) → slice_get leaf.choices m ≡ Some i → IsReadBack leaf i }
{
    statements_differ();
    declarations_are_typed();
}
