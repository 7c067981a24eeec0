//! More laws of leaves. The functions do nothing; their contracts are the laws.
ghost use Rattle.std.specs.Prelude.{◌++◌, ◌≡◌, ℕ, List, slice_get, Some, suc};
ghost use Rattle.cocoon_num.specs.Tree.{DefsText, Design, Role};
ghost use Rattle.cocoon_types.specs.Design.{role_at};
ghost use Rattle.cocoon_types.specs.Tables.{defs_of};
ghost use Rattle.bv_terms.specs.Inputs.{InputsFit};
ghost use Rattle.bv_terms.specs.TermTrees.{Term};
ghost use Rattle.bv_terms.specs.TermValues.{Inputs};
ghost use Rattle.cocoon_num.specs.Values.{FitsWidth};
ghost use Rattle.sound_types.specs.Defined.{HasDefinitions};
ghost use Rattle.obligation_laws.specs.Leaves.{body_tree, inlined, Leaf};
ghost use Rattle.obligation_laws.specs.Meant.{AllFit};
ghost use Rattle.obligation_laws.specs.LeafShown.{LeafShown};
ghost use Rattle.obligation_laws.specs.MadeOf.{LeafMade, Made, OneOf};

use sound_types::laws::{declarations_are_typed, expressions_have_values};

/// Different leaves of a tree have different ways.
pub fn ways_differ()
    ensures inlined { (d : Design) (above : ℕ) (role : List ℕ) (within first m n : ℕ) (a b : Leaf)
        → slice_get (inlined above d role within first).leaves m ≡ Some a
        → slice_get (inlined above d role within first).leaves n ≡ Some b
        → a.way ≡ b.way → a ≡ b }
    ensures one_body { (d : Design) (level : ℕ) (role : List ℕ) (first m n : ℕ) (a b : Leaf)
        → slice_get (body_tree level d role first).leaves m ≡ Some a
        → slice_get (body_tree level d role first).leaves n ≡ Some b
        → a.way ≡ b.way → a ≡ b }
{}

/// The terms of a leaf name its inputs alone: its parameters, fields and choices, each with its width.
/// Numbers fit a term if they fit the inputs that it names.
pub fn leaves_name_their_inputs()
    ensures inlined { (d : Design) (above : ℕ) (role : List ℕ) (within first n : ℕ) (leaf : Leaf)
        → slice_get (inlined above d role within first).leaves n ≡ Some leaf
        → LeafMade (OneOf ((inlined above d role within first).args
        ++ ((inlined above d role within first).fields ++ leaf.choices))) leaf }
    ensures one_body { (d : Design) (level : ℕ) (role : List ℕ) (first n : ℕ) (leaf : Leaf)
        → slice_get (body_tree level d role first).leaves n ≡ Some leaf
        → LeafMade (OneOf ((body_tree level d role first).args
        ++ ((body_tree level d role first).fields ++ leaf.choices))) leaf }
    ensures fit { (ins : Inputs) (t : Term) → Made (λ i w. FitsWidth w (ins i)) t
        → InputsFit t ins }
{}

/// Under the definitions of a text, and for inputs that fit, the terms of a leaf have values of the
/// widths of what they stand for.
pub fn leaves_have_values()
    ensures inlined { (d : Design) (es : DefsText) → HasDefinitions d es
        → (ins : Inputs) (above : ℕ) (role : List ℕ) (r : Role)
        → role_at (suc above) d role ≡ Some r → (within first n : ℕ) (leaf : Leaf)
        → slice_get (inlined above d role within first).leaves n ≡ Some leaf
        → AllFit ins (inlined above d role within first).args
        → AllFit ins (inlined above d role within first).fields → AllFit ins leaf.choices
        → LeafShown d (defs_of d es) ins (suc above) leaf }
    ensures one_body { (d : Design) (es : DefsText) → HasDefinitions d es
        → (ins : Inputs) (level : ℕ) (role : List ℕ) (r : Role)
        → role_at level d role ≡ Some r → (first n : ℕ) (leaf : Leaf)
        → slice_get (body_tree level d role first).leaves n ≡ Some leaf
        → AllFit ins (body_tree level d role first).args
        → AllFit ins (body_tree level d role first).fields → AllFit ins leaf.choices
        → LeafShown d (defs_of d es) ins level leaf }
{
    declarations_are_typed();
    expressions_have_values();
}
