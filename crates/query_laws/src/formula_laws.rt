//! What leaves and formulas apply. The functions do nothing; their contracts are the laws.
ghost use Rattle.std.specs.Prelude.{◌≡◌, ◌≤◌, List, ℕ, slice_get, Some, suc};
ghost use Rattle.cocoon_num.specs.Tree.{Design, Role};
ghost use Rattle.cocoon_types.specs.Design.{last_level, role_at};
ghost use Rattle.cocoon_types.specs.Rules.{WellFormed};
ghost use Rattle.sound_types.specs.Literals.{DesignLiteralsFit};
ghost use Rattle.obligation_laws.specs.Leaves.{body_tree, inlined, Leaf};
ghost use Rattle.obligation_laws.specs.Obligations.{Obligation, all_obligations};
ghost use Rattle.query_laws.specs.LeafTerms.{LeafApplies, Stands};

use crate::applied_laws::terms_apply_declared_functions;
use obligation_laws::expr_laws::terms_have_widths;
use sound_types::laws::declarations_are_typed;

/// The terms of a leaf apply run-time functions of the design alone, each at the widths that it is
/// declared with.
pub fn leaves_apply_declared_functions()
    ensures inlined { (d : Design) → WellFormed d → DesignLiteralsFit d
        → (above : ℕ) (role : List ℕ) (r : Role) → role_at (suc above) d role ≡ Some r
        → (within first n : ℕ) (leaf : Leaf)
        → slice_get (inlined above d role within first).leaves n ≡ Some leaf
        → LeafApplies (suc above) d leaf }
    ensures one_body { (d : Design) → WellFormed d → DesignLiteralsFit d
        → (level : ℕ) (role : List ℕ) (r : Role) → role_at level d role ≡ Some r
        → (first n : ℕ) (leaf : Leaf)
        → slice_get (body_tree level d role first).leaves n ≡ Some leaf
        → LeafApplies level d leaf }
{
    terms_have_widths();
    terms_apply_declared_functions();
    declarations_are_typed();
}

/// A formula is a truth value, and so it is with the functions that it applies.
pub fn formulas_apply_declared_functions()
    ensures { (d : Design) → WellFormed d → DesignLiteralsFit d
        → (n : ℕ) (o : Obligation) → slice_get (all_obligations d) n ≡ Some o
        → Stands d 1 o.formula }
{
    leaves_apply_declared_functions();
}

/// An obligation is of a level that refines one.
pub fn obligations_have_levels()
    ensures { (d : Design) (n : ℕ) (o : Obligation) → slice_get (all_obligations d) n ≡ Some o
        → (1 ≤ o.level) × (o.level ≤ last_level d) }
{}
