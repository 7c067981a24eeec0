//! Laws of trees: a leaf and the runs of its way, and how many leaves there are. The functions do nothing; their contracts are
//! the laws.
ghost use Rattle.std.specs.Prelude.{◌++◌, ◌≡◌, ◌≤◌, false, length, List, ℕ, slice_get, Some, suc};
ghost use Rattle.cocoon_num.specs.Tree.{DefsText, Design, Role};
ghost use Rattle.cocoon_types.specs.Design.{role_at};
ghost use Rattle.cocoon_types.specs.Rules.{WellFormed};
ghost use Rattle.cocoon_types.specs.Runs.{world};
ghost use Rattle.cocoon_types.specs.Tables.{defs_of};
ghost use Rattle.refinement.specs.Segments.{is_new};
ghost use Rattle.refinement.specs.Ways.{go_by, hops_by};
ghost use Rattle.sound_types.specs.Defined.{HasDefinitions};
ghost use Rattle.sound_types.specs.Literals.{DesignLiteralsFit};
ghost use Rattle.obligation_laws.specs.Shown.{functions_by};
ghost use Rattle.obligation_laws.specs.Counts.{leaf_count};
ghost use Rattle.obligation_laws.specs.LeafRuns.{LeavesAreRuns, RunsHaveLeaves};
ghost use Rattle.obligation_laws.specs.LeafForms.{Ascend, EndsBy, LeafFits};
ghost use Rattle.obligation_laws.specs.Leaves.{body_tree, inlined, Leaf};

use crate::expr_laws::terms_have_widths;
use sound_types::laws::{declarations_are_typed, expressions_have_values};

/// Under any definitions of a text, and for inputs that fit: a leaf is true exactly where the run
/// with its choices takes its way, and then the run ends as the leaf says.
pub fn leaves_are_runs()
    ensures inlined { (d : Design) (es : DefsText) → HasDefinitions d es
        → (above within : ℕ) → 1 ≤ within
        → (role : List ℕ) (r : Role) → role_at (suc above) d role ≡ Some r → (first : ℕ)
        → LeavesAreRuns (functions_by d (defs_of d es)) d.headers role
        (inlined above d role within first) (hops_by above d (defs_of d es) within) }
    ensures one_body { (d : Design) (es : DefsText) → HasDefinitions d es
        → (level : ℕ) (role : List ℕ) (r : Role) → role_at level d role ≡ Some r → (first : ℕ)
        → LeavesAreRuns (functions_by d (defs_of d es)) d.headers role
        (body_tree level d role first) (go_by (world level d (defs_of d es))) }
{
    declarations_are_typed();
    expressions_have_values();
}

/// Each run has its leaf: there are inputs at which the leaf is true, takes the run's choices and
/// ends as the run does.
pub fn runs_have_leaves()
    ensures inlined { (d : Design) (es : DefsText) → HasDefinitions d es
        → (above within : ℕ) → 1 ≤ within
        → (role : List ℕ) (r : Role) → role_at (suc above) d role ≡ Some r → (first : ℕ)
        → RunsHaveLeaves (functions_by d (defs_of d es)) d.headers role
        (inlined above d role within first) (hops_by above d (defs_of d es) within) }
    ensures one_body { (d : Design) (es : DefsText) → HasDefinitions d es
        → (level : ℕ) (role : List ℕ) (r : Role) → role_at level d role ≡ Some r → (first : ℕ)
        → RunsHaveLeaves (functions_by d (defs_of d es)) d.headers role
        (body_tree level d role first) (go_by (world level d (defs_of d es))) }
{
    declarations_are_typed();
    expressions_have_values();
}

/// The number of leaves is the one that is counted without a tree.
pub fn leaves_are_counted()
    ensures inlined { (d : Design) (above : ℕ) (role : List ℕ) (within first : ℕ)
        → length (inlined above d role within first).leaves
        ≡ leaf_count (role_at (suc above) d) (is_new above d) within role }
    ensures one_body { (d : Design) (level : ℕ) (role : List ℕ) (first : ℕ)
        → length (body_tree level d role first).leaves
        ≡ leaf_count (role_at level d) (λ r. false) 1 role }
{}

/// A leaf's condition is a truth value, and its other terms have the widths of the parameters and
/// the fields that they stand for.
pub fn leaves_have_widths()
    ensures inlined { (d : Design) → WellFormed d → DesignLiteralsFit d
        → (above : ℕ) (role : List ℕ) (r : Role) → role_at (suc above) d role ≡ Some r
        → (within first n : ℕ) (leaf : Leaf)
        → slice_get (inlined above d role within first).leaves n ≡ Some leaf
        → LeafFits (suc above) d leaf }
    ensures one_body { (d : Design) → WellFormed d → DesignLiteralsFit d
        → (level : ℕ) (role : List ℕ) (r : Role) → role_at level d role ≡ Some r
        → (first n : ℕ) (leaf : Leaf)
        → slice_get (body_tree level d role first).leaves n ≡ Some leaf
        → LeafFits level d leaf }
{
    declarations_are_typed();
    terms_have_widths();
}

/// A leaf of several bodies ends inside, if and only if its last role is new; one body's leaves
/// never do.
pub fn leaves_end_by_role()
    ensures inlined { (d : Design) (above : ℕ) (role : List ℕ) (within first n : ℕ) (leaf : Leaf)
        → slice_get (inlined above d role within first).leaves n ≡ Some leaf
        → EndsBy (is_new above d) leaf.end }
    ensures one_body { (d : Design) (level : ℕ) (role : List ℕ) (first n : ℕ) (leaf : Leaf)
        → slice_get (body_tree level d role first).leaves n ≡ Some leaf
        → EndsBy (λ r. false) leaf.end }
{}

/// The inputs of a leaf, parameters, fields and then choices, have ascending numbers, from the
/// first on and below that of the next input. So no two are the same.
pub fn inputs_ascend()
    ensures inlined { (d : Design) (above : ℕ) (role : List ℕ) (within first n : ℕ) (leaf : Leaf)
        → slice_get (inlined above d role within first).leaves n ≡ Some leaf
        → Ascend first (inlined above d role within first).next
        ((inlined above d role within first).args ++ ((inlined above d role within first).fields
        ++ leaf.choices)) }
    ensures one_body { (d : Design) (level : ℕ) (role : List ℕ) (first n : ℕ) (leaf : Leaf)
        → slice_get (body_tree level d role first).leaves n ≡ Some leaf
        → Ascend first (body_tree level d role first).next
        ((body_tree level d role first).args ++ ((body_tree level d role first).fields
        ++ leaf.choices)) }
{}
