//! Laws of obligations: leaves whose formula is never true, and blocks whose leaves never fail. The functions do nothing;
//! their contracts are the laws.
ghost use Rattle.std.specs.Prelude.{[], ◌∷◌, ◌≡◌, All, codes, List, ℕ, slice_get, Some};
ghost use Rattle.bv_terms.specs.TermTrees.{Term, binary, constant, input, not_};
ghost use Rattle.bv_terms.specs.declared.node.TermOp.TheVariants as op;
ghost use Rattle.cocoon_num.specs.Tree.{Design, Refine};
ghost use Rattle.cocoon_types.specs.Rules.{WellFormed};
ghost use Rattle.refinement.specs.Owed.{Contained, Refines, Within};
ghost use Rattle.sound_types.specs.Literals.{DesignLiteralsFit};
ghost use Rattle.obligation_laws.specs.Leaves.{inside, sent_to};
ghost use Rattle.obligation_laws.specs.Failing.{NeverFails, NeverTrue};
ghost use Rattle.obligation_laws.specs.Formulas.{formula, read_back};
ghost use Rattle.obligation_laws.specs.Obligations.{Obligation, all_obligations, obligations_behind, of_block};
ghost use Rattle.obligation_laws.specs.SmallTrees.{byte, first_part, second_part, small_leaf, small_old, small_tree};

use crate::tree_laws::{leaves_are_runs, leaves_have_widths, runs_have_leaves};
use cocoon_types::runs::runs_are_taken;
use sound_types::laws::{declarations_are_typed, expressions_have_values};

/// A leaf whose formula is never true never fails.
pub fn untrue_formulas_never_fail()
    ensures behind { (d : Design) → WellFormed d → DesignLiteralsFit d
        → (above first n : ℕ) (o : Obligation)
        → slice_get (obligations_behind above d first).0 n ≡ Some o
        → NeverTrue o.level d o.formula → NeverFails d o }
    ensures all { (d : Design) → WellFormed d → DesignLiteralsFit d
        → (n : ℕ) (o : Obligation) → slice_get (all_obligations d) n ≡ Some o
        → NeverTrue o.level d o.formula → NeverFails d o }
{
    runs_are_taken();
    declarations_are_typed();
    expressions_have_values();
    leaves_are_runs();
    leaves_have_widths();
    runs_have_leaves();
}

/// A block all of whose leaves never fail is contained and bounded.
pub fn blocks_that_never_fail_are_refined()
    ensures block { (d : Design) → WellFormed d → DesignLiteralsFit d
        → (above : ℕ) (block : Refine) → slice_get d.refines above ≡ Some block → (first : ℕ)
        → All (NeverFails d) (of_block above d block first).0
        → Contained above d block × Within above d block }
    ensures design { (d : Design) → WellFormed d → DesignLiteralsFit d
        → All (NeverFails d) (all_obligations d) → Refines d }
{
    runs_are_taken();
    declarations_are_typed();
    expressions_have_values();
    leaves_are_runs();
    leaves_have_widths();
    runs_have_leaves();
}

/// A choice that stands alone as the second and the third value is the second one that is sent; one
/// that stands alone as a field is that field; and for one that does neither 0 stands.
pub fn choices_are_read_back()
    ensures value { (r : List ℕ) (a b c f : Term)
        → read_back (sent_to r (constant 8 1 ∷ input 4 8 ∷ input 4 8 ∷ []) (input 4 8 ∷ []))
        (sent_to r (a ∷ b ∷ c ∷ []) (f ∷ [])) (byte 4) ≡ b }
    ensures field { (r : List ℕ) (a f g : Term)
        → read_back (sent_to r (not_ (input 4 8) ∷ []) (input 5 8 ∷ input 4 8 ∷ []))
        (sent_to r (a ∷ []) (f ∷ g ∷ [])) (byte 4) ≡ g }
    ensures nowhere { (r : List ℕ) (a f : Term)
        → read_back (sent_to r (not_ (input 4 8) ∷ []) (input 5 8 ∷ []))
        (sent_to r (a ∷ []) (f ∷ [])) (byte 4) ≡ constant 8 0 }
{}

/// A leaf is compared with each old leaf that sends to the same role, and with no other. Where there
/// is none, it fails where it is true, as one does that ends inside.
pub fn leaves_are_compared()
    ensures two { (c v f : Term)
        → formula small_old small_tree (small_leaf c (sent_to (codes "A") (v ∷ []) (f ∷ [])))
        ≡ binary op.And c (not_ (binary op.Or (first_part v f) (second_part v f))) }
    ensures none { (c v f : Term)
        → formula small_old small_tree (small_leaf c (sent_to (codes "C") (v ∷ []) (f ∷ [])))
        ≡ binary op.And c (not_ (constant 1 0)) }
    ensures inside { (c v f : Term)
        → formula small_old small_tree (small_leaf c (inside (codes "A") (v ∷ []) (f ∷ []))) ≡ c }
{}
