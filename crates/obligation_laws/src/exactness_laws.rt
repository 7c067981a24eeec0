//! The law on formulas that are true. The function does nothing; its contract is the law.
ghost use Rattle.std.specs.Prelude.{◌≡◌, ◌↔◌, List, ℕ, slice_get, Some, true};
ghost use Rattle.bv_terms.specs.TermValues.{Inputs};
ghost use Rattle.cocoon_num.specs.Reads.{Reads};
ghost use Rattle.cocoon_num.specs.Tree.{DefsText, Design, Refine};
ghost use Rattle.cocoon_types.specs.RuleParts.{has_name};
ghost use Rattle.cocoon_types.specs.Tables.{defs_of};
ghost use Rattle.obligation_laws.specs.Shown.{functions_by};
ghost use Rattle.sound_types.specs.Defined.{HasDefinitions};
ghost use Rattle.obligation_laws.specs.Leaves.{Leaf};
ghost use Rattle.obligation_laws.specs.Meant.{AllFit, IsOne};
ghost use Rattle.obligation_laws.specs.Formulas.{formula};
ghost use Rattle.obligation_laws.specs.Obligations.{old_tree, refined_tree};
ghost use Rattle.obligation_laws.specs.FailingRuns.{Fails};

use crate::read_back_laws::leaves_read_back;
use crate::tree_laws::{leaves_are_runs, leaves_have_widths, runs_have_leaves};
use cocoon_types::runs::runs_are_taken;
use sound_types::laws::{declarations_are_typed, expressions_have_values};

/// In a design that was read, under the definitions of a text and for inputs that fit a leaf of a role
/// that a block refines: the leaf's formula is true exactly where its run fails.
pub fn formulas_are_failures()
    ensures { (text : List ℕ) (d : Design) → Reads text d → (es : DefsText) → HasDefinitions d es
        → (above : ℕ) (block : Refine) → slice_get d.refines above ≡ Some block
        → (role : List ℕ) → has_name role block.roles ≡ true → (first n : ℕ) (leaf : Leaf)
        → slice_get (refined_tree above d block role first).leaves n ≡ Some leaf
        → (ins : Inputs) → AllFit ins (refined_tree above d block role first).args
        → AllFit ins (refined_tree above d block role first).fields → AllFit ins leaf.choices
        → IsOne (functions_by d (defs_of d es)) ins (formula (old_tree above d block role first)
        (refined_tree above d block role first) leaf)
        ↔ Fails d (defs_of d es) ins above block role (refined_tree above d block role first) leaf }
{
    runs_are_taken();
    leaves_read_back();
    declarations_are_typed();
    expressions_have_values();
    leaves_are_runs();
    leaves_have_widths();
    runs_have_leaves();
}
