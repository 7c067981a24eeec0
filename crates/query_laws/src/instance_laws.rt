//! What instances of assumptions say. The functions do nothing; their contracts are the laws.
ghost use Rattle.std.specs.Prelude.{◌≡◌, ◌<◌, ℕ, Bool, List, Some, length, slice_get};
ghost use Rattle.std.specs.List.{AllByRecursion};
ghost use Rattle.cocoon_num.specs.Tree.{AssumeDecl, Design};
ghost use Rattle.cocoon_resolve.specs.Readers.{all_assumptions, assumptions_to};
ghost use Rattle.cocoon_types.specs.Rules.{WellFormed};
ghost use Rattle.cocoon_types.specs.Tables.{Defs};
ghost use Rattle.bv_terms.specs.Inputs.{InputsFit};
ghost use Rattle.bv_terms.specs.TermTrees.{IsTerm, Term};
ghost use Rattle.bv_terms.specs.TermValues.{Inputs};
ghost use Rattle.refinement.specs.Assumptions.{AreDefinitions, Meets};
ghost use Rattle.sound_types.specs.Literals.{DesignLiteralsFit};
ghost use Rattle.obligation_laws.specs.Shown.{HasWidth};
ghost use Rattle.query_laws.specs.Over.{AllOver, IsOver};
ghost use Rattle.fun_instances.specs.AssumptionTerms.{own_term, value_term};
ghost use Rattle.fun_instances.specs.Saying.{IsTrueUnder};
ghost use Rattle.fun_instances.specs.Taking.{NumbersFit, OfAssumption};
ghost use Rattle.bv_terms.specs.Walks.{applications};
ghost use Rattle.query_laws.specs.Patterns.{patterns};
ghost use Rattle.query_laws.specs.TupleFits.{FitsParams, HasAllPlaces};
ghost use Rattle.query_laws.specs.Tuples.{pattern_terms, tuples_of};

use crate::applied_laws::terms_apply_declared_functions;
use crate::over::definitions_fit_design_terms;
use flat_laws::fitting::values_fit;
use fun_instances::laws::{assumptions_have_width_1, met_assumptions_are_true};
use sound_types::laws::declarations_are_typed;

/// The term of an assumption over inputs of its own applies run-time functions of the design alone,
/// each at the widths that it is declared with.
pub fn own_terms_are_over_the_design()
    ensures { (d : Design) → WellFormed d → DesignLiteralsFit d → (i : ℕ)
        → OfAssumption d i (λ a. (inputs : ℕ → ℕ → Bool) × IsOver d inputs (own_term d a)) }
{
    declarations_are_typed();
    terms_apply_declared_functions();
}

/// The assumptions of some levels are the first of all.
pub fn earlier_levels_come_first()
    ensures { (d : Design) (level i : ℕ) (a : AssumeDecl)
        → slice_get (assumptions_to level d) i ≡ Some a → slice_get (all_assumptions d) i ≡ Some a }
{}

/// The applications of a goal have arguments where patterns of their functions have places, and a
/// tuple has one term for each parameter, of its width.
pub fn tuples_fit()
    ensures places { (d : Design) → WellFormed d → DesignLiteralsFit d → (i : ℕ)
        → OfAssumption d i (λ a. (inputs : ℕ → ℕ → Bool) (goal : Term) → IsOver d inputs goal
        → AllByRecursion (HasAllPlaces (patterns d a)) (applications goal)) }
    ensures widths { (d : Design) → WellFormed d → DesignLiteralsFit d → (i : ℕ)
        → OfAssumption d i (λ a. (inputs : ℕ → ℕ → Bool) (goal : Term) → IsOver d inputs goal
        → AllByRecursion (FitsParams a) (tuples_of d a goal)) }
{
    declarations_are_typed();
    terms_apply_declared_functions();
}

/// Instances are true under definitions that meet the assumptions up to their level.
pub fn instances_hold()
    ensures patterns { (d : Design) → WellFormed d → DesignLiteralsFit d → (level : ℕ) (defs : Defs)
        → AreDefinitions d defs → Meets level d defs → (inputs : ℕ → ℕ → Bool) (goal : Term)
        → IsTerm goal → IsOver d inputs goal → (ins : Inputs) → InputsFit goal ins
        → AllByRecursion (IsTrueUnder d defs ins) (pattern_terms d level goal) }
    ensures values { (d : Design) → WellFormed d → DesignLiteralsFit d → (level : ℕ) (defs : Defs)
        → AreDefinitions d defs → Meets level d defs → (i : ℕ)
        → i < length (assumptions_to level d) → OfAssumption d i (λ a.
        (ns : List ℕ) → NumbersFit a ns → (ins : Inputs)
        → IsTrueUnder d defs ins (value_term d a ns)) }
{
    declarations_are_typed();
    met_assumptions_are_true();
    terms_apply_declared_functions();
    values_fit();
    definitions_fit_design_terms();
}

/// Instances have width 1. They apply run-time functions of the design alone, each at the widths
/// that it is declared with, and have inputs of the goal alone; those at numbers have no inputs.
pub fn instances_fit()
    ensures pattern_widths { (d : Design) → WellFormed d → DesignLiteralsFit d → (level : ℕ)
        (inputs : ℕ → ℕ → Bool) (goal : Term) → IsOver d inputs goal
        → AllByRecursion (HasWidth 1) (pattern_terms d level goal) }
    ensures patterns_over { (d : Design) → WellFormed d → DesignLiteralsFit d → (level : ℕ)
        (inputs : ℕ → ℕ → Bool) (goal : Term) → IsOver d inputs goal
        → AllOver d inputs (pattern_terms d level goal) }
    ensures value_widths { (d : Design) → WellFormed d → DesignLiteralsFit d → (i : ℕ)
        → OfAssumption d i (λ a. (ns : List ℕ) → NumbersFit a ns → HasWidth 1 (value_term d a ns)) }
    ensures values_over { (d : Design) → WellFormed d → DesignLiteralsFit d → (i : ℕ)
        → OfAssumption d i (λ a. (ns : List ℕ) → NumbersFit a ns
        → (inputs : ℕ → ℕ → Bool) → IsOver d inputs (value_term d a ns)) }
{
    declarations_are_typed();
    assumptions_have_width_1();
    terms_apply_declared_functions();
}
