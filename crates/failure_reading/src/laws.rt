//! The law on formulas that are true. The function does nothing; its contract is the law.
ghost use Rattle.bv_terms.specs.TermValues.{Inputs};
ghost use Rattle.cocoon_num.specs.Tree.{Design};
ghost use Rattle.cocoon_resolve.specs.Resolved.{WasRead};
ghost use Rattle.cocoon_types.specs.Rules.{WellFormed};
ghost use Rattle.failures.specs.Found.{BeginFits, CanFail, NoneBegins};
ghost use Rattle.obligation_gen.specs.Shown.{kind_in};
ghost use Rattle.obligation_gen.specs.declared.obligation.Obligation.{Obligation};
ghost use Rattle.sound_types.specs.Literals.{DesignLiteralsFit};
ghost use Rattle.bv_terms.specs.WithRows.{Tables};
ghost use Rattle.failure_reading.specs.Witnesses.{AreShort, begin_of, Fails, HasFailure, IsTrueFor};

use obligation_laws::exactness_laws::formulas_are_failures;
use obligation_laws::leaf_laws::leaves_have_values;
use obligation_laws::tree_laws::leaves_end_by_role;
use query_laws::formula_laws::formulas_apply_declared_functions;
use query_laws::search_laws::formulas_stay_true;
use refinement::laws::{levels_keep_roles, segments_are_hops};
use refinement::table_laws::tables_are_definitions;
use sound_types::laws::declarations_are_typed;

/// In a design that was read, where the formula of an obligation is true under tables: the run that
/// begins with the values of its inputs fits its level, goes the way of its leaf, and fails under
/// the definitions of these tables. So a test of that run finds a failure.
pub fn true_formulas_are_failures()
    ensures fits { (d : Design) → WasRead d → WellFormed d → DesignLiteralsFit d
        → (tables : Tables) (o : Obligation) (ins : Inputs) → IsTrueFor d tables o ins
        → BeginFits o.level d (begin_of ins o) }
    ensures short { (d : Design) → WasRead d → WellFormed d → DesignLiteralsFit d
        → (tables : Tables) (o : Obligation) (ins : Inputs) → IsTrueFor d tables o ins
        → AreShort (begin_of ins o) }
    ensures fails { (d : Design) → WasRead d → WellFormed d → DesignLiteralsFit d
        → (tables : Tables) (o : Obligation) (ins : Inputs) → (h : IsTrueFor d tables o ins)
        → CanFail o.level d tables
        → HasFailure d tables o h.owed.owed.leaf.way (begin_of ins o) }
    ensures found { (d : Design) → WasRead d → WellFormed d → DesignLiteralsFit d
        → (tables : Tables) (o : Obligation) (ins : Inputs) → IsTrueFor d tables o ins
        → CanFail o.level d tables
        → NoneBegins (Fails (kind_in o.kind)) o.level d tables (begin_of ins o) → ⊥ }
{
    declarations_are_typed();
    formulas_apply_declared_functions();
    formulas_are_failures();
    formulas_stay_true();
    leaves_end_by_role();
    leaves_have_values();
    levels_keep_roles();
    segments_are_hops();
    tables_are_definitions();
}
