//! What assignments give, what it means, and how long progress is. The functions do nothing;
//! their contracts are the laws.
ghost use Rattle.std.specs.Prelude.{◌≡◌, ◌≤◌, ℕ, List, [], ◌∷◌, ◌++◌, length};
ghost use Rattle.bv_terms.specs.TermTrees.{IsTerm, Term};
ghost use Rattle.bv_terms.specs.TermValues.{Functions, Inputs};
ghost use Rattle.cnf_core.specs.declared.certificates.Instance.{Instance};
ghost use Rattle.cocoon_num.specs.Tree.{Design};
ghost use Rattle.cocoon_types.specs.Rules.{WellFormed};
ghost use Rattle.fun_instances.specs.Taking.{NumbersFit, OfAssumption};
ghost use Rattle.query_laws.specs.LeafTerms.{AppliesDeclared, Stands};
ghost use Rattle.query_laws.specs.Certified.{AllFit};
ghost use Rattle.query_laws.specs.OwnNames.{own_name};
ghost use Rattle.query_laws.specs.Queries.{asked, Fits, instance_term};
ghost use Rattle.runtime_defs.specs.Fitting.{FitsDesign};
ghost use Rattle.sound_types.specs.Literals.{DesignLiteralsFit};
ghost use Rattle.bv_terms.specs.WithRows.{Tables};
ghost use Rattle.query_laws.specs.Broken.{IsBroken, IsMeantTrue};
ghost use Rattle.query_laws.specs.Candidates.{IsCandidate, IsFalseBy, MakeTrue};
ghost use Rattle.query_laws.specs.FirstRows.{AreOfTrueQuery};
ghost use Rattle.query_laws.specs.Rounds.{Progress, tuples_to};

use crate::applied_laws::{tables_keep_values, tables_take_the_place};
use crate::instance_laws::{earlier_levels_come_first, instances_fit};
use crate::laws::queries_are_goals;
use bv_terms::table_laws::rows_keep_values;
use flat_laws::laws::flat_goals_have_tables;
use fun_instances::laws::assumptions_have_values;
use refinement::table_laws::tables_are_definitions;

/// What is asked of a formula with instances applies run-time functions of the design alone, each
/// at the widths that it is declared with, if the formula does.
pub fn asked_goals_apply_declared_functions()
    ensures { (d : Design) → WellFormed d → DesignLiteralsFit d → (level : ℕ) (formula : Term)
        → Stands d 1 formula → (instances : List Instance) → AllFit d level instances
        → AppliesDeclared d (asked d level formula instances) }
{
    instances_fit();
}

/// Inputs at which a query is true give a candidate: tables of the design with a row for each
/// list of values that its applications have. The defaults play no part. Under these tables the
/// formula itself is true at the numbers that its inputs have in an arena of its own.
pub fn true_queries_have_candidates()
    ensures candidate { (d : Design) → WellFormed d → DesignLiteralsFit d
        → (level : ℕ) (formula : Term) (instances : List Instance)
        (none : Functions) (ins : Inputs) (tables : Tables)
        → AreOfTrueQuery d level formula instances none ins tables
        → IsCandidate d level formula instances tables }
    ensures formula { (d : Design) → WellFormed d → DesignLiteralsFit d
        → (level : ℕ) (formula : Term) (instances : List Instance)
        (none : Functions) (ins : Inputs) (tables : Tables)
        → AreOfTrueQuery d level formula instances none ins tables
        → MakeTrue tables (λ i. ins (own_name formula i)) formula }
{
    flat_goals_have_tables();
    instances_fit();
    queries_are_goals();
}

/// Where a formula is true under tables, it is true under the definitions that these stand for.
pub fn formulas_stay_true()
    ensures { (d : Design) (tables : Tables) → FitsDesign d tables
        → (formula : Term) → Stands d 1 formula → IsTerm formula
        → (ins : Inputs) → MakeTrue tables ins formula → IsMeantTrue d tables ins formula }
{
    rows_keep_values();
    tables_keep_values();
    tables_take_the_place();
}

/// Where an assumption is false under the definitions that a candidate stands for, its numbers fit,
/// and its instance there is false, if it is a term.
pub fn broken_assumptions_are_false_instances()
    ensures fits { (d : Design) → WellFormed d → DesignLiteralsFit d → (level : ℕ) (formula : Term)
        (instances : List Instance) (tables : Tables)
        → IsCandidate d level formula instances tables → (i : Instance) → OfAssumption d i.number
        (λ a. IsBroken d tables a i.values → NumbersFit a i.values) }
    ensures false_ { (d : Design) → WellFormed d → DesignLiteralsFit d
        → (level : ℕ) (formula : Term) (instances : List Instance) (tables : Tables)
        → IsCandidate d level formula instances tables → (i : Instance) → OfAssumption d i.number
        (λ a. IsBroken d tables a i.values → IsTerm (instance_term d i)
        → IsFalseBy tables (instance_term d i)) }
{
    assumptions_have_values();
    instances_fit();
    rows_keep_values();
    tables_are_definitions();
    tables_keep_values();
    tables_take_the_place();
}

/// Nothing is progress. An instance that is false under a candidate of those before it keeps
/// progress: it differs from each of them.
pub fn broken_instances_keep_progress()
    ensures none { (d : Design) (level : ℕ) (formula : Term) → Progress d level formula [] }
    ensures more { (d : Design) (level : ℕ) (formula : Term) (instances : List Instance)
        → Progress d level formula instances → (tables : Tables)
        → IsCandidate d level formula instances tables
        → (i : Instance) → Fits d level i → IsFalseBy tables (instance_term d i)
        → Progress d level formula (instances ++ i ∷ []) }
{}

/// Progress is no longer than there are tuples of values of the assumptions up to its level.
pub fn progress_is_short()
    ensures { (d : Design) (level : ℕ) (formula : Term) (instances : List Instance)
        → Progress d level formula instances → length instances ≤ tuples_to level d }
{
    earlier_levels_come_first();
}
