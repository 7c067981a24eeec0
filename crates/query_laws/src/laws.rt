//! What queries of obligations show. The functions do nothing; their contracts are the laws.
ghost use Rattle.std.specs.Prelude.{◌≡◌, ℕ, List, slice_get, Some};
ghost use Rattle.std.specs.List.{AllByRecursion};
ghost use Rattle.bit_blast.specs.Blasting.{IsClauses};
ghost use Rattle.bit_blast.specs.Goals.{IsGoal};
ghost use Rattle.bv_terms.specs.TermTrees.{IsTerm, Term};
ghost use Rattle.cnf_core.specs.declared.certificates.Cert.{Cert};
ghost use Rattle.cnf_core.specs.declared.certificates.Instance.{Instance};
ghost use Rattle.cnf_core.specs.Satisfying.{Satisfies};
ghost use Rattle.cnf_core.specs.declared.clauses.Assignment.{Assignment};
ghost use Rattle.cnf_core.specs.declared.clauses.Cnf.{Cnf};
ghost use Rattle.cocoon_num.specs.Tree.{Design};
ghost use Rattle.cocoon_types.specs.Rules.{WellFormed};
ghost use Rattle.obligation_laws.specs.Shown.{HasWidth};
ghost use Rattle.flat_laws.specs.Meant.{CanFlatten};
ghost use Rattle.query_laws.specs.LeafTerms.{Stands};
ghost use Rattle.obligation_laws.specs.Failing.{NeverFails, NeverTrue};
ghost use Rattle.obligation_laws.specs.Obligations.{all_obligations, Obligation};
ghost use Rattle.sound_types.specs.Literals.{DesignLiteralsFit};
ghost use Rattle.bv_terms.specs.Copies.{AreInputs};
ghost use Rattle.query_laws.specs.Certified.{AllFit, IsCert};
ghost use Rattle.query_laws.specs.OwnNames.{in_own_arena, input_count, inputs_of};
ghost use Rattle.query_laws.specs.Queries.{added, asked, query};

use crate::formula_laws::formulas_apply_declared_functions;
use crate::instance_laws::{instances_fit, instances_hold};
use crate::over::{definitions_fit_design_terms, design_terms_apply_alike};
use bit_blast::laws::{clauses_mean_the_goal, satisfying_is_making_hold};
use cnf_core::laws::derived_clauses_have_no_model;
use flat_laws::laws::{flat_goals_are_goals, flat_goals_stay_true, flat_inputs_fit};
use flat_laws::names::{names_keep_the_walk, names_keep_values};
use obligation_laws::laws::untrue_formulas_never_fail;

/// The only ascending list of a term's inputs is the one that names them in an arena of its own.
pub fn own_names_are_by_place()
    ensures { (t : Term) (inputs : List ℕ) → AreInputs t inputs → inputs ≡ inputs_of t }
{}

/// In an arena of its own a truth value that applies run-time functions of the design alone is one,
/// and so is all that is added.
pub fn added_terms_fit()
    ensures own { (d : Design) → (formula : Term) → Stands d 1 formula
        → Stands d 1 (in_own_arena formula) }
    ensures added { (d : Design) → WellFormed d → DesignLiteralsFit d
        → (level : ℕ) (formula : Term) → Stands d 1 formula
        → (instances : List Instance) → AllFit d level instances
        → AllByRecursion (HasWidth 1) (added d level formula instances) }
{
    instances_fit();
}

/// What is asked of a truth value that applies run-time functions of the design alone can be
/// flattened, and is a goal then.
pub fn queries_are_goals()
    ensures flat { (d : Design) → WellFormed d → DesignLiteralsFit d → (level : ℕ) (formula : Term)
        → Stands d 1 formula → (instances : List Instance) → AllFit d level instances
        → IsTerm (asked d level formula instances)
        → CanFlatten (asked d level formula instances) (input_count formula) }
    ensures goal { (d : Design) → WellFormed d → DesignLiteralsFit d → (level : ℕ) (formula : Term)
        → Stands d 1 formula → (instances : List Instance) → AllFit d level instances
        → IsTerm (asked d level formula instances) → IsGoal (query d level formula instances) }
{
    design_terms_apply_alike();
    instances_fit();
    names_keep_the_walk();
    names_keep_values();
    flat_goals_are_goals();
}

/// If nothing satisfies the clauses of its query, a formula is never true; so if a certificate
/// shows it.
pub fn refuted_formulas_are_never_true()
    ensures untrue { (d : Design) → WellFormed d → DesignLiteralsFit d
        → (level : ℕ) (formula : Term) → Stands d 1 formula
        → (instances : List Instance) → AllFit d level instances
        → IsTerm (asked d level formula instances)
        → (cnf : Cnf) → IsClauses cnf (query d level formula instances)
        → ((a : Assignment) → Satisfies a cnf → ⊥) → NeverTrue level d formula }
    ensures certified { (d : Design) → WellFormed d → DesignLiteralsFit d
        → (level : ℕ) (formula : Term) → Stands d 1 formula → (cert : Cert)
        → IsTerm (asked d level formula cert.instances)
        → IsCert d level formula cert → NeverTrue level d formula }
{
    design_terms_apply_alike();
    definitions_fit_design_terms();
    instances_fit();
    instances_hold();
    names_keep_the_walk();
    names_keep_values();
    flat_goals_are_goals();
    flat_goals_stay_true();
    flat_inputs_fit();
    clauses_mean_the_goal();
    satisfying_is_making_hold();
    derived_clauses_have_no_model();
}

/// The leaf of an obligation never fails, if a certificate shows it of its formula.
pub fn certified_obligations_never_fail()
    ensures { (d : Design) → WellFormed d → DesignLiteralsFit d
        → (n : ℕ) (o : Obligation) → slice_get (all_obligations d) n ≡ Some o → (cert : Cert)
        → IsTerm (asked d o.level o.formula cert.instances)
        → IsCert d o.level o.formula cert → NeverFails d o }
{
    formulas_apply_declared_functions();
    refuted_formulas_are_never_true();
    untrue_formulas_never_fail();
}
