//! What the clauses of an assumption's query say of it. The function does nothing; its contract is the law.
ghost use Rattle.std.specs.Prelude.{List, Option, ℕ};
ghost use Rattle.cnf_core.specs.Satisfying.{Satisfies, makes_true};
ghost use Rattle.cnf_core.specs.declared.clauses.Assignment.{Assignment};
ghost use Rattle.cnf_core.specs.declared.clauses.Cnf.{Cnf};
ghost use Rattle.cocoon_num.specs.Tree.{Design};
ghost use Rattle.cocoon_num.specs.declared.fun_table.FunTable.{FunTable};
ghost use Rattle.cocoon_types.specs.Rules.{WellFormed};
ghost use Rattle.bit_blast.specs.Blasting.{IsClauses};
ghost use Rattle.fun_instances.specs.Taking.{OfAssumption};
ghost use Rattle.refinement.specs.Assumptions.{IsMet};
ghost use Rattle.runtime_defs.specs.Fitting.{FitsDesign};
ghost use Rattle.sound_types.specs.Literals.{DesignLiteralsFit};
ghost use Rattle.discharge.specs.Meeting.{IsFalseAt, OfTables};
ghost use Rattle.discharge.specs.Queries.{CanBeAsked, assumption_query, values_read};

use bit_blast::laws::{clauses_mean_the_goal, inputs_have_their_bits, satisfying_is_making_hold};
use query_laws::applied_laws::{
    tables_keep_values, tables_take_the_place, terms_apply_declared_functions,
};
use sound_types::laws::{declarations_are_typed, expressions_have_values};

/// An assignment that satisfies the clauses of an assumption's query has values of the parameters at which the assumption is
/// false. If none satisfies them, the assumption is true at every tuple.
pub fn queries_decide_assumptions()
    ensures broken { (d : Design) (tables : List (Option FunTable)) → WellFormed d
        → DesignLiteralsFit d → FitsDesign d tables → (i : ℕ) → OfAssumption d i (λ a.
        CanBeAsked d a tables → (cnf : Cnf) → IsClauses cnf (assumption_query d a tables)
        → (x : Assignment) → Satisfies x cnf
        → OfTables d tables (λ defs. IsFalseAt d defs a (values_read (makes_true x) d a tables))) }
    ensures met { (d : Design) (tables : List (Option FunTable)) → WellFormed d
        → DesignLiteralsFit d → FitsDesign d tables → (i : ℕ) → OfAssumption d i (λ a.
        CanBeAsked d a tables → (cnf : Cnf) → IsClauses cnf (assumption_query d a tables)
        → ((x : Assignment) → Satisfies x cnf → ⊥)
        → OfTables d tables (λ defs. IsMet d defs a)) }
{
    declarations_are_typed();
    expressions_have_values();
    terms_apply_declared_functions();
    tables_take_the_place();
    tables_keep_values();
    clauses_mean_the_goal();
    inputs_have_their_bits();
    satisfying_is_making_hold();
}
