//! Applications in terms of a design, and tables in their place. The functions do nothing; their contracts are the laws.
ghost use Rattle.std.specs.Prelude.{◌≡◌, ℕ, Bool, List, Option, true};
ghost use Rattle.cocoon_num.specs.Tree.{Design};
ghost use Rattle.cocoon_num.specs.declared.fun_table.FunTable.{FunTable};
ghost use Rattle.cocoon_types.specs.Rules.{WellFormed};
ghost use Rattle.cocoon_types.specs.Tables.{Defs};
ghost use Rattle.bit_blast.specs.Goals.{IsUnapplied};
ghost use Rattle.bv_terms.specs.Inputs.{Mentions};
ghost use Rattle.bv_terms.specs.TermTrees.{IsTerm, Term};
ghost use Rattle.bv_terms.specs.TermValues.{Functions, Inputs, term_value};
ghost use Rattle.obligation_laws.specs.Shown.{functions_by};
ghost use Rattle.runtime_defs.specs.Fitting.{FitsDesign};
ghost use Rattle.runtime_defs.specs.Stands.{Stands};
ghost use Rattle.sound_types.specs.Literals.{DesignLiteralsFit};
ghost use Rattle.bv_terms.specs.Fitting.{TablesFit};
ghost use Rattle.bv_terms.specs.WithRows.{with_rows};
ghost use Rattle.query_laws.specs.Over.{IsOver, TermsAreOver, fit_input};

/// The term of a typed expression applies run-time functions of the design alone, each at the widths that it is declared
/// with, and has the inputs of its variables and fields alone.
pub fn terms_apply_declared_functions()
    ensures { (d : Design) → WellFormed d → DesignLiteralsFit d → TermsAreOver d }
{}

/// Tables that fit a design fit each term that applies its run-time functions. With choices over their rows no application
/// is left, and there are no other inputs.
pub fn tables_take_the_place()
    ensures fit { (d : Design) (tables : List (Option FunTable)) → FitsDesign d tables
        → (inputs : ℕ → ℕ → Bool) (t : Term) → IsOver d inputs t → TablesFit tables t }
    ensures unapplied { (d : Design) (tables : List (Option FunTable)) → FitsDesign d tables
        → (inputs : ℕ → ℕ → Bool) (t : Term) → IsOver d inputs t
        → IsUnapplied (with_rows tables t) }
    ensures inputs { (d : Design) (tables : List (Option FunTable)) → FitsDesign d tables
        → (inputs : ℕ → ℕ → Bool) (t : Term) → IsOver d inputs t
        → (i w : ℕ) → Mentions (with_rows tables t) i w → inputs i w ≡ true }
{}

/// Where the inputs fit, such a term has with choices over the rows the value that it has under the definitions that the
/// tables stand for.
pub fn tables_keep_values()
    ensures { (d : Design) (tables : List (Option FunTable)) (defs : Defs) → FitsDesign d tables
        → Stands d tables defs → (ins : Inputs) (t : Term) → IsTerm t → IsOver d (fit_input ins) t
        → (others : Functions) → term_value others ins (with_rows tables t)
        ≡ term_value (functions_by d defs) ins t }
{}
