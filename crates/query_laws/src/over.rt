//! Terms that apply run-time functions of a design. The functions do nothing; their contracts are
//! the laws.
ghost use Rattle.std.specs.Prelude.{◌≡◌, ℕ, Bool, true};
ghost use Rattle.cocoon_num.specs.Tree.{Design};
ghost use Rattle.cocoon_types.specs.Rules.{WellFormed};
ghost use Rattle.cocoon_types.specs.Tables.{Defs};
ghost use Rattle.bv_terms.specs.Inputs.{FunctionsFit, Mentions};
ghost use Rattle.bv_terms.specs.TermTrees.{Term};
ghost use Rattle.obligation_laws.specs.Shown.{functions_by};
ghost use Rattle.refinement.specs.Assumptions.{AreDefinitions};
ghost use Rattle.sound_types.specs.Literals.{DesignLiteralsFit};
ghost use Rattle.query_laws.specs.Over.{IsOver};
ghost use Rattle.flat_laws.specs.Meant.{AppliesAlike};

use sound_types::laws::expressions_have_values;

/// Two applications of a function have equal widths, and the inputs are these.
pub fn design_terms_apply_alike()
    ensures alike { (d : Design) (inputs : ℕ → ℕ → Bool) (t : Term)
        → IsOver d inputs t → AppliesAlike t }
    ensures inputs { (d : Design) (inputs : ℕ → ℕ → Bool) (t : Term)
        → IsOver d inputs t → (i w : ℕ) → Mentions t i w → inputs i w ≡ true }
    ensures others { (d : Design) (inputs : ℕ → ℕ → Bool) (t : Term)
        → IsOver d inputs t → (others : ℕ → ℕ → Bool)
        → ((i w : ℕ) → Mentions t i w → others i w ≡ true) → IsOver d others t }
{}

/// The functions of definitions give numbers of the widths at which such a term applies them.
pub fn definitions_fit_design_terms()
    ensures { (d : Design) → WellFormed d → DesignLiteralsFit d → (defs : Defs)
        → AreDefinitions d defs → (inputs : ℕ → ℕ → Bool) (t : Term)
        → IsOver d inputs t → FunctionsFit t (functions_by d defs) }
{
    expressions_have_values();
}
