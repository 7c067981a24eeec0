//! Values that fit the widths of terms.
ghost use Rattle.std.specs.Prelude.{◌≡◌, ℕ};
ghost use Rattle.cocoon_num.specs.Values.{FitsWidth, number};
ghost use Rattle.bv_terms.specs.Inputs.{FunctionsFit, InputsFit};
ghost use Rattle.bv_terms.specs.TermTrees.{IsTerm, Term, width};
ghost use Rattle.bv_terms.specs.TermValues.{Functions, Inputs, term_value};

/// A term has a number of its width, if its inputs and functions do.
pub fn values_fit()
    ensures { (t : Term) → IsTerm t → (F : Functions) (ins : Inputs)
        → FunctionsFit t F → InputsFit t ins
        → (n : ℕ) × (term_value F ins t ≡ number (width t) n) × FitsWidth (width t) n }
{}
