//! What goals without applications say. The functions do nothing; their contracts are the laws.
ghost use Rattle.std.specs.Prelude.{◌≡◌, ℕ};
ghost use Rattle.cocoon_num.specs.Values.{number};
ghost use Rattle.bit_blast.specs.Goals.{IsGoal};
ghost use Rattle.bv_terms.specs.Inputs.{FunctionsFit, InputsFit};
ghost use Rattle.bv_terms.specs.TermTrees.{Term};
ghost use Rattle.bv_terms.specs.TermValues.{Functions, Inputs, term_value};
ghost use Rattle.bv_terms.specs.ByTables.{by_tables};
ghost use Rattle.bv_terms.specs.WithRows.{Tables};
ghost use Rattle.flat_laws.specs.Flat.{flattened};
ghost use Rattle.flat_laws.specs.Meant.{CanFlatten, with_results};
ghost use Rattle.flat_laws.specs.Rows.{AllFit, HasRows};

/// A flat goal has width 1 and no applications, so that it has clauses.
pub fn flat_goals_are_goals()
    ensures { (goal : Term) (first : ℕ) → CanFlatten goal first → IsGoal (flattened goal first) }
{}

/// A goal that is true is true flattened, where the new inputs are the values of its applications. No function plays a part
/// any more.
pub fn flat_goals_stay_true()
    ensures { (goal : Term) (first : ℕ) → CanFlatten goal first → (F G : Functions) (ins : Inputs)
        → term_value F ins goal ≡ number 1 1
        → term_value G (with_results F ins goal first) (flattened goal first) ≡ number 1 1 }
{}

/// If a flat goal is true, then the goal is true under the same inputs and any tables that have for each application, in
/// order, a row at the values of its arguments, which gives its input. The defaults play no part.
pub fn flat_goals_have_tables()
    ensures { (goal : Term) (first : ℕ) → CanFlatten goal first → (none : Functions) (ins : Inputs)
        → AllFit goal first ins → term_value none ins (flattened goal first) ≡ number 1 1
        → (tables : Tables) → HasRows none ins goal first tables
        → (others : Functions) → term_value (by_tables tables others) ins goal ≡ number 1 1 }
{}

/// The inputs of a flat goal fit, if those of the goal and the new ones do. Values of applications are such inputs, where
/// inputs and functions fit.
pub fn flat_inputs_fit()
    ensures flat { (goal : Term) (first : ℕ) → CanFlatten goal first → (ins : Inputs)
        → AllFit goal first ins → InputsFit (flattened goal first) ins }
    ensures results { (goal : Term) (first : ℕ) → CanFlatten goal first
        → (F : Functions) (ins : Inputs) → FunctionsFit goal F → InputsFit goal ins
        → AllFit goal first (with_results F ins goal first) }
{}
