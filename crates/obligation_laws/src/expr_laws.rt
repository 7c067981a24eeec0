//! Widths and values of the terms of expressions. The functions do nothing; their contracts are the laws.
ghost use Rattle.std.specs.Prelude.{◌≡◌, ℕ, List, Some, slice_get};
ghost use Rattle.bv_terms.specs.TermTrees.{Term};
ghost use Rattle.bv_terms.specs.TermValues.{Inputs};
ghost use Rattle.cocoon_num.specs.Tree.{DefsText, Design, Expr, FunctionDecl};
ghost use Rattle.cocoon_types.specs.Design.{functions};
ghost use Rattle.cocoon_types.specs.Rules.{WellFormed};
ghost use Rattle.cocoon_types.specs.Tables.{defs_of};
ghost use Rattle.cocoon_types.specs.Typing.{Scope, result_sort};
ghost use Rattle.sound_types.specs.Defined.{HasDefinitions};
ghost use Rattle.sound_types.specs.Literals.{DesignLiteralsFit};
ghost use Rattle.sound_types.specs.WellTyped.{scope_in};
ghost use Rattle.obligation_laws.specs.Shown.{TermsHaveValues, TermsHaveWidths, ValuesFit, functions_by};
ghost use Rattle.obligation_laws.specs.TermOf.{TermEnv};
ghost use Rattle.obligation_laws.specs.TypedExprs.{TypedAs};

use sound_types::laws::expressions_have_values;

/// The body of a function has the type of its result where its parameters and the functions before it
/// are in scope.
pub fn bodies_are_typed()
    ensures { (d : Design) → WellFormed d → DesignLiteralsFit d
        → (n : ℕ) (f : FunctionDecl) (e : Expr) → slice_get (functions d) n ≡ Some f
        → f.body ≡ Some e → TypedAs (scope_in d n f.params) (result_sort f.result) e }
{}

/// The term of a typed expression has the width of its type, where variables and fields have theirs.
pub fn terms_have_widths()
    ensures { (d : Design) → WellFormed d → DesignLiteralsFit d → TermsHaveWidths d }
{}

/// Under any definitions of a text the term of a typed expression has the value of the expression,
/// where variables and fields have the values of their terms.
pub fn terms_have_values()
    ensures { (d : Design) (es : DefsText) → HasDefinitions d es → (s : Scope) → s.design ≡ d
        → (ins : Inputs) (vars : TermEnv) (fields : List Term)
        → ValuesFit s (functions_by d (defs_of d es)) ins vars fields
        → TermsHaveValues d (defs_of d es) ins s vars fields }
{
    expressions_have_values();
}
