//! What assumptions say as terms. The functions do nothing; their contracts are the laws.
ghost use Rattle.std.specs.Prelude.{◌≡◌, ℕ, List};
ghost use Rattle.std.specs.List.{AllZip};
ghost use Rattle.cocoon_num.specs.Tree.{DefsText, Design};
ghost use Rattle.cocoon_types.specs.Design.{widths_of};
ghost use Rattle.cocoon_types.specs.Rules.{WellFormed};
ghost use Rattle.cocoon_types.specs.Tables.{defs_of};
ghost use Rattle.bv_terms.specs.TermTrees.{Term};
ghost use Rattle.bv_terms.specs.TermValues.{Inputs};
ghost use Rattle.refinement.specs.Assumptions.{IsMet};
ghost use Rattle.sound_types.specs.Defined.{HasDefinitions};
ghost use Rattle.sound_types.specs.Literals.{DesignLiteralsFit};
ghost use Rattle.obligation_laws.specs.Shown.{HasWidth};
ghost use Rattle.fun_instances.specs.AssumptionTerms.{assumption_term, value_term};
ghost use Rattle.bv_terms.specs.declared.node.Node.{Node};
ghost use Rattle.expr_terms.specs.Variables.{Keeps};
ghost use Rattle.fun_instances.specs.OwnInputs.{HasInputsOf};
ghost use Rattle.fun_instances.specs.Saying.{IsTrueUnder, SaysOf};
ghost use Rattle.fun_instances.specs.Taking.{NumbersFit, OfAssumption, TermsFit};

use obligation_laws::expr_laws::terms_have_widths;
use sound_types::laws::{declarations_are_typed, expressions_have_values};

/// The term of an assumption has width 1, where the terms of its parameters have their widths.
pub fn assumptions_have_width_1()
    ensures terms { (d : Design) → WellFormed d → DesignLiteralsFit d → (i : ℕ)
        → OfAssumption d i (λ a.
        (ts : List Term) → AllZip HasWidth (widths_of a.params) ts
        → HasWidth 1 (assumption_term d a ts)) }
    ensures numbers { (d : Design) → WellFormed d → DesignLiteralsFit d → (i : ℕ)
        → OfAssumption d i (λ a.
        (ns : List ℕ) → NumbersFit a ns → HasWidth 1 (value_term d a ns)) }
{
    declarations_are_typed();
    terms_have_widths();
}

/// Under the definitions of a text the term of an assumption has the value that the assumption has at the numbers of the
/// terms of its parameters.
pub fn assumptions_have_values()
    ensures { (d : Design) (es : DefsText) → HasDefinitions d es → (i : ℕ)
        → OfAssumption d i (λ a.
        (ins : Inputs) (ts : List Term) → TermsFit d (defs_of d es) ins a ts
        → SaysOf d (defs_of d es) ins a ts (assumption_term d a ts)) }
{
    declarations_are_typed();
    expressions_have_values();
}

/// Definitions meet an assumption if and only if its terms are true under them.
pub fn met_assumptions_are_true()
    ensures terms { (d : Design) (es : DefsText) → HasDefinitions d es → (i : ℕ)
        → OfAssumption d i (λ a.
        IsMet d (defs_of d es) a → (ins : Inputs) (ts : List Term)
        → TermsFit d (defs_of d es) ins a ts
        → IsTrueUnder d (defs_of d es) ins (assumption_term d a ts)) }
    ensures numbers { (d : Design) (es : DefsText) → HasDefinitions d es → (i : ℕ)
        → OfAssumption d i (λ a.
        IsMet d (defs_of d es) a → (ins : Inputs) (ns : List ℕ) → NumbersFit a ns
        → IsTrueUnder d (defs_of d es) ins (value_term d a ns)) }
    ensures met { (d : Design) (es : DefsText) → HasDefinitions d es → (i : ℕ)
        → OfAssumption d i (λ a.
        (ins : Inputs) → ((ns : List ℕ) → NumbersFit a ns
        → IsTrueUnder d (defs_of d es) ins (value_term d a ns)) → IsMet d (defs_of d es) a) }
{
    declarations_are_typed();
    expressions_have_values();
}

/// The inputs of an arena stay, and no other comes.
pub fn inputs_stay()
    ensures { (widths : List ℕ) (old new : List Node) → Keeps old new
        → HasInputsOf widths old → HasInputsOf widths new }
{}
