//! One round of the design q. The functions do nothing; their contracts are the laws.
ghost use Rattle.std.specs.Prelude.{[], ◌∷◌, ◌≡◌, map};
ghost use Rattle.obligation_laws.specs.Obligations.{all_obligations, Obligation};
ghost use Rattle.query_laws.specs.Rounds.{Progress};
ghost use Rattle.obligation_examples.specs.DesignQ.{q_design};
ghost use Rattle.obligation_examples.specs.ExpectedOfQ.{q_formula, zero_and_one};

/// The one obligation of the design q fails where the function gives two values.
pub fn formulas_of_q()
    ensures { map (λ (o : Obligation). o.formula) (all_obligations q_design) ≡ q_formula ∷ [] }
{}

/// Without instances there is a candidate: the tag 0, and tables that give 0 and 1 at 0 and 1. It
/// breaks the assumption there, so one round adds this instance.
pub fn one_round_of_q()
    ensures { Progress q_design 1 q_formula (zero_and_one ∷ []) }
{}
