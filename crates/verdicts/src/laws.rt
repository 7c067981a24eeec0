//! What verdicts show. The function does nothing; its contract is the law.
ghost use Rattle.cocoon_num.specs.Tree.{Design};
ghost use Rattle.failures.specs.Failures.{Failure};
ghost use Rattle.obligation_laws.specs.Failing.{NeverFails};
ghost use Rattle.obligation_laws.specs.Obligations.{Obligation};
ghost use Rattle.refinement.specs.Owed.{Refines};
ghost use Rattle.verdicts.specs.Failing.{FailsBy};

use failures::laws::failures_refute_blocks;

/// An obligation that fails by a run is none that never fails, and its design does not keep what it
/// owes.
pub fn failing_obligations_fail()
    ensures fails { (d : Design) (o : Obligation) (f : Failure) → FailsBy d o f
        → NeverFails d o → ⊥ }
    ensures refutes { (d : Design) (o : Obligation) (f : Failure) → FailsBy d o f
        → Refines d → ⊥ }
{
    failures_refute_blocks();
}
