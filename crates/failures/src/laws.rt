//! What failures show. The functions do nothing; their contracts are the laws.
ghost use Rattle.std.specs.Prelude.{ℕ};
ghost use Rattle.cocoon_num.specs.Tree.{Design, Refine};
ghost use Rattle.refinement.specs.Owed.{Contained, Within};
ghost use Rattle.failures.specs.Failures.{Failure, IsOver, IsRefuted};

/// A block that is contained has no refuted run, and one that is bounded has none that goes on for too
/// long.
pub fn failures_refute_blocks()
    ensures contained { (above : ℕ) (d : Design) (block : Refine) (f : Failure)
        → IsRefuted above d block f → Contained above d block → ⊥ }
    ensures bounded { (above : ℕ) (d : Design) (block : Refine) (f : Failure)
        → IsOver above d block f → Within above d block → ⊥ }
{}
