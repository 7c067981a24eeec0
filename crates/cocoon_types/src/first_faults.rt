//! What first faults are, and how they are found. The functions do nothing; their contracts are the laws.
ghost use Rattle.std.specs.Prelude.{◌≡◌, ◌&&◌, ◌⊎◌, nat_le, ℕ};
ghost use Rattle.cocoon_num.specs.Tree.{Design};
ghost use Rattle.cocoon_types.specs.FirstFault.{Fault, FirstFault, is_fault, IsFirst, phase};
ghost use Rattle.cocoon_types.specs.Noting.{FirstOf, NotingLaws};
ghost use Rattle.cocoon_types.specs.Rules.{WellFormed};

/// A design has one first fault at most.
pub fn one_first_fault()
    ensures { (d : Design) (f g : Fault) → FirstFault d f → FirstFault d g → f ≡ g }
{}

/// A design has a first fault exactly where it is not well formed.
pub fn first_or_well_formed()
    ensures either { (d : Design) → WellFormed d ⊎ ((f : Fault) × FirstFault d f) }
    ensures never_both { (d : Design) (f : Fault) → WellFormed d → ¬ FirstFault d f }
{}

/// A design in which no fault is found is well formed.
pub fn found_none()
    ensures { (d : Design) → FirstOf (is_fault d) None → WellFormed d }
{}

/// The first of the faults of some phases, from the first phase on, is the first of all.
pub fn earlier_phases()
    ensures { (d : Design) (n : ℕ) (f : Fault)
        → IsFirst (λ g. nat_le (phase g.rule) n && is_fault d g) f → FirstFault d f }
{}

/// What several passes note is put together by these laws.
pub fn noting_laws()
    ensures { NotingLaws }
{}
