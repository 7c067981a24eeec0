//! What limits are. The functions do nothing; their contracts are the laws.
ghost use Rattle.std.specs.Prelude.{◌≡◌, ℕ};
ghost use Rattle.cocoon_num.specs.declared.limit_name.LimitName.{LimitName};
ghost use Rattle.cocoon_num.specs.Tree.{Design};
ghost use Rattle.cocoon_types.specs.Limits.{FirstOver, WithinLimits};

/// One limit at most is the first that a design is over, with one count.
pub fn one_first_over()
    ensures { (d : Design) (x y : LimitName) (m n : ℕ)
        → FirstOver d x m → FirstOver d y n → (x ≡ y) × (m ≡ n) }
{}

/// A design within its limits is over none first.
pub fn within_is_not_over()
    ensures { (d : Design) (x : LimitName) (n : ℕ) → WithinLimits d → FirstOver d x n → ⊥ }
{}

/// A design that is over no limit first is within its limits.
pub fn not_over_is_within()
    ensures { (d : Design) → ((x : LimitName) (n : ℕ) → FirstOver d x n → ⊥) → WithinLimits d }
{}
