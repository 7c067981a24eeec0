//! The programs of all switches count alike: a law, the contract of a function that does nothing.
ghost use Rattle.std.specs.Prelude.{◌≡◌, length, ℕ};
ghost use Rattle.lowering.specs.Log.{tables_in};
ghost use Rattle.lowering.specs.Whole.{role_lowered, SwitchRole};
ghost use Rattle.lowering.specs.SwitchProgram.{switch_made};

/// The programs of two switches have as many tables, and as many forks.
pub fn programs_count_alike()
    ensures tables { (r : SwitchRole) (s t : ℕ)
        → length (tables_in (switch_made r s)) ≡ length (tables_in (switch_made r t)) }
    ensures forks { (r : SwitchRole) (s t : ℕ)
        → length (role_lowered r s).sites ≡ length (role_lowered r t).sites }
{}
