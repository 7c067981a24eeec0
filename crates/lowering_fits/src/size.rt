//! How long the texts of lowered programs are at least, as a law: the contract of a function that does nothing.

ghost use Rattle.std.specs.Prelude.{◌≤◌, length, ℕ};
ghost use Rattle.lowering.specs.Counting.{role_size};
ghost use Rattle.lowering.specs.Whole.{SwitchRole};
ghost use Rattle.lowering.specs.SwitchProgram.{switch_program};
ghost use Rattle.p4_emit.specs.Printed.{printed};

/// The text of the program of a switch has at least as many bytes as are counted of its role.
pub fn programs_are_long()
    ensures { (r : SwitchRole) (s : ℕ) → role_size r ≤ length (printed (switch_program r s)) }
{}
