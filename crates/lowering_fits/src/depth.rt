//! How deep the texts of lowered programs are, as a law: the contract of a function that does nothing.

ghost use Rattle.std.specs.Prelude.{◌≡◌, Some, true, ℕ};
ghost use Rattle.cocoon_num.specs.Tokens.{is_shallow};
ghost use Rattle.cocoon_num.specs.Tree.{Design};
ghost use Rattle.lowering.specs.Roles.{NetParts, net_parts};
ghost use Rattle.lowering.specs.SwitchProgram.{switch_program};
ghost use Rattle.p4_ir.specs.P4Text.{p4_bounds, program_tokens};
ghost use Rattle.lowering_fits.specs.ShallowTrees.{IsShallowTree};

use p4_kinds::laws::flat_programs_are_shallow;

/// No token of the text of a switch's program is deep, where the design's tree is shallow.
pub fn programs_are_shallow()
    ensures { (d : Design) → IsShallowTree d
        → (parts : NetParts) → net_parts d ≡ Some parts
        → (s : ℕ) → is_shallow p4_bounds (program_tokens (switch_program parts.role s)) ≡ true }
{
    flat_programs_are_shallow()
}
