//! The programs of all switches are one program with a hole for the number of the switch, so the programs of two switches give those of
//! all: laws, the contracts of functions that do nothing.

ghost use Rattle.std.specs.Prelude.{◌≡◌, List, ℕ, Some};
ghost use Rattle.cocoon_num.specs.Reads.{Reads};
ghost use Rattle.cocoon_num.specs.Tree.{Design};
ghost use Rattle.cocoon_types.specs.Rules.{WellFormed};
ghost use Rattle.lowering.specs.Whole.{role_lowered, SwitchRole};
ghost use Rattle.lowering.specs.Roles.{NetParts, net_parts};
ghost use Rattle.lowering.specs.SwitchProgram.{switch_made, switch_program};
ghost use Rattle.lowering_fits.specs.Filling.{filled, HasWideLiterals, open_lowered, open_made, open_program};
ghost use Rattle.lowering_fits.specs.Sharing.{HasOneProgram};

use crate::kinds::readings_are_plain;

/// The program of a switch is the open program with the number of the switch in its holes, and what was made for it is the same for
/// each switch.
pub fn programs_fill()
    ensures filled { (r : SwitchRole) → HasWideLiterals r
        → (s : ℕ) → filled s (open_program r) ≡ switch_program r s }
    ensures made { (r : SwitchRole) → HasWideLiterals r
        → (s : ℕ) → switch_made r s ≡ open_made r }
    ensures ingress { (r : SwitchRole) → HasWideLiterals r
        → (s : ℕ) → (role_lowered r s).made ≡ (open_lowered r).made }
{}

/// The switches of a design that was read run one program: where those with the numbers 0 and 1 differ stands the number of the switch.
pub fn networks_share()
    ensures { (text : List ℕ) (d : Design) → Reads text d → WellFormed d
        → (parts : NetParts) → net_parts d ≡ Some parts → HasOneProgram parts.role }
{
    readings_are_plain();
}
