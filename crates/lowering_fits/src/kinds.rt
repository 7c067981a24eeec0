//! The kinds of lowered programs. The functions do nothing; their contracts are the laws.
ghost use Rattle.std.specs.Prelude.{◌≡◌, ◌<◌, ◌≤◌, ◌^◌, true, length, List, ℕ, Some};
ghost use Rattle.cocoon_num.specs.Reads.{Reads};
ghost use Rattle.cocoon_num.specs.Spelled.{is_spelled};
ghost use Rattle.cocoon_num.specs.Tree.{Design};
ghost use Rattle.cocoon_types.specs.Rules.{WellFormed};
ghost use Rattle.lowering.specs.Log.{tables_in};
ghost use Rattle.lowering.specs.Whole.{role_lowered};
ghost use Rattle.lowering.specs.Roles.{NetParts, net_parts};
ghost use Rattle.lowering.specs.SwitchProgram.{switch_made, switch_program};
ghost use Rattle.lowering_fits.specs.WideLiterals.{has_params, has_wide_literals};
ghost use Rattle.p4_ir.specs.P4Kinds.{kinds_fit};
ghost use Rattle.sound_types.specs.Literals.{DesignLiteralsFit};

use lowering_correct::rows::logs_are_made;

/// The program of a switch keeps the kind rules, where the design keeps its own and there are not
/// too many tables, forks and fields.
pub fn programs_are_kinded()
    ensures { (d : Design) → WellFormed d → DesignLiteralsFit d
        → has_wide_literals d ≡ true → has_params d ≡ true → is_spelled d ≡ true
        → (parts : NetParts) → net_parts d ≡ Some parts
        → (s : ℕ) → s < 2 ^ 16
        → length (tables_in (switch_made parts.role s)) ≤ 256
        → length (role_lowered parts.role s).sites ≤ 255
        → length (switch_made parts.role s) ≤ 2 ^ 64
        → kinds_fit (switch_program parts.role s) ≡ true }
{
    logs_are_made();
}

/// The tree of a text has literals of 1 to 128 bits, and functions with parameters.
pub fn readings_are_plain()
    ensures literals { (text : List ℕ) (d : Design) → Reads text d → has_wide_literals d ≡ true }
    ensures params { (text : List ℕ) (d : Design) → Reads text d → has_params d ≡ true }
{}
