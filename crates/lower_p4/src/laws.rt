//! What the network of a design is. The functions do nothing; their contracts are the laws. `Places` stand for
//! definitions: a table for each function, and none for one with a body.
ghost use Rattle.std.specs.Prelude.{◌<◌, ◌≡◌, ◌^◌, All, IsTrue, length, nat_lt, None, Some, true, ℕ};
ghost use Rattle.cocoon_num.specs.Spelled.{is_spelled};
ghost use Rattle.cocoon_num.specs.Tree.{DefsText, Design};
ghost use Rattle.cocoon_num.specs.declared.limit_name.LimitName.{LimitName};
ghost use Rattle.cocoon_resolve.specs.Resolved.{WasRead};
ghost use Rattle.cocoon_types.specs.Rules.{WellFormed};
ghost use Rattle.cocoon_types.specs.Tables.{defs_of};
ghost use Rattle.lower_p4.specs.Grounds.{Grounds, HoldsFields};
ghost use Rattle.lower_p4.specs.LowerLimits.{IsOver, IsWithin};
ghost use Rattle.lower_p4.specs.Lowering.{IsLowering, RunPrograms, StartsLong};
ghost use Rattle.lower_p4.specs.Lowers.{Lowers, RunsProgram};
ghost use Rattle.lower_net.specs.Refused.{FirstLongProgram, FirstSwitch};
ghost use Rattle.lowering_correct.specs.Counts.{FirstOver};
ghost use Rattle.lowering.specs.Delivers.{DeliversExactly};
ghost use Rattle.lowering_correct.specs.Network.{IsNetwork};
ghost use Rattle.p4_emit.specs.Printed.{printed};
ghost use Rattle.p4_ir.specs.FileSizes.{most_file_bytes};
ghost use Rattle.p4_ir.specs.NetFits.{net_fits};
ghost use Rattle.p4_ir.specs.NetTree.{NetData};
ghost use Rattle.p4_ir.specs.P4Tree as tree;
ghost use Rattle.p4_ir.specs.WellKinded.{is_well_kinded};
ghost use Rattle.runtime_defs.specs.Places.{Places};
ghost use Rattle.sound_types.specs.Literals.{DesignLiteralsFit};

use lower_net::switch_laws::programs_count_alike;
use lowering_correct::rows::{groups_are_few, rows_are_few};
use lowering_correct::whole::{networks_are_exact, networks_fit};
use lowering_fits::depth::programs_are_shallow;
use lowering_fits::kinds::{programs_are_kinded, readings_are_plain};
use lowering_fits::size::programs_are_long;
use lowering_fits::tree_depth::readings_are_shallow;

/// The network of a design under definitions delivers exactly what the last level delivers, however many levels there are.
pub fn networks_deliver()
    ensures { (d : Design) (es : DefsText) (places : Places) (net : NetData)
        → Grounds d es places → IsNetwork d places net → DeliversExactly net d (defs_of d es) }
{
    networks_are_exact();
}

/// Each switch of a network runs the program of its number.
pub fn switches_run_programs()
    ensures { (d : Design) (places : Places) (net : NetData) → IsNetwork d places net
        → RunPrograms (RunsProgram d) net.switches }
{}

/// The network can be written as a bundle, where it is within the limits.
pub fn networks_are_writable()
    ensures { (d : Design) (es : DefsText) (places : Places) (net : NetData)
        → Grounds d es places → IsNetwork d places net → FirstOver d places None
        → net.ports < 2 ^ 16 → All HoldsFields net.switches → net_fits net ≡ true }
{
    networks_fit();
    groups_are_few();
    rows_are_few();
    programs_are_kinded();
    programs_count_alike();
    readings_are_plain();
    readings_are_shallow();
    programs_are_shallow();
}

/// Where the code of the programs is over the limit of a file, so is the text of the program of the first switch.
pub fn large_programs_are_long()
    ensures { (d : Design) (places : Places) (switch : ℕ) → FirstLongProgram d places (Some switch)
        → (net : NetData) × IsNetwork d places net × FirstOver d places None
        × StartsLong switch net.switches }
{
    programs_are_long();
}

/// Where the text of the program of the first switch is longer than its file may be, the network starts with it.
pub fn first_texts_are_long()
    ensures { (d : Design) (places : Places) (switch : ℕ) → FirstSwitch d places (Some switch)
        → (net : NetData) × (p : tree.Program) × IsNetwork d places net × FirstOver d places None
        × RunsProgram d switch p
        × (IsTrue (nat_lt most_file_bytes (length (printed p))) → StartsLong switch net.switches) }
{}

/// The program of the first switch can be printed, where the network is within the limits.
pub fn first_programs_are_kinded()
    ensures { (d : Design) (places : Places) (switch : ℕ) → WasRead d → is_spelled d ≡ true
        → WellFormed d → DesignLiteralsFit d → FirstSwitch d places (Some switch)
        → (p : tree.Program) → RunsProgram d switch p → length p.meta < 2 ^ 63
        → is_well_kinded p ≡ true }
{
    programs_are_kinded();
    readings_are_plain();
    readings_are_shallow();
    programs_are_shallow();
}

/// The compiler makes one network of a design and definitions, and the program of a switch depends on the design and the number of
/// the switch alone. Definitions exceed one limit first, or none.
pub fn one_lowering()
    ensures one { (design : Design) (defs : DefsText) (m n : NetData)
        → Lowers design defs m → Lowers design defs n → m ≡ n }
    ensures programs { (design : Design) (switch : ℕ) (p q : tree.Program)
        → RunsProgram design switch p → RunsProgram design switch q → p ≡ q }
    ensures one_limit { (design : Design) (defs : DefsText) (x y : LimitName) (m n : ℕ)
        → IsOver design defs x m → IsOver design defs y n → (x ≡ y) × (m ≡ n) }
    ensures no_limit { (design : Design) (defs : DefsText) (x : LimitName) (n : ℕ)
        → IsWithin design defs → IsOver design defs x n → ⊥ }
{}
