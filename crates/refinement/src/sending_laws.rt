//! The law on what a body can send. The function does nothing; its contract is the law.
ghost use Rattle.std.specs.Prelude.{◌≡◌, List, ℕ, Option, Some, true};
ghost use Rattle.cocoon_num.specs.PacketForms.{PacketFits};
ghost use Rattle.cocoon_num.specs.Packets.{Packet};
ghost use Rattle.cocoon_num.specs.Reads.{Reads};
ghost use Rattle.cocoon_num.specs.Tree.{Block, Design, Role};
ghost use Rattle.cocoon_num.specs.declared.fun_table.FunTable.{FunTable};
ghost use Rattle.cocoon_resolve.specs.Readers.{reads_back};
ghost use Rattle.cocoon_types.specs.Design.{layout, role_at};
ghost use Rattle.cocoon_types.specs.Runs.{Go, Loc};
ghost use Rattle.role_values.specs.Worlds.{world_by};
ghost use Rattle.refinement.specs.Sending.{AreTried, CanSend};
ghost use Rattle.sound_types.specs.Defined.{HasTables};

use crate::laws::statements_differ;
use sound_types::laws::{declarations_are_typed, expressions_have_values};

/// What a body that reads back can send from a location, it sends with choices that are tried: where one
/// of its paths sends, each choice that stands alone in what is sent has the number that is wanted
/// there, and each that stands nowhere alone, which may then be any number, is 0. The design was read,
/// so no two choices of a body have one token index.
pub fn tried_choices_send()
    ensures { (text : List ℕ) (d : Design) (tables : List (Option FunTable))
        → Reads text d → HasTables d tables → (level : ℕ) (from to : Loc) (packet sent : Packet)
        → (r : Role) (body : Block) → role_at level d from.role ≡ Some r → r.body ≡ Some body
        → reads_back d r ≡ true → PacketFits (layout d) packet
        → CanSend (world_by tables level d) from packet to sent
        → (choices : List ℕ) × Go (world_by tables level d) from packet choices to sent
        × AreTried d body to sent choices }
{
    declarations_are_typed();
    expressions_have_values();
    statements_differ();
}
