//! What the network of a design delivers. The functions do nothing; their contracts are the laws.
ghost use Rattle.std.specs.Prelude.{◌<◌, ◌≡◌, ◌^◌, List, reverse, Some, true, ℕ};
ghost use Rattle.cocoon_num.specs.Names.{named};
ghost use Rattle.cocoon_num.specs.Tree.{Design, FunctionDecl, HostDecl, SwitchDecl};
ghost use Rattle.cocoon_types.specs.Design.{functions, host_decl, switch_decl};
ghost use Rattle.cocoon_types.specs.Rules.{WellFormed};
ghost use Rattle.cocoon_types.specs.Tables.{Defs};
ghost use Rattle.lowering.specs.Delivers.{DeliversExactly};
ghost use Rattle.lowering_correct.specs.Network.{IsNetwork};
ghost use Rattle.lowering.specs.Roles.{NetParts, net_parts};
ghost use Rattle.lowering_correct.specs.Followed.{AreFollowed};
ghost use Rattle.lowering_correct.specs.Ingress.{IngressIs};
ghost use Rattle.lowering_correct.specs.WiresLead.{WiresLead};
ghost use Rattle.p4_ir.specs.NetFits.{wiring_of};
ghost use Rattle.p4_ir.specs.NetTree.{NetData};
ghost use Rattle.p4_ir.specs.Wiring.{wiring_fits};
ghost use Rattle.runtime_defs.specs.Places.{Places};
ghost use Rattle.runtime_defs.specs.Stands.{Stands};
ghost use Rattle.sound_types.specs.Defined.{HasTables};

use cocoon_num::packets::enter_undoes_leave;
use cocoon_types::runs::runs_are_taken;
use sound_types::laws::{runs_by_tables, starts_fit};

/// The body of a wire reads no packet and makes no choice.
pub fn wires_lead()
    ensures { (d : Design) (h : HostDecl) (s : SwitchDecl) → WellFormed d
        → host_decl d ≡ Some h → switch_decl d ≡ Some s → WiresLead d h s }
{}

/// In a design that keeps the rules a name finds the same function from the last on as from the first on.
pub fn found_first()
    ensures { (d : Design) → WellFormed d → (f : List ℕ) (g : FunctionDecl)
        → named (λ (x : FunctionDecl). x.name) f (reverse (functions d)) ≡ Some g
        → named (λ (x : FunctionDecl). x.name) f (functions d) ≡ Some g }
{}

/// The role that the switches of a design run is its ingress role.
pub fn ingress_is()
    ensures { (d : Design) → WellFormed d
        → (parts : NetParts) → net_parts d ≡ Some parts → IngressIs d parts }
{}

/// The network of a design delivers what its last level delivers, where the visits of its switches are runs of the ingress
/// role's body.
pub fn networks_deliver()
    ensures { (d : Design) (defs : Defs) (places : Places) (net : NetData)
        → HasTables d places → Stands d places defs → (n : IsNetwork d places net)
        → AreFollowed d places defs n.parts → DeliversExactly net d defs }
{
    enter_undoes_leave();
    runs_are_taken();
    runs_by_tables();
    starts_fit();
}

/// The wires of the network of a design fit: its lists ascend, and what they name is there.
pub fn networks_are_wired()
    ensures { (d : Design) (places : Places) (net : NetData)
        → HasTables d places → IsNetwork d places net → net.ports < 2 ^ 16
        → wiring_fits (wiring_of net) ≡ true }
{}
