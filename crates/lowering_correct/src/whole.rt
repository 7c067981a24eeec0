//! What is known of the network of a design under definitions. The functions do nothing; their contracts are the laws.
ghost use Rattle.std.specs.Prelude.{◌<◌, ◌≡◌, ◌^◌, length, Some, true, ℕ};
ghost use Rattle.cocoon_num.specs.Lists.{has_number};
ghost use Rattle.cocoon_num.specs.Tree.{DefsText, Design};
ghost use Rattle.cocoon_types.specs.Tables.{defs_of};
ghost use Rattle.lowering.specs.Delivers.{DeliversExactly};
ghost use Rattle.lowering_correct.specs.Groups.{fork_groups};
ghost use Rattle.lowering_correct.specs.Network.{IsNetwork};
ghost use Rattle.lowering.specs.Roles.{NetParts, net_parts};
ghost use Rattle.lowering.specs.SwitchProgram.{switch_made, switch_program};
ghost use Rattle.lowering_correct.specs.Followed.{AreFollowed};
ghost use Rattle.lowering_correct.specs.Writable.{IsWritable};
ghost use Rattle.p4_ir.specs.NetFits.{net_fits};
ghost use Rattle.p4_ir.specs.NetTree.{NetData};
ghost use Rattle.runtime_defs.specs.Places.{Places};
ghost use Rattle.runtime_defs.specs.Stands.{Stands};
ghost use Rattle.sound_types.specs.Defined.{HasDefinitions, HasTables};

use crate::networks::{found_first, ingress_is, networks_are_wired, networks_deliver};
use crate::rows::{groups_serve, logs_are_made, rows_load, tables_serve};
use crate::types::{forks_are, functions_fit, roles_fit};
use lowering::visits::{departs_are_runs, forks_are_served, switches_depart};
use sound_types::laws::starts_fit;

/// The visits of switches are runs of the ingress role's body.
pub fn visits_are_followed()
    ensures { (d : Design) (es : DefsText) (places : Places)
        → HasTables d places → HasDefinitions d es → Stands d places (defs_of d es)
        → (parts : NetParts) → net_parts d ≡ Some parts
        → AreFollowed d places (defs_of d es) parts }
{
    found_first();
    ingress_is();
    groups_serve();
    logs_are_made();
    tables_serve();
    forks_are();
    functions_fit();
    roles_fit();
    departs_are_runs();
    forks_are_served();
    switches_depart();
    starts_fit();
}

/// The network of a design under definitions delivers exactly what the design's last level delivers.
pub fn networks_are_exact()
    ensures { (d : Design) (es : DefsText) (places : Places) (net : NetData)
        → HasTables d places → HasDefinitions d es → Stands d places (defs_of d es)
        → IsNetwork d places net → DeliversExactly net d (defs_of d es) }
{
    visits_are_followed();
    networks_deliver();
}

/// The network of a design can be written as a bundle, where its programs are well kinded, and it has not too many ports,
/// groups and tables.
pub fn networks_fit()
    ensures { (d : Design) (places : Places) (net : NetData)
        → HasTables d places → (n : IsNetwork d places net) → net.ports < 2 ^ 16
        → length (fork_groups d places) < 2 ^ 16
        → ((s : ℕ) → has_number s n.switches ≡ true
        → IsWritable (switch_program n.parts.role s) (switch_made n.parts.role s))
        → net_fits net ≡ true }
{
    networks_are_wired();
    logs_are_made();
    rows_load();
}
