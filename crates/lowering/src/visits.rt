//! Visits of switches that run lowered programs: laws, each the contract of a function that does
//! nothing. What leaves a switch is what its role's body sends.

ghost use Rattle.std.specs.Prelude.{◌≡◌, ◌↔◌, ◌<◌, ◌^◌, ℕ, List, [], Some};
ghost use Rattle.cocoon_num.specs.Packets.{Packet, enter};
ghost use Rattle.cocoon_num.specs.Tree.{Block, FunctionDecl};
ghost use Rattle.cocoon_types.specs.Runs.{Go, Loc, World};
ghost use Rattle.cocoon_types.specs.Taken.{go};
ghost use Rattle.p4_ir.specs.P4Tree.{RowsFile, program_layout};
ghost use Rattle.p4_ir.specs.Switch.{switch_go};
ghost use Rattle.lowering.specs.Agrees.{Filling};
ghost use Rattle.lowering.specs.Whole.{SwitchRole};
ghost use Rattle.lowering.specs.SwitchProgram.{switch_program};
ghost use Rattle.lowering.specs.Fitting.{SwitchServes, VisitFits, role_layout};
ghost use Rattle.lowering.specs.Forks.{ForksAre, ForksName, ForksServe, GroupsAre};
ghost use Rattle.lowering.specs.Leaving.{HasRole, LeavesTo, port_at, role_departs};

use crate::bodies::{
    all_numbered, copy_ends, ingress_ends, lists_run, runs_are_visits, sites_settle,
};
use cocoon_types::runs::runs_are_taken;

/// Groups that serve the functions of a body's forks serve the forks.
pub fn forks_are_served()
    ensures { (fill : Filling) (rows : RowsFile) (functions : List FunctionDecl)
        (names : List (List ℕ)) → GroupsAre fill rows functions names
        → (b : Block) → ForksAre functions b → ForksName names b
        → ForksServe fill rows functions b }
{}

/// What leaves the switch that runs a role's program is what the role's body sends, before the
/// guard there is asked.
pub fn switches_depart()
    ensures layout { (r : SwitchRole) (s : ℕ)
        → program_layout (switch_program r s) ≡ role_layout r }
    ensures departs { (r : SwitchRole) (fill : Filling) (s : ℕ) (rows : RowsFile)
        → SwitchServes r fill s rows → (tag port : ℕ) (bytes cs : List ℕ)
        → ((x : Packet × List ℕ) → enter (role_layout r) bytes ≡ Some x
        → VisitFits r fill s port x.0)
        → switch_go (switch_program r s) rows tag port bytes cs
        ≡ role_departs r fill s port bytes cs }
{
    all_numbered();
    sites_settle();
    lists_run();
    ingress_ends();
    copy_ends();
}

/// What a role's body sends is where its run leads, where the guards of both locations are true.
pub fn departs_are_runs()
    ensures taken { (w : World) (r : SwitchRole) (fill : Filling) (role : List ℕ)
        → HasRole w r fill role → (s p : ℕ) → s < 2 ^ 16 → p < 2 ^ 16
        → (packet : Packet) → VisitFits r fill s p packet → (cs : List ℕ) (to : Loc) (sent : Packet)
        → (go w (port_at role s p) packet cs ≡ Some (to, sent, []))
        ↔ LeavesTo w r fill role s p packet cs to sent }
    ensures runs { (w : World) (r : SwitchRole) (fill : Filling) (role : List ℕ)
        → HasRole w r fill role → (s p : ℕ) → s < 2 ^ 16 → p < 2 ^ 16
        → (packet : Packet) → VisitFits r fill s p packet → (cs : List ℕ) (to : Loc) (sent : Packet)
        → Go w (port_at role s p) packet cs to sent
        ↔ LeavesTo w r fill role s p packet cs to sent }
{
    runs_are_visits();
    runs_are_taken();
}
