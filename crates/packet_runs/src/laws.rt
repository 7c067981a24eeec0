//! A law of reports. The function does nothing; its contract is the law.
ghost use Rattle.std.specs.Prelude.{◌≡◌, List, ℕ};
ghost use Rattle.p4_ir.specs.NetTree.{NetData};
ghost use Rattle.packet_runs.specs.Packets.{Packet};
ghost use Rattle.packet_runs.specs.Reports.{IsReport};

use net_run::laws::{one_delivered, one_travelling};

/// A network and packets have one report.
pub fn one_report()
    ensures { (net : NetData) (hops : ℕ) (packets : List Packet) (one other : List ℕ)
        → IsReport net hops packets one → IsReport net hops packets other → one ≡ other }
{
    one_delivered();
    one_travelling();
}
