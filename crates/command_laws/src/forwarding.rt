//! What `forward` reports of a bundle that `compile` wrote.
ghost use Rattle.std.specs.Prelude.{◌≡◌, ◌↔◌, ◌+◌, Contains, List, Ok, Some, ℕ};
ghost use Rattle.std.specs.FinMap.{get};
ghost use Rattle.cocoon_io.specs.Calls.{appended};
ghost use Rattle.cocoon_types.specs.Runs.{LastGo, MayMake};
ghost use Rattle.command_laws.specs.ForwardsCompiled.{ForwardsCompiled, tables};
ghost use Rattle.net_run.specs.Outcomes.{AreDelivered, AreTravelling, Delivery};
ghost use Rattle.p4_ir.specs.Wiring.{host_numbers};
ghost use Rattle.packet_runs.specs.Packets.{Packet, packets_in};
ghost use Rattle.packet_runs.specs.Reports.{IsReport};

use crate::networks::one_network;
use cocoon_cli::laws::calls_keep_more;
use net_run::laws::travellers_go_on;

/// A `forward` with status 0 over the bundle of a `compile` with status 0 reports, for each packet
/// in order, what the design's last level delivers under the given definitions, copy for copy; and
/// each delivery is one that the topmost specification may make.
pub fn forward_tells_the_design()
    // what it prints is the report of the network that was compiled, for the packets of its file
    ensures report { (x : ForwardsCompiled)
        → (text : List ℕ) × (packets : List Packet) × (report : List ℕ)
        × (get x.files x.packets_name ≡ Some text)
        × (packets_in (host_numbers x.compiled.net.hosts) text ≡ Ok packets)
        × IsReport x.compiled.net x.hops packets report
        × (x.call.output_after ≡ appended x.call.output_before report) }

    // what it reports as delivered of a packet is, by any choices, what the last level does, and
    // nothing else
    ensures exact { (x : ForwardsCompiled) (a : ℕ) (bytes : List ℕ) (ds : List Delivery)
        → AreDelivered x.compiled.net a bytes x.hops ds → (d : Delivery) → Contains ds d
        ↔ LastGo x.compiled.design (tables x) a bytes d.choices x.hops d.host d.bytes }

    // where no copy travels, more visits deliver nothing else
    ensures whole { (x : ForwardsCompiled) (a : ℕ) (bytes : List ℕ)
        → AreTravelling x.compiled.net a bytes x.hops 0
        → (more : ℕ) (choices : List ℕ) (b : ℕ) (sent : List ℕ)
        → LastGo x.compiled.design (tables x) a bytes choices (x.hops + more) b sent
        → LastGo x.compiled.design (tables x) a bytes choices x.hops b sent }

    // and what is delivered is what the topmost specification may make
    ensures within { (x : ForwardsCompiled) (a : ℕ) (bytes : List ℕ) (ds : List Delivery)
        → AreDelivered x.compiled.net a bytes x.hops ds → (d : Delivery) → Contains ds d
        → MayMake x.compiled.design (tables x) a bytes d.host d.bytes }
{
    one_network();
    calls_keep_more();
    travellers_go_on();
}
