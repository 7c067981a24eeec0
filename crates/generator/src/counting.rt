//! Packets, run one after another and counted.
ghost use Rattle.std.specs.Prelude.{◌≤◌, ◌↔◌, IfErr, IfOk, IsTrue};
ghost use Rattle.net_run.specs.Nets.{net_in};
ghost use Rattle.net_run.specs.RunCounts.{most_runs};
ghost use Rattle.generator.specs.Arriving.{Arrives};
ghost use Rattle.generator.specs.Counting.{IsCount};
ghost use Rattle.generator.specs.Stopping.{AllWithin, Stops, StopsAt, runs_of};

use crate::packet;
use net_run::{Net, RunFault, deliver};
use packet_runs::PacketsFault;
use std::alloc::Global;

/// The most visits of switches that a packet makes.
const MOST_VISITS: u32 = 16;

/// Whether the packet of this number is delivered at a host. One whose host the network has not is
/// dropped.
fn arrives(alloc: Global, net: &Net, hosts: u32, number: u32) -> Result<bool, PacketsFault>
    requires some { 1 ≤ hosts }
    requires few { hosts ≤ 200 }
    ensures arrives { IfOk result (λ arrives.
        IsTrue arrives ↔ Arrives (net_in net.now) hosts number) }
    ensures within { IfOk result (λ arrives. runs_of (net_in net.now) hosts number ≤ most_runs) }
    ensures stops { IfErr result (StopsAt (net_in net.now) hosts number) }
{
    let packet = packet(alloc, hosts, number)?;
    match deliver(alloc, net, packet.host, &packet.bytes, MOST_VISITS) {
        Ok(outcome) => Ok(!outcome.delivered.items().is_empty()),
        Err(RunFault::NoSuchHost) => Ok(false),
        Err(RunFault::Copies(count)) => Err(PacketsFault::Copies(count)),
        Err(RunFault::NoMemory) => Err(PacketsFault::NoMemory),
    }
}

/// How many of so many packets the network delivers, each within 16 visits of switches.
pub fn count_delivered(
    alloc: Global,
    net: &Net,
    hosts: u32,
    packets: u32,
) -> Result<u32, PacketsFault>
    requires some { 1 ≤ hosts }
    requires few { hosts ≤ 200 }
    ensures counted { IfOk result (IsCount (Arrives (net_in net.now) hosts) packets) }
    ensures bounded { IfOk result (λ count. count ≤ packets) }
    ensures within { IfOk result (λ count. AllWithin (net_in net.now) hosts packets) }
    ensures stops { IfErr result (Stops (net_in net.now) hosts packets) }
{
    let mut count = 0;
    for number in 0..packets {
        if arrives(alloc, net, hosts, number)? {
            count += 1;
        }
    }
    Ok(count)
}
