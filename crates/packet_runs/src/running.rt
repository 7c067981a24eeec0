//! The packets of a file, run one after another.
ghost use Rattle.std.specs.Prelude.{◌≡◌, ◌≤◌, IfErr, IfOk, map, OnOk, true};
ghost use Rattle.cocoon_num.specs.Lists.{has_number};
ghost use Rattle.net_run.specs.Nets.{net_in};
ghost use Rattle.net_run.specs.RunCounts.{most_runs, runs};
ghost use Rattle.net_run.specs.Stations.{StationsFit};
ghost use Rattle.p4_ir.specs.Wiring.{host_numbers};
ghost use Rattle.packet_runs.specs.Judging.{packet_in};
ghost use Rattle.packet_runs.specs.Packets.{AllKnown};
ghost use Rattle.packet_runs.specs.Growing.{AddsPacket, outcome_of};
ghost use Rattle.packet_runs.specs.Reports.{IsOutcome, IsReport};
ghost use Rattle.packet_runs.specs.Stopping.{AllWithin, Stops, StopsAt};

use crate::Packet;
use crate::lines::{LineRoom, push_outcome};
use cocoon_num::NoMemory;
use net_run::{Delivered, Net, RunFault, Stations, deliver_in};
use std::alloc::Global;

/// Why packets are not all run.
#[derive(Clone, Copy, Debug, Drop, PartialEq, Eq)]
pub enum PacketsFault {
    /// The copies of a packet would make more runs of ingress and of egress than may be made; it is how many there are at the
    /// first one too many.
    Copies(u64),
    NoMemory,
}

impl From<NoMemory> for PacketsFault {
    ghost use Rattle.std.specs.Prelude.{◌≡◌};
    ghost use Rattle.packet_runs.specs.declared.running.PacketsFault.TheVariants.{NoMemory};

    ghost from_gives = { λ _ fault. fault ≡ NoMemory };

    fn from(_: NoMemory) -> PacketsFault {
        PacketsFault::NoMemory
    }
}

/// What becomes of a packet whose host the network has.
fn outcome_of<'n>(
    alloc: Global,
    net: &'n Net,
    stations: Stations<'n>,
    packet: &Packet,
    hops: u32,
) -> Result<Delivered<'n>, PacketsFault>
    requires fit { StationsFit net.now stations }
    requires known { has_number packet.now.host (host_numbers (net_in net.now).hosts) ≡ true }
    ensures fit { IfOk result (λ d. StationsFit net.now d.stations) }
    ensures outcome { IfOk result (λ d.
        IsOutcome (net_in net.now) hops (packet_in packet.now) (outcome_of d.outcome)) }
    ensures within { IfOk result (λ d.
        runs (net_in net.now) packet.now.host packet.now.bytes.items hops ≤ most_runs) }
    ensures stops { IfErr result (StopsAt (net_in net.now) hops (packet_in packet.now)) }
{
    match deliver_in(alloc, net, stations, packet.host, &packet.bytes, hops) {
        Ok(delivered) => Ok(delivered),
        Err(RunFault::NoSuchHost) => unreachable!(),
        Err(RunFault::Copies(count)) => Err(PacketsFault::Copies(count)),
        Err(RunFault::NoMemory) => Err(PacketsFault::NoMemory),
    }
}

/// Runs a packet, and reports what becomes of it.
fn push_packet<'n>(
    alloc: Global,
    net: &'n Net,
    stations: Stations<'n>,
    room: &mut LineRoom,
    report: &mut Vec<u8>,
    number: u64,
    packet: &Packet,
    hops: u32,
) -> Result<Stations<'n>, PacketsFault>
    requires fit { StationsFit net.now stations }
    requires known { has_number packet.now.host (host_numbers (net_in net.now).hosts) ≡ true }
    ensures fit { IfOk result (λ stations. StationsFit net.now stations) }
    ensures lines { OnOk result (AddsPacket (net_in net.now) hops number (packet_in packet.now)
        report.old.items report.new.items) }
    ensures within { IfOk result (λ o.
        runs (net_in net.now) packet.now.host packet.now.bytes.items hops ≤ most_runs) }
    ensures stops { IfErr result (StopsAt (net_in net.now) hops (packet_in packet.now)) }
{
    let delivered = outcome_of(alloc, net, stations, packet, hops)?;
    push_outcome(room, report, number, &delivered.outcome)?;
    Ok(delivered.stations)
}

/// The report of packets that are run one after another, each with at most `hops` visits: for each a line with its number,
/// from 1, with how many copies are delivered and how many travel on, and then a line for each delivery, in ascending order
/// of the choices.
pub fn run_packets(
    alloc: Global,
    net: &Net,
    packets: &[Packet],
    hops: u32,
) -> Result<Vec<u8>, PacketsFault>
    requires known { AllKnown (host_numbers (net_in net.now).hosts) (map packet_in packets.now) }
    ensures report { IfOk result (λ report.
        IsReport (net_in net.now) hops (map packet_in packets.now) report.items) }
    ensures within { IfOk result (λ report.
        AllWithin (net_in net.now) hops (map packet_in packets.now)) }
    ensures stops { IfErr result (Stops (net_in net.now) hops (map packet_in packets.now)) }
{
    let mut report = Vec::new(alloc);
    let mut stations = Stations::new(alloc);
    let mut room = LineRoom::new(alloc);
    let mut number = 0;
    for packet in packets {
        number += 1;
        stations = push_packet(
            alloc,
            net,
            stations,
            &mut room,
            &mut report,
            number,
            packet,
            hops,
        )?;
    }
    Ok(report)
}
