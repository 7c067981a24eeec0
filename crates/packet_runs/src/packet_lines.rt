//! The lines of a file of packets.
ghost use Rattle.std.specs.Prelude.{◌≡◌, ◌⊎◌, IfErr, IfOk, map, option_map, Result, Ok, Err};
ghost use Rattle.net_run.specs.Nets.{net_in};
ghost use Rattle.p4_ir.specs.Wiring.{host_numbers};
ghost use Rattle.packet_runs.specs.Judging.{AnswersAs, packet_in};
ghost use Rattle.packet_runs.specs.Packets as spec;
ghost use Rattle.packet_runs.specs.Packets.{AllKnown, judged, packet_of, packets_in};
ghost use Rattle.text_lines.specs.LineOf.{line_of};

use crate::bytes::read_bytes;
use crate::packet::{Packet, PacketFault};
use cocoon_num::NoMemory;
use net_run::Net;
use std::alloc::Global;
use text_lines::{Line, read_number, split_lines, split_parts};

/// The most bytes of a packet.
pub const MOST_BYTES: u64 = 65_535;

/// The packet that two parts of a line are.
fn read_both(alloc: Global, host: &[u8], bytes: &[u8]) -> Result<Option<Packet>, NoMemory>
    ensures { IfOk result (λ packet. option_map packet_in packet
        ≡ spec.both_of host.now bytes.now) }
{
    let Some(host) = read_number(host) else {
        return Ok(None);
    };
    match read_bytes(alloc, bytes)? {
        Some(bytes) => Ok(Some(Packet { host, bytes })),
        None => Ok(None),
    }
}

/// The packet that some parts are.
fn read_parts(alloc: Global, parts: &[&[u8]]) -> Result<Option<Packet>, NoMemory>
    ensures { IfOk result (λ packet. option_map packet_in packet
        ≡ packet_of (map (λ part. part.now) parts.now)) }
{
    match parts {
        [host, bytes] => read_both(alloc, host, bytes),
        _ => Ok(None),
    }
}

/// The packet of a line, if it is not too long and its host is one of the network.
fn read_line(alloc: Global, net: &Net, line: Line<'_>) -> Result<Packet, PacketFault>
    ensures { AnswersAs packet_in
        (judged (host_numbers (net_in net.now).hosts) (line_of line.entry)) result }
{
    let parts = split_parts(alloc, line.bytes)?;
    let Some(packet) = read_parts(alloc, &parts)? else {
        return Err(PacketFault::Form(line.number));
    };
    if packet.bytes.len() as u64 > MOST_BYTES {
        return Err(PacketFault::TooLong(packet.bytes.len() as u64));
    }
    if net.has_host(packet.host) {
        Ok(packet)
    } else {
        Err(PacketFault::NoSuchHost(line.number))
    }
}

/// The packets of a file, for the hosts of a network. A line ends with a line feed or at the end, and empty lines are skipped
/// and counted. Any other is a host and the bytes of a packet with one space between.
///
/// The first fault is answered. Of a line the form is tested first, then the number of bytes, then that the network has the
/// host.
#[tactic(auto, unfolding(crate::specs::Packets::packets_in))]
pub fn read_packets(alloc: Global, net: &Net, text: &[u8]) -> Result<Vec<Packet>, PacketFault>
    ensures reads { AnswersAs (λ v. map packet_in v.items)
        (packets_in (host_numbers (net_in net.now).hosts) text.now) result }
    ensures known { IfOk result (λ v.
        AllKnown (host_numbers (net_in net.now).hosts) (map packet_in v.items)) }
{
    let lines = split_lines(alloc, text)?;
    let mut packets = Vec::new(alloc);
    for line in &lines.filled {
        packets.push(read_line(alloc, net, *line)?)?;
    }
    Ok(packets)
}
