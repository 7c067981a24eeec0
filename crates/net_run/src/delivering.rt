//! All copies of a packet, followed to their ends. A frame holds what a visit works in, so that it is made once for each switch
//! and not for each visit; `Stations` are the switches that packets have visited, each with its frame.
ghost use Rattle.std.specs.Prelude.{◌≡◌, ◌≤◌, IfErr, IfOk, map, true};
ghost use Rattle.cocoon_num.specs.Lists.{has_number};
ghost use Rattle.net_run.specs.Nets.{net_in};
ghost use Rattle.net_run.specs.Delivering.{delivery_of, RunStops};
ghost use Rattle.net_run.specs.Outcomes.{AreDelivered, AreTravelling};
ghost use Rattle.net_run.specs.RunCounts.{most_runs, runs};
ghost use Rattle.net_run.specs.Stations.{StationsFit};
ghost use Rattle.p4_ir.specs.Wiring.{host_numbers};

use crate::fault::RunFault;
use crate::following::Walk;
use crate::net::Net;
use crate::stations::Stations;
use cocoon_num::{List, Text};
use std::alloc::Global;

/// What is delivered at a host: the members of groups for which copies were made on the way, in order, and the bytes.
#[derive(Drop)]
pub struct Delivery {
    pub host: u64,
    pub choices: List<u64>,
    pub bytes: Text,
}

/// What becomes of a packet.
#[derive(Drop)]
pub struct Outcome {
    /// In ascending order of the choices, each once.
    pub delivered: List<Delivery>,
    /// How many copies made all visits and stand before another switch.
    pub travelling: u32,
}

/// What becomes of a packet, and the frames in which its runs were made.
#[derive(Drop)]
pub struct Delivered<'n> {
    pub outcome: Outcome,
    pub stations: Stations<'n>,
}

/// Follows a packet of a host, and all its copies, through at most `hops` visits each. Frames that earlier packets of the network
/// left are used again.
pub fn deliver_in<'n>(
    alloc: Global,
    net: &'n Net,
    stations: Stations<'n>,
    host: u64,
    bytes: &[u8],
    hops: u32,
) -> Result<Delivered<'n>, RunFault>
    requires { StationsFit net.now stations }
    ensures fit { IfOk result (λ d. StationsFit net.now d.stations) }
    ensures delivered { IfOk result (λ d.
        AreDelivered (net_in net.now) host bytes.now hops (map delivery_of d.outcome.delivered)) }
    ensures travelling { IfOk result (λ d.
        AreTravelling (net_in net.now) host bytes.now hops d.outcome.travelling) }
    ensures known { IfOk result (λ d.
        has_number host (host_numbers (net_in net.now).hosts) ≡ true) }
    ensures within { IfOk result (λ d. runs (net_in net.now) host bytes.now hops ≤ most_runs) }
    ensures stops { IfErr result (RunStops (net_in net.now) host bytes.now hops) }
{
    if !net.has_host(host) {
        return Err(RunFault::NoSuchHost);
    }
    let mut walk = Walk::start(alloc, net, stations, host, bytes, hops)?;
    while let Some(copy) = walk.stack.pop() {
        walk.follow(alloc, net, copy)?;
    }
    let mut stations = walk.stations;
    stations.room.keep_stack(walk.stack);
    Ok(Delivered {
        outcome: Outcome {
            delivered: List::from(walk.delivered),
            travelling: walk.travelling,
        },
        stations,
    })
}

/// The same of one packet alone.
pub fn deliver(
    alloc: Global,
    net: &Net,
    host: u64,
    bytes: &[u8],
    hops: u32,
) -> Result<Outcome, RunFault>
    ensures delivered { IfOk result (λ o.
        AreDelivered (net_in net.now) host bytes.now hops (map delivery_of o.delivered)) }
    ensures travelling { IfOk result (λ o.
        AreTravelling (net_in net.now) host bytes.now hops o.travelling) }
    ensures known { IfOk result (λ o.
        has_number host (host_numbers (net_in net.now).hosts) ≡ true) }
    ensures within { IfOk result (λ o. runs (net_in net.now) host bytes.now hops ≤ most_runs) }
    ensures stops { IfErr result (RunStops (net_in net.now) host bytes.now hops) }
{
    match deliver_in(alloc, net, Stations::new(alloc), host, bytes, hops) {
        Ok(delivered) => Ok(delivered.outcome),
        Err(fault) => Err(fault),
    }
}
