//! A packet's copies, followed depth first.
ghost use Rattle.std.specs.Prelude.{◌≡◌, ◌<◌, ◌≤◌, IfErr, IfOk, length, OnOk};
ghost use Rattle.net_run.specs.Nets.{net_in};
ghost use Rattle.net_run.specs.Following.{CanFollow, FollowStops, IsFollowed, IsUnderWay};
ghost use Rattle.net_run.specs.Delivering.{delivery_of};
ghost use Rattle.net_run.specs.Ends.{ends};
ghost use Rattle.net_run.specs.RunCounts.{runs};
ghost use Rattle.net_run.specs.Stations.{StationsFit};
ghost use Rattle.net_run.specs.UnderWay.{stack_ends, stack_runs};

use crate::delivering::Delivery;
use crate::fault::{MOST_RUNS, RunFault};
use crate::net::Net;
use crate::room::Room;
use crate::standing::Standing;
use crate::stations::Stations;
use cocoon_num::{List, NoMemory, Text};
use p4_ir::LinkEnd;
use std::alloc::Global;

/// How far a packet is followed.
#[derive(Drop)]
pub(crate) struct Walk<'n> {
    /// The copies under way; the last is the next to be followed.
    pub(crate) stack: Vec<Standing>,
    pub(crate) delivered: Vec<Delivery>,
    pub(crate) travelling: u32,
    /// How many runs of ingress and of egress were made.
    pub(crate) runs: usize,
    pub(crate) stations: Stations<'n>,
}

/// The packet alone, where its host is attached; nothing, where it is attached nowhere.
fn first_stack(
    alloc: Global,
    room: &mut Room,
    net: &Net,
    host: u64,
    bytes: &[u8],
    hops: u32,
) -> Result<Vec<Standing>, NoMemory>
    ensures ends { IfOk result (λ v. stack_ends (net_in net.now) v.items
        ≡ ends (net_in net.now) host bytes.now hops) }
    ensures runs { IfOk result (λ v. stack_runs (net_in net.now) v.items
        ≡ runs (net_in net.now) host bytes.now hops) }
    ensures one { IfOk result (λ v. length v.items ≤ 1) }
{
    let mut stack = room.no_copies(alloc);
    let Some((switch, port)) = net.attachment(host) else {
        return Ok(stack);
    };
    stack.push(Standing {
        at: LinkEnd::Switch(switch, port),
        choices: Vec::new(alloc),
        bytes: room.copied(alloc, bytes)?,
        visits: hops,
    })?;
    Ok(stack)
}

/// The delivery of a copy at a host.
fn delivery(alloc: Global, host: u64, choices: Vec<u64>, bytes: &[u8]) -> Result<Delivery, NoMemory>
    ensures { IfOk result (λ d. delivery_of d
        ≡ record { host = host; choices = choices.items; bytes = bytes.now }) }
{
    Ok(Delivery {
        host,
        choices: List::from(choices),
        bytes: Text::from(alloc, bytes)?,
    })
}

impl<'n> Walk<'n> {
    /// A packet of a host, before its first visit.
    pub(crate) fn start(
        alloc: Global,
        net: &'n Net,
        stations: Stations<'n>,
        host: u64,
        bytes: &[u8],
        hops: u32,
    ) -> Result<Walk<'n>, NoMemory>
        requires { StationsFit net.now stations }
        ensures { IfOk result (IsUnderWay net.now host bytes.now hops) }
    {
        let mut stations = stations;
        let stack = first_stack(alloc, &mut stations.room, net, host, bytes, hops)?;
        Ok(Walk {
            stack,
            delivered: Vec::new(alloc),
            travelling: 0,
            runs: 0,
            stations,
        })
    }

    /// A visit of a switch by a copy that may make one more, and whose memory is left to others.
    fn visit(
        &mut self,
        alloc: Global,
        net: &'n Net,
        switch: u16,
        port: u16,
        copy: Standing,
    ) -> Result<(), RunFault>
        requires at { copy.at ≡ LinkEnd.Switch switch port }
        requires more { 0 < copy.visits }
        requires can { CanFollow net.now copy self.old }
        ensures followed { OnOk result (IsFollowed net.now copy self.old self.new) }
        ensures stops { IfErr result (FollowStops net.now copy self.old) }
    {
        let left = MOST_RUNS as usize - self.runs;
        let visited = self
            .stations
            .visit(alloc, net, switch, port, &copy.bytes, left)?;
        self.runs += visited.runs;
        let none = copy.push_all(alloc, net, switch, visited.departed, &mut self.stack)?;
        self.stations.room.departed = none;
        self.stations.room.bytes.push(copy.bytes)?;
        Ok(())
    }

    /// Follows a copy that was on top of the stack to where it stands next.
    pub(crate) fn follow(
        &mut self,
        alloc: Global,
        net: &'n Net,
        copy: Standing,
    ) -> Result<(), RunFault>
        requires { CanFollow net.now copy self.old }
        ensures followed { OnOk result (IsFollowed net.now copy self.old self.new) }
        ensures stops { IfErr result (FollowStops net.now copy self.old) }
    {
        match copy.at {
            LinkEnd::Host(host) => {
                let delivered = delivery(alloc, host, copy.choices, &copy.bytes)?;
                self.delivered.push(delivered)?;
                self.stations.room.bytes.push(copy.bytes)?;
                Ok(())
            }
            LinkEnd::Switch(switch, port) => {
                if copy.visits == 0 {
                    self.travelling += 1;
                    return Ok(());
                }
                self.visit(alloc, net, switch, port, copy)
            }
        }
    }
}
