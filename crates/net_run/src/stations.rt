//! Switches that copies have visited, each with a frame for its runs.
ghost use Rattle.std.specs.Prelude.{◌≡◌, ◌≤◌, ◌<◌, IfErr, IfOk, length, map, OnOk};
ghost use Rattle.std.specs.List.{All};
ghost use Rattle.net_run.specs.Nets.{net_in};
ghost use Rattle.net_run.specs.declared.net.Net.{Net as NetOf};
ghost use Rattle.net_run.specs.Departures.{departures_at};
ghost use Rattle.net_run.specs.DepartedOf.{departed_of, VisitStops};
ghost use Rattle.net_run.specs.RunCounts.{visit_runs};
ghost use Rattle.net_run.specs.Stations.{IsStationOf, StandsAt, StationsFit};
ghost use Rattle.p4_ir.specs.NetRuns.{switch_at};

use crate::departed::Visited;
use crate::fault::RunFault;
use crate::net::Net;
use crate::room::Room;
use crate::visiting::visit;
use cocoon_num::NoMemory;
use p4_run::{Frame, Loaded};
use std::alloc::Global;

/// A switch, and the frame in which its runs are made.
#[derive(Drop)]
struct Station<'n> {
    number: u16,
    loaded: &'n Loaded,
    frame: Frame,
}

/// The switches that were visited, in ascending order of their numbers, each with its frame.
#[derive(Drop)]
pub struct Stations<'n> {
    visited: Vec<Station<'n>>,
    pub(crate) room: Room,
}

impl<'n> Stations<'n> {
    /// Before any visit.
    pub fn new(alloc: Global) -> Stations<'n>
        ensures { (net : NetOf) → StationsFit net result }
    {
        Stations {
            visited: Vec::new(alloc),
            room: Room::new(alloc),
        }
    }

    /// The index of a switch of the network, which now has a frame.
    fn index(&mut self, alloc: Global, net: &'n Net, number: u16) -> Result<Option<usize>, NoMemory>
        requires { StationsFit net.now self.old }
        ensures fit { OnOk result (StationsFit net.now self.new) }
        ensures found { IfOk result (λ found.
            StandsAt net.now number self.new.visited.items found) }
    {
        let at = self.visited.partition_point(|known| known.number < number);
        if at < self.visited.len() && self.visited[at].number == number {
            return Ok(Some(at));
        }
        let Some(loaded) = net.loaded(number) else {
            return Ok(None);
        };
        let frame = Frame::new(alloc, loaded)?;
        self.visited.insert(
            at,
            Station {
                number,
                loaded,
                frame,
            },
        )?;
        Ok(Some(at))
    }

    /// A visit of a switch of the network, as `visit` makes it. Nothing departs where there is no such switch.
    pub(crate) fn visit(
        &mut self,
        alloc: Global,
        net: &'n Net,
        number: u16,
        port: u16,
        bytes: &[u8],
        most: usize,
    ) -> Result<Visited, RunFault>
        requires { StationsFit net.now self.old }
        ensures fit { OnOk result (StationsFit net.now self.new) }
        ensures departed { IfOk result (λ v. map departed_of v.departed.items
            ≡ departures_at (switch_at (net_in net.now).switches number) port bytes.now) }
        ensures runs { IfOk result (λ v. v.runs
            ≡ visit_runs (switch_at (net_in net.now).switches number) port bytes.now) }
        ensures within { IfOk result (λ v. v.runs ≤ most) }
        ensures fewer { IfOk result (λ v. length v.departed.items ≤ v.runs) }
        ensures over { IfErr result (λ fault. VisitStops fault (most
            < visit_runs (switch_at (net_in net.now).switches number) port bytes.now)) }
    {
        let Some(index) = self.index(alloc, net, number)? else {
            return Ok(Visited {
                departed: Vec::new(alloc),
                runs: 0,
            });
        };
        let station = &mut self.visited[index];
        visit(
            alloc,
            station.loaded,
            &mut station.frame,
            &mut self.room,
            port,
            bytes,
            most,
        )
    }
}
