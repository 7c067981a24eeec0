//! One visit of a switch, with all its copies.
ghost use Rattle.std.specs.Prelude.{◌≡◌, ◌++◌, ◌<◌, ◌≤◌, [], drop, IfErr, IfOk, length, map, OnOk};
ghost use Rattle.net_run.specs.Departures as spec;
ghost use Rattle.net_run.specs.Departures.{departures, put, runs_after};
ghost use Rattle.net_run.specs.DepartedOf.{departed_of, VisitStops, way_of};
ghost use Rattle.p4_run.specs.Frames.{Fits};
ghost use Rattle.p4_run.specs.Running.{program_in, rows_in};
ghost use Rattle.p4_run.specs.Visits.{after_ingress, departs, ingress_left};

use crate::departed::{Departed, Visited};
use crate::fault::{MOST_RUNS, RunFault};
use crate::room::Room;
use cocoon_num::NoMemory;
use p4_run::{Frame, Loaded, Next};
use std::alloc::Global;

/// The headers, and what comes behind as many bytes.
fn departing_bytes(
    alloc: Global,
    room: &mut Room,
    headers: &[u8],
    bytes: &[u8],
) -> Result<Vec<u8>, NoMemory>
    ensures { IfOk result (λ v. v.items ≡ headers.now ++ drop (length headers.now) bytes.now) }
{
    let mut all = room.no_bytes(alloc, bytes.len())?;
    all.extend_from_slice(headers)?;
    if headers.len() < bytes.len() {
        all.extend_from_slice(&bytes[headers.len()..])?;
    }
    Ok(all)
}

/// Adds what departs, if anything does.
fn push_departed(
    alloc: Global,
    room: &mut Room,
    all: &mut Vec<Departed>,
    member: Option<u64>,
    next: Next,
    headers: &[u8],
    bytes: &[u8],
) -> Result<(), NoMemory>
    ensures { OnOk result (map departed_of all.new.items ≡ map departed_of all.old.items
        ++ put (way_of member) (departs next headers.now bytes.now) []) }
{
    match next {
        Next::Port(port) => {
            let bytes = departing_bytes(alloc, room, headers, bytes)?;
            all.push(Departed {
                member,
                port,
                bytes,
            })?;
            Ok(())
        }
        _ => Ok(()),
    }
}

/// The members for which copies are made.
fn members_after(loaded: &Loaded, next: Next) -> &[u64]
    ensures { result.now ≡ spec.members_after (rows_in loaded.now) next }
{
    match next {
        Next::Copies(group) => loaded.members(group),
        _ => &[],
    }
}

/// All that departs from a visit of bytes at a port, in ascending order of the members, where there are no more runs of
/// ingress and egress than `most`.
pub fn visit(
    alloc: Global,
    loaded: &Loaded,
    frame: &mut Frame,
    room: &mut Room,
    port: u16,
    bytes: &[u8],
    most: usize,
) -> Result<Visited, RunFault>
    requires fits { Fits (program_in loaded.now) frame.old }
    ensures fits { Fits (program_in loaded.now) frame.new }
    ensures departed { IfOk result (λ v. map departed_of v.departed.items
        ≡ departures (program_in loaded.now) (rows_in loaded.now) port bytes.now) }
    ensures runs { IfOk result (λ v. v.runs ≡ runs_after (rows_in loaded.now)
        (after_ingress
        (ingress_left (program_in loaded.now) (rows_in loaded.now) port bytes.now))) }
    ensures within { IfOk result (λ v. runs_after (rows_in loaded.now)
        (after_ingress (ingress_left (program_in loaded.now) (rows_in loaded.now) port bytes.now))
        ≤ most) }
    ensures over { IfErr result (λ fault. VisitStops fault (most < runs_after (rows_in loaded.now)
        (after_ingress
        (ingress_left (program_in loaded.now) (rows_in loaded.now) port bytes.now)))) }
{
    let mut all = room.none_departed(alloc);
    let next = loaded.ingress(frame, port, bytes);
    push_departed(alloc, room, &mut all, None, next, frame.headers(), bytes)?;
    let members = members_after(loaded, next);
    if members.len() >= most {
        return Err(RunFault::Copies(MOST_RUNS + 1));
    }
    for member in members {
        let next = loaded.egress(frame, *member);
        push_departed(
            alloc,
            room,
            &mut all,
            Some(*member),
            next,
            frame.headers(),
            bytes,
        )?;
    }
    Ok(Visited {
        departed: all,
        runs: members.len() + 1,
    })
}
