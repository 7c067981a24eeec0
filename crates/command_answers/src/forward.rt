//! `forward`: the packets of a file are run through the network of a bundle.
ghost use Rattle.std.specs.Prelude.{◌≡◌, IfErr, IfOk, map, Ok, Some};
ghost use Rattle.bundle_reader.specs.Readings.{ContentReads};
ghost use Rattle.command_line.specs.Command as spec;
ghost use Rattle.net_run.specs.Nets.{net_in};
ghost use Rattle.p4_ir.specs.Wiring.{host_numbers};
ghost use Rattle.packet_runs.specs.Judging.{packet_in};
ghost use Rattle.packet_runs.specs.Packets.{AllKnown, packets_in};
ghost use Rattle.command_answers.specs.Forwarding.{NotRun, NotSaid, RunsPackets};
ghost use Rattle.command_answers.specs.Answering.{PlansBy, Asked};
ghost use Rattle.command_answers.specs.FolderCalls.{IsQuiet};
ghost use Rattle.command_answers.specs.Steps.{Inputs};
ghost use Rattle.command_answers.specs.declared.answer.Writing.TheVariants.{Nothing};
ghost use Rattle.command_reports.specs.declared.files.CommandFile.TheVariants.{Packets};

use crate::answer::{Answer, Writing};
use bundle_reader::Net;
use cocoon_num::LimitName;
use command_line::Forward;
use command_reports::{CommandFile, Refusal, Report};
use packet_runs::{Packet, PacketFault, PacketsFault, read_packets, run_packets};
use std::alloc::Global;

/// The packets of a text, for the hosts of a network.
fn judged_packets(alloc: Global, net: &Net, text: &[u8]) -> Result<Vec<Packet>, Refusal>
    ensures say { IfOk result (λ v.
        packets_in (host_numbers (net_in net.now).hosts) text.now ≡ Ok (map packet_in v.items)) }
    ensures known { IfOk result (λ v.
        AllKnown (host_numbers (net_in net.now).hosts) (map packet_in v.items)) }
    ensures refused { IfErr result (NotSaid (net_in net.now) text.now) }
{
    match read_packets(alloc, net, text) {
        Ok(packets) => Ok(packets),
        Err(PacketFault::Form(line)) => Err(Refusal::Line(CommandFile::Packets, line)),
        Err(PacketFault::TooLong(count)) => Err(Refusal::OverLimit(LimitName::Packet, count)),
        Err(PacketFault::NoSuchHost(line)) => Err(Refusal::NoHost(CommandFile::Packets, line)),
        Err(PacketFault::NoMemory) => Err(Refusal::NoMemory),
    }
}

/// What is reported of the packets of a text that are run through a network. All lines are judged before the first packet
/// is run.
fn run_text(alloc: Global, net: &Net, hops: u32, text: &[u8]) -> Result<Vec<u8>, Refusal>
    ensures ran { IfOk result (λ v. RunsPackets (net_in net.now) hops text.now v.items) }
    ensures refused { IfErr result (NotRun (net_in net.now) hops text.now) }
{
    let packets = judged_packets(alloc, net, text)?;
    match run_packets(alloc, net, &packets, hops) {
        Ok(report) => Ok(report),
        Err(PacketsFault::Copies(count)) => Err(Refusal::OverLimit(LimitName::Copies, count)),
        Err(PacketsFault::NoMemory) => Err(Refusal::NoMemory),
    }
}

/// Runs each packet of a file through the network of the bundle, and reports what becomes of it.
pub fn forward<'w>(
    alloc: Global,
    asked: &Forward<'w>,
    net: &Net,
    text: &[u8],
) -> Result<Answer<'w>, Refusal>
    ensures asked { (inputs : Inputs) → inputs.file Packets ≡ Some text.now
        → ContentReads inputs.content asked.now.out.now (net_in net.now) → Asked
        (spec.forward asked.now.out.now asked.now.packets.now asked.now.hops) inputs result }
    ensures plans { IfOk result (λ a.
        PlansBy (λ w. w ≡ Nothing) a.report.verdict a.writing) }
    ensures quiet { IfErr result IsQuiet }
{
    let lines = run_text(alloc, net, asked.hops, text)?;
    Ok(Answer {
        report: Report::success(lines),
        writing: Writing::Nothing,
    })
}
