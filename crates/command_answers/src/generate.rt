//! `gen`: a network is generated and compiled in memory, and its packets are counted by whether it delivers
//! them.
ghost use Rattle.std.specs.Prelude.{◌≡◌, ◌⊎◌, ◌≤◌, IfErr, IfOk, IsTrue, OnOk, string_bytes};
ghost use Rattle.bundle_reader.specs.OneReading.{IsOfFiles};
ghost use Rattle.bundle_reader.specs.Readings.{IsFirstFault, ReadsAs};
ghost use Rattle.bundle_reader.specs.declared.fault.ReadFault.{ReadFault};
ghost use Rattle.command_line.specs.Command as spec;
ghost use Rattle.command_line.specs.Subcommands.{CanGenerate};
ghost use Rattle.net_run.specs.Nets.{net_in};
ghost use Rattle.net_bundle.specs.Bundle.{bundle};
ghost use Rattle.net_bundle.specs.Writing.{AllFit};
ghost use Rattle.p4_ir.specs.NetFits.{net_fits};
ghost use Rattle.shared_net.specs.Shared.{shared_of};
ghost use Rattle.command_answers.specs.Answering.{PlansBy, Asked};
ghost use Rattle.command_answers.specs.Commands.{generated_name};
ghost use Rattle.command_answers.specs.Generating.{Counts, NotCounted, NotHeld, NotTold, TellsCount};
ghost use Rattle.command_answers.specs.ReportLines.{generated_line};
ghost use Rattle.command_answers.specs.FolderCalls.{IsQuiet};
ghost use Rattle.command_answers.specs.Steps.{Inputs};
ghost use Rattle.command_answers.specs.declared.answer.Writing.TheVariants.{Nothing};

use crate::answer::{Answer, Writing, bytes_in};
use crate::compile::compile;
use bundle_reader::laws::{one_reading, written_reads_back};
use bundle_reader::{Net, read_bundle};
use cocoon_io::HonestFolder;
use cocoon_num::{LimitName, List, NoMemory};
use command_line::subcommands::{USUAL_CONFLICTS, USUAL_ROUNDS};
use command_line::{Compile, Gen};
use command_reports::{Refusal, Report, unread};
use generator::laws::as_many_are_reached;
use generator::{count_delivered, definitions_text, design_text};
use net_bundle::write_bundle;
use packet_runs::PacketsFault;
use shared_net::SharedNet;
use std::alloc::Global;

/// The name that stands in reports for what is generated.
pub const GENERATED: &str = "gen";

/// Writes the bundle of a network in memory.
fn write_in(
    alloc: Global,
    folder: &mut HonestFolder,
    design: &[u8],
    net: &SharedNet,
    certificates: &Option<List<u8>>,
) -> Result<(), Refusal>
    requires { IsTrue (net_fits (shared_of net.now)) }
    ensures reads { OnOk result (ReadsAs folder.new generated_name (shared_of net.now)) }
    ensures fit { OnOk result (AllFit (bundle design.now (shared_of net.now) certificates.now)) }
    ensures refused { IfErr result
        (NotHeld (bundle design.now (shared_of net.now) certificates.now)) }
{
    written_reads_back();
    match write_bundle(
        alloc,
        folder,
        GENERATED,
        net,
        design,
        bytes_in(certificates),
    ) {
        Ok(()) => Ok(()),
        Err(fault) => Err(Refusal::from(fault)),
    }
}

/// The network of the bundle in memory.
fn read_from(alloc: Global, folder: &mut HonestFolder) -> Result<Net, Refusal>
    ensures reads { IfOk result (λ net. ReadsAs folder.old generated_name (net_in net)) }
    ensures refused { IfErr result (λ r. (r ≡ Refusal.NoMemory) ⊎ ((fault : ReadFault)
        × IsOfFiles fault × IsFirstFault folder.old generated_name fault)) }
{
    match read_bundle(alloc, folder, GENERATED) {
        Ok(net) => Ok(net),
        Err(fault) => Err(unread(fault)),
    }
}

/// The network, read back from a bundle in memory.
fn read_back(
    alloc: Global,
    design: &[u8],
    net: &SharedNet,
    certificates: &Option<List<u8>>,
) -> Result<Net, Refusal>
    requires { IsTrue (net_fits (shared_of net.now)) }
    ensures same { IfOk result (λ read. net_in read ≡ shared_of net.now) }
    ensures fit { IfOk result (λ read.
        AllFit (bundle design.now (shared_of net.now) certificates.now)) }
    ensures refused { IfErr result
        (NotHeld (bundle design.now (shared_of net.now) certificates.now)) }
{
    one_reading();
    let mut folder = HonestFolder::new(alloc);
    write_in(alloc, &mut folder, design, net, certificates)?;
    read_from(alloc, &mut folder)
}

/// How many of the packets the network delivers.
fn count_packets(alloc: Global, asked: &Gen, net: &Net) -> Result<u32, Refusal>
    requires { CanGenerate asked.now.hosts asked.now.packets }
    ensures counts { IfOk result (Counts (net_in net.now) asked.now.hosts asked.now.packets) }
    ensures few { IfOk result (λ delivered. delivered ≤ asked.now.packets) }
    ensures refused { IfErr result
        (NotCounted (net_in net.now) asked.now.hosts asked.now.packets) }
{
    match count_delivered(alloc, net, asked.hosts, asked.packets) {
        Ok(delivered) => Ok(delivered),
        Err(PacketsFault::Copies(count)) => Err(Refusal::OverLimit(LimitName::Copies, count)),
        Err(PacketsFault::NoMemory) => Err(Refusal::NoMemory),
    }
}

/// The line of a network that was generated.
fn generated_line(alloc: Global, asked: &Gen, delivered: u32) -> Result<String, NoMemory>
    requires { delivered ≤ asked.now.packets }
    ensures { IfOk result (λ line. string_bytes line
        ≡ generated_line asked.now.hosts asked.now.packets delivered) }
{
    let Gen { hosts, packets } = *asked;
    let dropped = packets - delivered;
    Ok(format!(in alloc;
        "gen hosts {hosts} packets {packets} delivered {delivered} dropped {dropped}\n"
    )?)
}

/// What is told of the packets that are sent through a network.
fn tell_packets(alloc: Global, asked: &Gen, net: &Net) -> Result<Vec<u8>, Refusal>
    requires { CanGenerate asked.now.hosts asked.now.packets }
    ensures tells { IfOk result (λ lines.
        TellsCount (net_in net.now) asked.now.hosts asked.now.packets lines.items) }
    ensures refused { IfErr result
        (NotCounted (net_in net.now) asked.now.hosts asked.now.packets) }
{
    let delivered = count_packets(alloc, asked, net)?;
    let line = generated_line(alloc, asked, delivered)?;
    Ok(line.into_bytes())
}

/// What is told of the packets that are sent through a network whose bundle was written in memory and
/// read back.
fn tell_written(
    alloc: Global,
    asked: &Gen,
    design: &[u8],
    net: &SharedNet,
    certificates: &Option<List<u8>>,
) -> Result<Vec<u8>, Refusal>
    requires asked { CanGenerate asked.now.hosts asked.now.packets }
    requires fits { IsTrue (net_fits (shared_of net.now)) }
    ensures tells { IfOk result (λ lines.
        TellsCount (shared_of net.now) asked.now.hosts asked.now.packets lines.items) }
    ensures fit { IfOk result (λ lines.
        AllFit (bundle design.now (shared_of net.now) certificates.now)) }
    ensures refused { IfErr result
        (NotTold (bundle design.now (shared_of net.now) certificates.now)
        (shared_of net.now) asked.now.hosts asked.now.packets) }
{
    let read = read_back(alloc, design, net, certificates)?;
    tell_packets(alloc, asked, &read)
}

/// The same of a network that nobody asks for afterwards.
fn tell_made(
    alloc: Global,
    asked: &Gen,
    design: &[u8],
    net: SharedNet,
    certificates: Option<List<u8>>,
) -> Result<Vec<u8>, Refusal>
    requires asked { CanGenerate asked.now.hosts asked.now.packets }
    requires fits { IsTrue (net_fits (shared_of net)) }
    ensures tells { IfOk result (λ lines.
        TellsCount (shared_of net) asked.now.hosts asked.now.packets lines.items) }
    ensures fit { IfOk result (λ lines. AllFit (bundle design.now (shared_of net) certificates)) }
    ensures refused { IfErr result (NotTold (bundle design.now (shared_of net) certificates)
        (shared_of net) asked.now.hosts asked.now.packets) }
{
    tell_written(alloc, asked, design, &net, &certificates)
}

/// Generates a network, compiles it, and tells how many of its packets it delivers. What `compile` answers of it
/// that is no success is answered as it is.
pub fn generate<'w>(alloc: Global, asked: &Gen) -> Result<Answer<'w>, Refusal>
    requires { CanGenerate asked.now.hosts asked.now.packets }
    ensures asked { (inputs : Inputs)
        → Asked (spec.gen asked.now.hosts asked.now.packets) inputs result }
    ensures plans { IfOk result (λ a. PlansBy (λ w. w ≡ Nothing) a.report.verdict a.writing) }
    ensures quiet { IfErr result IsQuiet }
{
    as_many_are_reached();
    let design = design_text(alloc)?;
    let defs = definitions_text(alloc, asked.hosts)?;
    let usual = Compile {
        design: GENERATED,
        defs: GENERATED,
        out: GENERATED,
        conflicts: USUAL_CONFLICTS,
        rounds: USUAL_ROUNDS,
    };
    let compiled = compile(alloc, &usual, &design, &defs)?;
    let Answer { report, writing } = compiled;
    match writing {
        Writing::Nothing => Ok(Answer {
            report,
            writing: Writing::Nothing,
        }),
        Writing::Own(file, bytes) => Ok(Answer {
            report,
            writing: Writing::Own(file, bytes),
        }),
        Writing::Bundle(_, net, certificates) => {
            let lines = tell_made(alloc, asked, &design, net, certificates)?;
            Ok(Answer {
                report: Report::success(lines),
                writing: Writing::Nothing,
            })
        }
    }
}
