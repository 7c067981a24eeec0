//! One call of a command: its files are read, the command is asked for its answer over what was read, and
//! what it answers is written. A command has no folder, so it can read and write nothing else; `update`
//! alone has one, since it reads the bundle that stands after its texts are judged.
ghost use Rattle.std.specs.Prelude.{◌≡◌, IfErr, IfOk, Some};
ghost use Rattle.command_line.specs.Command.{stands_for};
ghost use Rattle.command_line.specs.Subcommands.{IsInRange};
ghost use Rattle.command_reports.specs.FileNames.{names_in};
ghost use Rattle.command_reports.specs.declared.report.Verdict.TheVariants.{Done};
ghost use Rattle.command_answers.specs.Commands.{files_of};
ghost use Rattle.command_answers.specs.FolderCalls.{count, Called, IsReading};
ghost use Rattle.command_answers.specs.Answering.{Asked};
ghost use Rattle.command_answers.specs.Steps.{Inputs};
ghost use Rattle.cocoon_cli.specs.Certified.{CertifiedOf};
ghost use Rattle.cocoon_cli.specs.Shell.{Plans, StandsFor, Acts, IsGiven, IsShort};
ghost use Rattle.command_reports.specs.Report.{fault_of};
ghost use Rattle.cocoon_cli.specs.Headline.{CompiledOf};

use crate::reading::{Read, read_all};
use crate::writing::write_all;
use cocoon_io::Folder;
use command_answers::answer::Answer;
use command_answers::check::check;
use command_answers::compile::compile;
use command_answers::forward::forward;
use command_answers::generate::{GENERATED, generate};
use command_answers::step::step;
use command_answers::update::update;
use command_line::Command;
use command_reports::{FileNames, Refusal, Report};
use std::alloc::Global;

/// The files that a command has. All are read first, but a bundle that it writes.
pub fn names_of<'w>(command: &Command<'w>) -> FileNames<'w>
    ensures { names_in result ≡ files_of (stands_for command.now) }
{
    let none = FileNames::none();
    match command {
        Command::Check(asked) => FileNames {
            design: Some(asked.design),
            ..none
        },
        Command::Compile(names) => FileNames {
            design: Some(names.design),
            definitions: Some(names.defs),
            bundle: Some(names.out),
            ..none
        },
        Command::Update(given) => FileNames {
            design: Some(given.design),
            definitions: Some(given.defs),
            bundle: Some(given.out),
            ..none
        },
        Command::Step(asked) => FileNames {
            design: Some(asked.design),
            definitions: Some(asked.defs),
            case: Some(asked.file),
            ..none
        },
        Command::Forward(asked) => FileNames {
            packets: Some(asked.packets),
            bundle: Some(asked.out),
            reads_bundle: true,
            ..none
        },
        Command::Gen(_) => FileNames {
            design: Some(GENERATED),
            definitions: Some(GENERATED),
            bundle: Some(GENERATED),
            makes_texts: true,
            ..none
        },
    }
}

/// What a command answers over what was read.
fn ask<'w, F: Folder>(
    alloc: Global,
    folder: &mut F,
    command: &Command<'w>,
    read: &Read,
) -> Result<Answer<'w>, Refusal>
    requires short { IsShort read.now }
    requires range { IsInRange (stands_for command.now) }
    ensures asked { (inputs : Inputs) → IsGiven (files_of (stands_for command.now)) inputs read.now
        → inputs.content ≡ F.content folder.old → Asked (stands_for command.now) inputs result }
    ensures plans { IfOk result (Plans (stands_for command.now) read.now) }
    ensures stands { IfOk result (λ answer. answer.report.verdict ≡ Done
        → StandsFor (stands_for command.now) (F.content folder.old) read.now answer.writing) }
    ensures same { F.content folder.new ≡ F.content folder.old }
    ensures called { Called (F.last_failure folder.new) (files_of (stands_for command.now))
        (count F.last_read_fault (F.read_faults folder.old) (F.read_faults folder.new))
        (count F.last_write_fault (F.write_faults folder.old) (F.write_faults folder.new))
        result }
    ensures reading { IfErr result (λ r. IsReading (fault_of r)) }
{
    match command {
        Command::Check(asked) => check(alloc, asked, &read.design),
        Command::Compile(asked) => compile(alloc, asked, &read.design, &read.definitions),
        Command::Update(asked) => update(alloc, folder, asked, &read.design, &read.definitions),
        Command::Step(asked) => { step(alloc, asked, &read.design, &read.definitions, &read.case) }
        Command::Forward(asked) => match &read.net {
            Some(net) => forward(alloc, asked, net, &read.packets),
            None => Err(Refusal::NoMemory),
        },
        Command::Gen(asked) => generate(alloc, asked),
    }
}

/// Performs a command.
pub fn perform<F: Folder>(
    alloc: Global,
    command: &Command<'_>,
    folder: &mut F,
) -> Result<Report, Refusal>
    requires { IsInRange (stands_for command.now) }
    ensures acts { Acts (F.last_failure folder.new) (stands_for command.now)
        (F.content folder.old) (F.content folder.new)
        (count F.last_read_fault (F.read_faults folder.old) (F.read_faults folder.new))
        (count F.last_write_fault (F.write_faults folder.old) (F.write_faults folder.new))
        result }
    ensures headline { IfOk result (λ report. report.verdict ≡ Done
        → CompiledOf (Some (stands_for command.now)) (F.content folder.old) (F.content folder.new)) }
    ensures certified { IfOk result (λ report. report.verdict ≡ Done
        → CertifiedOf (Some (stands_for command.now)) (F.content folder.old) (F.content folder.new)) }
{
    let names = names_of(command);
    let read = read_all(alloc, folder, &names)?;
    let answer = ask(alloc, folder, command, &read)?;
    write_all(alloc, folder, &names, &read, &answer.writing)?;
    Ok(answer.report)
}
