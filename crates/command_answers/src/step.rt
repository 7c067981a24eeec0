//! `step`: the body of a role is run on a packet, at a level of a design under its definitions.
ghost use Rattle.std.specs.Prelude.{◌≡◌, ◌≤◌, ◌<◌, ◌^◌, IfErr, IfOk, Some, length};
ghost use Rattle.step_cases.specs.Agrees.{CanRun, IsCaseOf};
ghost use Rattle.cocoon_syntax.specs.TreeOf.{design_of};
ghost use Rattle.cocoon_types.specs.Design.{last_level};
ghost use Rattle.command_line.specs.Command as spec;
ghost use Rattle.command_answers.specs.ReportLines.{sent_line, sent_text};
ghost use Rattle.command_answers.specs.Answering.{PlansBy, Asked};
ghost use Rattle.command_answers.specs.FolderCalls.{IsQuiet};
ghost use Rattle.command_answers.specs.Stepping.{NotCase, NotStepped, StepsTexts};
ghost use Rattle.command_answers.specs.Steps.{Inputs};
ghost use Rattle.command_answers.specs.declared.answer.Writing.TheVariants.{Nothing};
ghost use Rattle.command_reports.specs.declared.files.CommandFile.TheVariants.{Case as CaseFile, Definitions, Design};

use crate::answer::{Answer, Writing};
use cocoon_num::NoMemory;
use cocoon_resolve::Checked;
use command_line::Step;
use command_reports::{Bound, CommandFile, Refusal, Report, bound_texts, push_list};
use std::alloc::Global;
use step_cases::{Case, CaseFault, Sent, read_case, run_case};

/// The case of a text, at a level that the design has.
fn case_at(alloc: Global, checked: &Checked, level: u32, text: &[u8]) -> Result<Case, Refusal>
    ensures there { IfOk result (λ case. level ≤ last_level (design_of checked.now)) }
    ensures runs { IfOk result (CanRun level (design_of checked.now)) }
    ensures read { IfOk result (IsCaseOf level (design_of checked.now) text.now) }
    ensures refused { IfErr result (NotCase level (design_of checked.now) text.now) }
{
    let last = checked.levels() - 1;
    if level > last {
        return Err(Refusal::NoLevel(u64::from(level), u64::from(last)));
    }
    match read_case(alloc, checked, level, text) {
        Ok(case) => Ok(case),
        Err(CaseFault::Form(line)) => Err(Refusal::Line(CommandFile::Case, line)),
        Err(CaseFault::NoMemory) => Err(Refusal::NoMemory),
    }
}

/// What the role of the case does, by these texts of a design, its definitions and the case. The design is judged first, and
/// the case last.
fn step_texts(
    alloc: Global,
    level: u32,
    design: &[u8],
    defs: &[u8],
    text: &[u8],
) -> Result<Option<Sent>, Refusal>
    requires small { length design.now < 2 ^ 31 }
    requires small_too { length defs.now < 2 ^ 31 }
    ensures steps { IfOk result (StepsTexts level design.now defs.now text.now) }
    ensures refused { IfErr result (NotStepped level design.now defs.now text.now) }
{
    let bound = bound_texts(alloc, design, defs)?;
    let case = case_at(alloc, &bound.checked, level, text)?;
    Ok(run_case(alloc, &bound.checked, &bound.defs, level, case)?)
}

/// The line of what a body sends, and where.
fn sent_line(alloc: Global, sent: &Sent) -> Result<Vec<u8>, NoMemory>
    ensures { IfOk result (λ line. line.items ≡ sent_line sent.now) }
{
    let mut line = sent.role.bytes().to_vec(alloc)?;
    push_list(alloc, &mut line, sent.values.items())?;
    line.extend_from_slice(b" :")?;
    push_list(alloc, &mut line, sent.fields.items())?;
    line.push(b'\n')?;
    Ok(line)
}

/// The line of what a body does with a packet: it sends it, or nothing is sent.
fn sent_text(alloc: Global, sent: &Option<Sent>) -> Result<Vec<u8>, NoMemory>
    ensures { IfOk result (λ line. line.items ≡ sent_text sent.now) }
{
    match sent {
        Some(sent) => sent_line(alloc, sent),
        None => Ok(b"nothing\n".to_vec(alloc)?),
    }
}

/// Runs the body of the role that the case names, at the level, and reports where it sends its packet. It decides no
/// assumption.
pub fn step<'w>(
    alloc: Global,
    asked: &Step<'w>,
    design: &[u8],
    defs: &[u8],
    text: &[u8],
) -> Result<Answer<'w>, Refusal>
    requires small { length design.now < 2 ^ 31 }
    requires small_too { length defs.now < 2 ^ 31 }
    ensures asked { (inputs : Inputs) → inputs.file Design ≡ Some design.now
        → inputs.file Definitions ≡ Some defs.now → inputs.file CaseFile ≡ Some text.now → Asked
        (spec.step asked.now.design.now asked.now.defs.now asked.now.level asked.now.file.now)
        inputs result }
    ensures plans { IfOk result (λ a.
        PlansBy (λ w. w ≡ Nothing) a.report.verdict a.writing) }
    ensures quiet { IfErr result IsQuiet }
{
    let sent = step_texts(alloc, asked.level, design, defs, text)?;
    let lines = sent_text(alloc, &sent)?;
    Ok(Answer {
        report: Report::success(lines),
        writing: Writing::Nothing,
    })
}
