//! `check`: whether each block of a design keeps what it owes, for all definitions.
ghost use Rattle.std.specs.Prelude.{◌≡◌, ◌≤◌, ◌<◌, ◌^◌, IfErr, IfOk, Some, length, string_bytes};
ghost use Rattle.command_line.specs.Command as spec;
ghost use Rattle.command_line.specs.Subcommands.{most_conflicts};
ghost use Rattle.command_answers.specs.Answering.{PlansBy, Asked};
ghost use Rattle.command_answers.specs.ReportLines.{checked_line};
ghost use Rattle.command_answers.specs.FolderCalls.{IsQuiet};
ghost use Rattle.command_answers.specs.Steps.{Inputs};
ghost use Rattle.command_answers.specs.declared.answer.Writing.TheVariants.{Nothing};
ghost use Rattle.command_reports.specs.declared.files.CommandFile.TheVariants.{Design};

use crate::answer::{Answer, Writing};
use crate::obligations::{Refined, decide_all};
use cocoon_num::NoMemory;
use command_line::Check;
use command_reports::{Refusal, Report, read_checked};
use std::alloc::Global;

/// The line of a design with so many levels whose obligations hold.
fn checked_line(alloc: Global, levels: u32, obligations: u64) -> Result<String, NoMemory>
    ensures { IfOk result (λ line. string_bytes line ≡ checked_line levels obligations) }
{
    Ok(format!(in alloc; "ok levels {levels} obligations {obligations}\n")?)
}

/// Decides what the blocks of a design owe. The design is judged first, then its trees are counted,
/// and then the obligations are decided, in order.
pub fn check<'w>(alloc: Global, asked: &Check<'w>, design: &[u8]) -> Result<Answer<'w>, Refusal>
    requires small { length design.now < 2 ^ 31 }
    requires some { 1 ≤ asked.now.conflicts }
    requires few { asked.now.conflicts ≤ most_conflicts }
    ensures asked { (inputs : Inputs) → inputs.file Design ≡ Some design.now
        → Asked (spec.check asked.now.design.now asked.now.conflicts asked.now.rounds)
        inputs result }
    ensures plans { IfOk result (λ a.
        PlansBy (λ w. w ≡ Nothing) a.report.verdict a.writing) }
    ensures quiet { IfErr result IsQuiet }
{
    let checked = read_checked(alloc, design)?;
    let decided = decide_all(alloc, &checked, asked.conflicts, asked.rounds)?;
    match decided {
        Refined::Ended(answer) => Ok(answer),
        Refined::Holds(certs) => {
            let obligations = certs.certs.items().len() as u64;
            let line = checked_line(alloc, checked.levels(), obligations)?;
            Ok(Answer {
                report: Report::success(line.into_bytes()),
                writing: Writing::Nothing,
            })
        }
    }
}
