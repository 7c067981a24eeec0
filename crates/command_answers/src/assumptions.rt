//! The assumptions of a design, each decided by a search under the definitions.
ghost use Rattle.std.specs.Prelude.{◌≤◌, ◌<◌, ◌^◌, IfErr, IfOk};
ghost use Rattle.cocoon_syntax.specs.TreeOf.{design_of};
ghost use Rattle.runtime_defs.specs.Fitting.{FitsDesign};
ghost use Rattle.command_answers.specs.Deciding.{AnswersUnmet, NotMet, TellsAssumption};

use crate::answer::{Answer, budget_line};
use cert_text::given_file;
use cnf_core::Log;
use cocoon_num::{LimitName, NoMemory};
use command_reports::{Bound, Refusal};
use discharge::{Budget, Met, meets};
use std::alloc::Global;

/// The answer where conflicts were spent on the assumption of this number.
fn spent_answer<'w>(
    alloc: Global,
    bound: &Bound,
    conflicts: u32,
    number: u32,
    log: &Log,
) -> Result<Answer<'w>, NoMemory>
    requires { FitsDesign (design_of bound.now.checked) bound.now.defs }
    ensures { IfOk result (λ answer. TellsAssumption (design_of bound.now.checked) bound.now.defs
        conflicts number log.now answer) }
{
    let line = budget_line(alloc, conflicts, "assumption", number)?;
    let file = given_file(alloc, &bound.checked, number, &bound.defs, log)?;
    Ok(Answer::given_up(line, file))
}

/// What is answered of the assumptions of all levels: nothing if the definitions meet them all. They are
/// asked in the order of the text, each by a search of at most so many conflicts; the first that is not
/// shown to be met decides.
pub fn unmet<'w>(
    alloc: Global,
    bound: &Bound,
    conflicts: u32,
) -> Result<Option<Answer<'w>>, Refusal>
    requires fit { FitsDesign (design_of bound.now.checked) bound.now.defs }
    requires some { 1 ≤ conflicts }
    requires few { conflicts < 2 ^ 31 }
    ensures decided { IfOk result (λ answer.
        AnswersUnmet (design_of bound.now.checked) bound.now.defs conflicts answer) }
    ensures refused { IfErr result (λ refusal.
        NotMet (design_of bound.now.checked) bound.now.defs conflicts refusal) }
{
    let budget = Budget {
        conflicts: u64::from(conflicts),
        rounds: 0,
    };
    match meets(alloc, &bound.checked, &bound.defs, &budget)? {
        Met::Yes => Ok(None),
        Met::Broken(number, values) => Err(Refusal::Broken(number, values)),
        Met::SpentConflicts(number, _, log) => {
            Ok(Some(spent_answer(alloc, bound, conflicts, number, &log)?))
        }
        Met::Big(_, count) => Err(Refusal::OverLimit(LimitName::Clauses, count)),
    }
}
