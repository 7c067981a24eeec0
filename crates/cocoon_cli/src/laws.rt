//! What follows from the promises of this crate. The functions do nothing; their contracts are the
//! laws.
ghost use Rattle.std.specs.Prelude.{List, Option, Result, ◌≡◌, ℕ};
ghost use Rattle.cocoon_io.specs.Files.{Files};
ghost use Rattle.command_line.specs.Command as spec;
ghost use Rattle.obligation_laws.specs.Obligations.{bounded, contained};
ghost use Rattle.command_answers.specs.Outcomes.{HasOutcome};
ghost use Rattle.command_answers.specs.Steps.{Inputs};
ghost use Rattle.cocoon_cli.specs.Checked.{RefinedOf};
ghost use Rattle.cocoon_cli.specs.Headline.{Compiled, IsCertificates, Updated};
ghost use Rattle.cocoon_cli.specs.Failed.{FailedOf};
ghost use Rattle.command_line.specs.Words.{command};
ghost use Rattle.cocoon_cli.specs.Generated.{GeneratedOf};
ghost use Rattle.cocoon_cli.specs.Run.{Call, CauseOf, IsOnly, KeepsMore};
ghost use Rattle.command_reports.specs.declared.report.Report.{Report};
ghost use Rattle.command_reports.specs.declared.status.Status.TheVariants.{Done, HopBound, Refuted};
ghost use Rattle.command_reports.specs.declared.refusal.Refusal.{Refusal};

use bundle_reader::laws::{one_reading, one_wiring};
use cocoon_text::laws::{one_fault, trees_have_no_fault};
use cocoon_types::first_faults::{first_or_well_formed, one_first_fault};
use cocoon_types::limits::{one_first_over, within_is_not_over};
use lower_p4::laws::one_lowering;
use net_wiring::laws::one_first_difference;
use packet_runs::laws::one_report;
use parsing::text_laws::{one_definitions_tree, one_tree};
use step_cases::laws::one_step;
use verdicts::laws::failing_obligations_fail;

/// By what is read of its files, a command has one outcome at most: the first step that refuses,
/// with its status and its line, or its report. Of a command that reads a bundle it is said where the
/// content of the folder is known. Of one with a step that is decided by a search two outcomes are
/// alike, or the search was given up in one of them.
pub fn one_outcome()
    ensures { (c : spec.Command) (inputs : Inputs) (outcome : Result Report Refusal)
        → HasOutcome c inputs outcome → IsOnly c inputs outcome }
{
    one_tree();
    one_definitions_tree();
    one_fault();
    trees_have_no_fault();
    one_first_fault();
    first_or_well_formed();
    one_first_over();
    within_is_not_over();
    one_lowering();
    one_step();
    one_reading();
    one_wiring();
    one_first_difference();
    one_report();
    failing_obligations_fail();
}

/// What follows from the cause of an answer: when the words are reported as no command, which statuses
/// speak of a fault that was counted, and which leave the folder as it was.
pub fn calls_keep_more()
    ensures { (call : Call) → CauseOf (command call.words) call → KeepsMore call }
{}

/// Where a command succeeds that decides obligations, or checks certificates of them, the design of its file
/// keeps the rules, and each of its blocks what it owes.
pub fn checked_designs_are_refined()
    ensures { (c : Option spec.Command) (call : Call) → CauseOf c call → call.status ≡ Done
        → RefinedOf c call.content_before }
{
    one_tree();
}

/// Where a command reports that a design does not keep what it owes, it prints a failure of the design of
/// its file.
pub fn reported_failures_are_real()
    ensures refuted { (c : Option spec.Command) (call : Call) → CauseOf c call
        → call.status ≡ Refuted → FailedOf c call.content_before contained
        call.output_before call.output_after }
    ensures hop_bound { (c : Option spec.Command) (call : Call) → CauseOf c call
        → call.status ≡ HopBound → FailedOf c call.content_before bounded
        call.output_before call.output_after }
{
    one_tree();
}

/// Where a command that generates a network succeeds, it tells how many of its packets the last level of
/// its design delivers, and leaves the folder as it was.
pub fn generated_packets_are_counted()
    ensures { (c : Option spec.Command) (call : Call) → CauseOf c call → call.status ≡ Done
        → GeneratedOf c call.content_before call.content_after
        call.output_before call.output_after }
{
    one_tree();
    one_definitions_tree();
}

/// What an `update` leaves, a `compile` of the same texts may leave. So what is said of bundles that were
/// compiled is said of those that were updated.
pub fn updates_are_compiles()
    ensures { (before after : Files) (design defs out : List ℕ)
        → Updated before after design defs out
        → Compiled before after design defs out (IsCertificates out) }
{}
