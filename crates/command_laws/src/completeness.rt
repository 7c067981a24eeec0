//! That such calls come to an end which is no refusal, and that searches with enough conflicts and
//! rounds decide.
ghost use Rattle.std.specs.Prelude.{◌≡◌, ◌⊎◌, ℕ, List, Some, false};
ghost use Rattle.bv_terms.specs.declared.node.Node.{Node};
ghost use Rattle.cocoon_num.specs.Tree.{Design};
ghost use Rattle.command_line.specs.Command as spec;
ghost use Rattle.command_line.specs.Words.{command};
ghost use Rattle.command_reports.specs.declared.status.Status.TheVariants.{Budget, Done, NoMemory};
ghost use Rattle.command_answers.specs.Outcomes.{is_any_searched, steps};
ghost use Rattle.cocoon_cli.specs.Run.{Call, CauseOf};
ghost use Rattle.obligation_gen.specs.Owed.{IsOwed};
ghost use Rattle.obligation_gen.specs.declared.obligation.Obligation.{Obligation};
ghost use Rattle.verdicts.specs.Deciding.{Decides, formula_in};
ghost use Rattle.verdicts.specs.declared.deciding.Verdict.{Verdict};
ghost use Rattle.command_laws.specs.Endings.{EndsWell, GivenUpBy, IsDecided, SpendsConflicts, SpendsOnAssumption, SpendsRounds};
ghost use Rattle.command_laws.specs.Enough.{AreEnoughConflicts, AreEnoughOn, AreEnoughRounds, AreMany};
ghost use Rattle.command_laws.specs.Sound.{Sound};

use bundle_reader::laws::{one_reading, one_wiring};
use cocoon_cli::laws::calls_keep_more;
use cocoon_text::laws::{one_fault, trees_have_no_fault};
use cocoon_types::first_faults::{first_or_well_formed, one_first_fault};
use cocoon_types::limits::{one_first_over, within_is_not_over};
use lower_p4::laws::one_lowering;
use net_wiring::laws::one_first_difference;
use packet_runs::laws::one_report;
use parsing::text_laws::{one_definitions_tree, one_tree};
use proof_check::laws::licensed_logs_are_short;
use query_laws::instance_laws::earlier_levels_come_first;
use query_laws::search_laws::progress_is_short;
use step_cases::laws::one_step;
use verdicts::laws::failing_obligations_fail;

/// A call succeeds whose command has nothing to refuse and in which nothing fails, or a search of it is
/// given up, a query or its certificates are too large, or memory is out.
pub fn searches_end()
    ensures { (c : spec.Command) (call : Call) → command call.words ≡ Some c
        → CauseOf (command call.words) call → Sound c call → EndsWell c call }
{
    one_tree();
    one_definitions_tree();
    one_fault();
    trees_have_no_fault();
    one_first_fault();
    first_or_well_formed();
    one_first_over();
    within_is_not_over();
    one_lowering();
    one_step();
    one_reading();
    one_wiring();
    one_first_difference();
    one_report();
    failing_obligations_fail();
    calls_keep_more();
}

/// A command that decides nothing by a search succeeds then, or memory is out.
pub fn plain_commands_succeed()
    ensures { (c : spec.Command) (call : Call) → command call.words ≡ Some c
        → CauseOf (command call.words) call → Sound c call → is_any_searched (steps c) ≡ false
        → (call.status ≡ Done) ⊎ (call.status ≡ NoMemory) }
{
    searches_end();
}

/// An `update` gives up a search for an assumption alone, since it decides no obligation.
pub fn updates_decide_assumptions_alone()
    ensures { (design defs out : List ℕ) (conflicts : ℕ) (call : Call)
        → command call.words ≡ Some (spec.update design defs out conflicts)
        → CauseOf (command call.words) call → call.status ≡ Budget
        → GivenUpBy SpendsOnAssumption (spec.update design defs out conflicts) call }
{
    calls_keep_more();
}

/// With enough conflicts a search is given up for its rounds alone, with enough rounds for its conflicts
/// alone, and with enough of both none is.
pub fn budgets_suffice()
    ensures conflicts { (c : spec.Command) (call : Call) → command call.words ≡ Some c
        → CauseOf (command call.words) call → AreEnoughConflicts c call → call.status ≡ Budget
        → GivenUpBy SpendsRounds c call }
    ensures rounds { (c : spec.Command) (call : Call) → command call.words ≡ Some c
        → CauseOf (command call.words) call → AreEnoughRounds c call → call.status ≡ Budget
        → GivenUpBy SpendsConflicts c call }
    ensures both { (c : spec.Command) (call : Call) → command call.words ≡ Some c
        → CauseOf (command call.words) call → AreEnoughConflicts c call → AreEnoughRounds c call
        → call.status ≡ Budget → ⊥ }
{
    calls_keep_more();
    earlier_levels_come_first();
    licensed_logs_are_short();
    progress_is_short();
}

/// With enough conflicts and rounds a verdict says that an obligation holds exactly if its leaf never
/// fails, but where a query is too large.
pub fn searches_decide()
    ensures { (d : Design) (nodes : List Node) (o : Obligation) (conflicts rounds : ℕ)
        (verdict : Verdict) → IsOwed d nodes o → Decides d nodes o conflicts rounds verdict
        → AreEnoughOn d o.level (formula_in nodes o) conflicts rounds → AreMany d rounds
        → IsDecided d nodes o rounds verdict }
{
    earlier_levels_come_first();
    failing_obligations_fail();
    licensed_logs_are_short();
    progress_is_short();
}
