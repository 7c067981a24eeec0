//! `compile`: a network is made of a design whose blocks keep what they owe, and definitions that meet
//! its assumptions, and its bundle is written, with the certificates of what the blocks keep.
ghost use Rattle.std.specs.Prelude.{◌≡◌, ◌≤◌, ◌<◌, ◌^◌, ℕ, IfErr, IfOk, List, Some, length, string_bytes};
ghost use Rattle.cocoon_num.specs.Tree.{DefsText};
ghost use Rattle.cocoon_syntax.specs.TreeOf.{design_of};
ghost use Rattle.cocoon_types.specs.Design.{last_level};
ghost use Rattle.command_line.specs.Command as spec;
ghost use Rattle.command_line.specs.Subcommands.{most_conflicts};
ghost use Rattle.discharge.specs.Meeting.{OfTables};
ghost use Rattle.lower_p4.specs.Lowering.{AreOfText};
ghost use Rattle.lower_p4.specs.Lowers.{Lowers};
ghost use Rattle.obligation_gen.specs.Counted.{AreFew, all_counts};
ghost use Rattle.refinement.specs.Assumptions.{Meets};
ghost use Rattle.refinement.specs.Owed.{Refines};
ghost use Rattle.runtime_defs.specs.Fitting.{FitsDesign};
ghost use Rattle.shared_net.specs.Shared.{shared_of};
ghost use Rattle.command_answers.specs.Answering.{PlansBy, Asked};
ghost use Rattle.command_answers.specs.Compiling.{Compiles, LowersDesign, NotLowered};
ghost use Rattle.command_reports.specs.DesignTexts.{BindsTables};
ghost use Rattle.command_answers.specs.ReportLines.{totals_line, totals_of};
ghost use Rattle.command_answers.specs.FolderCalls.{IsQuiet};
ghost use Rattle.command_answers.specs.Steps.{Inputs};
ghost use Rattle.command_reports.specs.Report.{success};
ghost use Rattle.command_reports.specs.declared.files.CommandFile.TheVariants.{Definitions, Design};

use crate::answer::{Answer, Writing};
use crate::assumptions::unmet;
use crate::laws::deliveries_stay_within;
use crate::obligations::{Refined, decide_all};
use cert_text::to_json;
use cocoon_num::{List, NoMemory};
use command_line::Compile;
use command_reports::{Bound, Refusal, Report, bound_texts};
use lower_p4::{LowerFault, lower};
use net_bundle::laws::rows_are_long;
use net_bundle::{BundleFault, BundleFile};
use shared_net::SharedNet;
use sound_types::laws::code_literals_fit;
use std::alloc::Global;

/// The network of a design whose blocks keep what they owe, and definitions that meet its assumptions.
pub fn lower_bound(alloc: Global, bound: &Bound) -> Result<SharedNet, Refusal>
    requires fit { FitsDesign (design_of bound.now.checked) bound.now.defs }
    requires few { AreFew (all_counts (design_of bound.now.checked)) }
    requires refines { Refines (design_of bound.now.checked) }
    requires met { OfTables (design_of bound.now.checked) bound.now.defs
        (Meets (last_level (design_of bound.now.checked)) (design_of bound.now.checked)) }
    ensures lowers { IfOk result (λ net. (design defs : List ℕ)
        → BindsTables design defs (design_of bound.now.checked) bound.now.defs
        → LowersDesign design defs (design_of bound.now.checked) (shared_of net)) }
    ensures network { IfOk result (λ net. (text : DefsText)
        → AreOfText (design_of bound.now.checked) text bound.now.defs
        → Lowers (design_of bound.now.checked) text (shared_of net)) }
    ensures refused { IfErr result (λ refusal. (design defs : List ℕ)
        → BindsTables design defs (design_of bound.now.checked) bound.now.defs
        → NotLowered design defs (design_of bound.now.checked) bound.now.defs refusal) }
{
    code_literals_fit();
    deliveries_stay_within();
    rows_are_long();
    match lower(alloc, &bound.checked, &bound.defs) {
        Ok(net) => Ok(net),
        Err(LowerFault::Limit(limit, count)) => Err(Refusal::OverLimit(limit, count)),
        Err(LowerFault::LongProgram(switch)) => {
            let file = BundleFile::Program(switch);
            Err(Refusal::from(BundleFault::Limit(file)))
        }
        Err(LowerFault::ManyRows(switch)) => {
            let file = BundleFile::Rows(switch);
            Err(Refusal::from(BundleFault::Limit(file)))
        }
        Err(LowerFault::NoMemory) => Err(Refusal::NoMemory),
    }
}

/// How many of each thing a network has. Hosts at no port count, too.
#[derive(Clone, Copy, Debug, Drop)]
pub struct Totals {
    pub switches: u64,
    pub hosts: u64,
    pub links: u64,
    /// How many obligations of its design hold.
    pub obligations: u64,
}

/// How many of each thing a network has whose design has so many obligations.
pub fn count_parts(net: &SharedNet, obligations: u64) -> Totals
    ensures { result ≡ totals_of obligations (shared_of net.now) }
{
    Totals {
        switches: net.switches.numbers.items().len() as u64,
        hosts: net.hosts.items().len() as u64,
        links: net.links.items().len() as u64,
        obligations,
    }
}

/// The line of a network, behind what was done with it.
pub fn totals_line(alloc: Global, done: &str, totals: Totals) -> Result<String, NoMemory>
    ensures { IfOk result (λ line. string_bytes line ≡ totals_line done.now totals) }
{
    let Totals {
        switches,
        hosts,
        links,
        obligations,
    } = totals;
    Ok(format!(in alloc;
        "{done} switches {switches} hosts {hosts} links {links} obligations {obligations}\n"
    )?)
}

/// The answer of a network that was made, with its line; what is written is its bundle.
pub(crate) fn made<'w>(
    alloc: Global,
    done: &str,
    out: &'w str,
    net: SharedNet,
    obligations: u64,
    certificates: Option<List<u8>>,
) -> Result<Answer<'w>, NoMemory>
    ensures report { IfOk result (λ answer. answer.report
        ≡ success (totals_line done.now (totals_of obligations (shared_of net)))) }
    ensures writing { IfOk result (λ answer. answer.writing
        ≡ Writing.Bundle out.entry net certificates) }
{
    let line = totals_line(alloc, done, count_parts(&net, obligations))?;
    Ok(Answer {
        report: Report::success(line.into_bytes()),
        writing: Writing::Bundle(out, net, certificates),
    })
}

/// Compiles the texts of a design and its definitions into the bundle of the command. The design is
/// judged first, then the definitions and whether they meet the assumptions, then what the blocks of
/// the design owe, and then the limits of the network.
pub fn compile<'w>(
    alloc: Global,
    asked: &Compile<'w>,
    design: &[u8],
    defs: &[u8],
) -> Result<Answer<'w>, Refusal>
    requires small { length design.now < 2 ^ 31 }
    requires small_too { length defs.now < 2 ^ 31 }
    requires some { 1 ≤ asked.now.conflicts }
    requires few { asked.now.conflicts ≤ most_conflicts }
    ensures asked { (inputs : Inputs) → inputs.file Design ≡ Some design.now
        → inputs.file Definitions ≡ Some defs.now → Asked
        (spec.compile asked.now.design.now asked.now.defs.now asked.now.out.now
        asked.now.conflicts asked.now.rounds) inputs result }
    ensures plans { IfOk result (λ a. PlansBy
        (λ w. Compiles asked.now.out.now design.now defs.now w) a.report.verdict a.writing) }
    ensures quiet { IfErr result IsQuiet }
{
    code_literals_fit();
    let bound = bound_texts(alloc, design, defs)?;
    if let Some(answer) = unmet(alloc, &bound, asked.conflicts)? {
        return Ok(answer);
    }
    let decided = decide_all(alloc, &bound.checked, asked.conflicts, asked.rounds)?;
    match decided {
        Refined::Ended(answer) => Ok(answer),
        Refined::Holds(certs) => {
            let text = to_json(alloc, &certs)?;
            let certificates = List::from(text);
            let obligations = certs.certs.items().len() as u64;
            let net = lower_bound(alloc, &bound)?;
            Ok(made(
                alloc,
                "compiled",
                asked.out,
                net,
                obligations,
                Some(certificates),
            )?)
        }
    }
}
