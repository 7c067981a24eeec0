//! `update`: the bundle of a network is written anew for new definitions, with the same wires. What its
//! certificates show of the design is checked, and nothing is searched but whether the definitions meet
//! the assumptions.
ghost use Rattle.std.specs.Prelude.{◌≡◌, ◌≤◌, ◌<◌, ◌^◌, IfErr, IfOk, OnOk, List, Some, length, ℕ};
ghost use Rattle.cocoon_num.specs.Tree.{DefsText};
ghost use Rattle.cocoon_syntax.specs.TreeOf.{design_of};
ghost use Rattle.cocoon_types.specs.Design.{last_level};
ghost use Rattle.command_line.specs.Command as spec;
ghost use Rattle.command_line.specs.Subcommands.{most_conflicts};
ghost use Rattle.command_reports.specs.Report.{fault_of};
ghost use Rattle.command_reports.specs.declared.files.CommandFile.TheVariants.{Definitions, Design};
ghost use Rattle.command_reports.specs.declared.report.Verdict.TheVariants.{Done};
ghost use Rattle.command_reports.specs.DesignTexts.{BindsTables};
ghost use Rattle.discharge.specs.Meeting.{OfTables};
ghost use Rattle.lower_p4.specs.Lowering.{AreOfText};
ghost use Rattle.lower_p4.specs.Lowers.{Lowers};
ghost use Rattle.net_wiring.specs.Differences.{SameWires};
ghost use Rattle.obligation_gen.specs.Counted.{AreFew, all_counts};
ghost use Rattle.p4_ir.specs.NetOf.{net_of};
ghost use Rattle.p4_ir.specs.NetTree as tree;
ghost use Rattle.refinement.specs.Assumptions.{Meets};
ghost use Rattle.refinement.specs.Owed.{Refines};
ghost use Rattle.runtime_defs.specs.Fitting.{FitsDesign};
ghost use Rattle.shared_net.specs.Shared.{shared_of};
ghost use Rattle.command_answers.specs.Answering.{PlansBy, Asked};
ghost use Rattle.command_answers.specs.Compiling.{LowersDesign, NotLowered};
ghost use Rattle.command_answers.specs.FolderCalls.{count, CalledUnder, IsReading};
ghost use Rattle.command_answers.specs.Steps.{Inputs};
ghost use Rattle.command_answers.specs.Updating.{HasOtherWires, NotRewired, StandsUnder, Updates};

use crate::answer::{Answer, Writing};
use crate::assumptions::unmet;
use crate::compile::{lower_bound, made};
use crate::standing::read_standing;
use cocoon_io::Folder;
use command_line::Update;
use command_reports::{Bound, BundleCause, Refusal, Report, bound_texts};
use lower_p4::wires;
use net_bundle::BundleFile;
use net_bundle::form_laws::net_form_is_exact;
use net_wiring::wiring_only;
use p4_ir::NetData;
use shared_net::SharedNet;
use sound_types::laws::code_literals_fit;
use std::alloc::Global;

/// Compares wires; where they differ, the first difference is told.
fn compare(old: &NetData, new: &NetData) -> Result<(), Refusal>
    ensures same { OnOk result (SameWires (net_of old.now) (net_of new.now)) }
    ensures differ { IfErr result (HasOtherWires (net_of old.now) (net_of new.now)) }
{
    match wiring_only(old, new) {
        Some(difference) => {
            let cause = BundleCause::Wiring(difference);
            Err(Refusal::Unread(BundleFile::Network, cause))
        }
        None => Ok(()),
    }
}

/// Compares wires with those of a design and definitions, of which no network is made.
fn compare_bound(alloc: Global, bound: &Bound, old: &NetData) -> Result<(), Refusal>
    requires { FitsDesign (design_of bound.now.checked) bound.now.defs }
    ensures same { OnOk result ((text : DefsText) (net : tree.NetData)
        → AreOfText (design_of bound.now.checked) text bound.now.defs
        → Lowers (design_of bound.now.checked) text net → SameWires (net_of old.now) net) }
    ensures differ { IfErr result (λ r. (text : DefsText) (net : tree.NetData)
        → AreOfText (design_of bound.now.checked) text bound.now.defs
        → Lowers (design_of bound.now.checked) text net → HasOtherWires (net_of old.now) net r) }
{
    let new = wires(alloc, &bound.checked, &bound.defs)?;
    compare(old, &new)
}

/// What is told where no network is made: other wires come before a file that would be too long.
fn other_wires(alloc: Global, bound: &Bound, old: &NetData, refusal: Refusal) -> Refusal
    requires fit { FitsDesign (design_of bound.now.checked) bound.now.defs }
    requires refused { (design defs : List ℕ)
        → BindsTables design defs (design_of bound.now.checked) bound.now.defs
        → NotLowered design defs (design_of bound.now.checked) bound.now.defs refusal }
    ensures { (design defs : List ℕ)
        → BindsTables design defs (design_of bound.now.checked) bound.now.defs
        → NotRewired (net_of old.now) design defs (design_of bound.now.checked) bound.now.defs
        result }
{
    match refusal {
        Refusal::TooLong(file, most) => match compare_bound(alloc, bound, old) {
            Ok(()) => Refusal::TooLong(file, most),
            Err(other) => other,
        },
        other => other,
    }
}

/// The network of a design and definitions, if it has these wires.
fn rewire(alloc: Global, bound: &Bound, old: &NetData) -> Result<SharedNet, Refusal>
    requires fit { FitsDesign (design_of bound.now.checked) bound.now.defs }
    requires few { AreFew (all_counts (design_of bound.now.checked)) }
    requires refines { Refines (design_of bound.now.checked) }
    requires met { OfTables (design_of bound.now.checked) bound.now.defs
        (Meets (last_level (design_of bound.now.checked)) (design_of bound.now.checked)) }
    ensures lowers { IfOk result (λ net. (design defs : List ℕ)
        → BindsTables design defs (design_of bound.now.checked) bound.now.defs
        → LowersDesign design defs (design_of bound.now.checked) (shared_of net)) }
    ensures same { IfOk result (λ net. (text : DefsText)
        → AreOfText (design_of bound.now.checked) text bound.now.defs
        → SameWires (net_of old.now) (shared_of net)) }
    ensures refused { IfErr result (λ refusal. (design defs : List ℕ)
        → BindsTables design defs (design_of bound.now.checked) bound.now.defs
        → NotRewired (net_of old.now) design defs (design_of bound.now.checked) bound.now.defs
        refusal) }
{
    match lower_bound(alloc, bound) {
        Ok(net) => {
            compare_bound(alloc, bound, old)?;
            Ok(net)
        }
        Err(refusal) => Err(other_wires(alloc, bound, old, refusal)),
    }
}

/// Writes the bundle of the command anew, for the texts of a design and its definitions. The texts are judged
/// first, then whether the definitions meet the assumptions. The bundle that stands is read then, its
/// certificates before its wires, and the network is made last.
pub fn update<'w, F: Folder>(
    alloc: Global,
    folder: &mut F,
    asked: &Update<'w>,
    design: &[u8],
    defs: &[u8],
) -> Result<Answer<'w>, Refusal>
    requires small { length design.now < 2 ^ 31 }
    requires small_too { length defs.now < 2 ^ 31 }
    requires some { 1 ≤ asked.now.conflicts }
    requires few { asked.now.conflicts ≤ most_conflicts }
    ensures asked { (inputs : Inputs) → inputs.file Design ≡ Some design.now
        → inputs.file Definitions ≡ Some defs.now → inputs.content ≡ F.content folder.old → Asked
        (spec.update asked.now.design.now asked.now.defs.now asked.now.out.now asked.now.conflicts)
        inputs result }
    ensures plans { IfOk result (λ a. PlansBy
        (λ w. Updates asked.now.out.now design.now defs.now w) a.report.verdict a.writing) }
    ensures stands { IfOk result (λ a. a.report.verdict ≡ Done
        → StandsUnder (F.content folder.old) asked.now.out.now design.now a.writing) }
    ensures same { F.content folder.new ≡ F.content folder.old }
    ensures called { CalledUnder (F.last_failure folder.new) asked.now.out.now
        (count F.last_read_fault (F.read_faults folder.old) (F.read_faults folder.new))
        (count F.last_write_fault (F.write_faults folder.old) (F.write_faults folder.new))
        result }
    ensures reading { IfErr result (λ r. IsReading (fault_of r)) }
{
    code_literals_fit();
    net_form_is_exact();
    let bound = bound_texts(alloc, design, defs)?;
    if let Some(answer) = unmet(alloc, &bound, asked.conflicts)? {
        return Ok(answer);
    }
    let standing = read_standing(alloc, folder, asked.out, &bound.checked)?;
    let net = rewire(alloc, &bound, &standing.wires)?;
    let obligations = standing.obligations;
    Ok(made(alloc, "updated", asked.out, net, obligations, None)?)
}
