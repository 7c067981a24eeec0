//! The files, one for each thing that a budget is spent on.
ghost use Rattle.std.specs.Prelude.{IfOk, map};
ghost use Rattle.cnf_core.specs.CertsOf.{instance_of, log_of};
ghost use Rattle.cocoon_syntax.specs.TreeOf.{design_of};
ghost use Rattle.runtime_defs.specs.EntryPlaces.{defs_text};
ghost use Rattle.runtime_defs.specs.Fitting.{FitsDesign};
ghost use Rattle.cert_text.specs.BudgetJson.{IsBudgetFile};
ghost use Rattle.cert_text.specs.Spent as spent;

use crate::members::{assumed, with_instances, with_log, with_obligation, written};
use cnf_core::{Instance, Log};
use cocoon_num::NoMemory;
use cocoon_resolve::Checked;
use runtime_defs::Defs;
use serde_json::Map;
use std::alloc::Global;

/// The file of conflicts that were spent on the assumption of this number, under the definitions that were given.
pub fn given_file(
    alloc: Global,
    checked: &Checked,
    number: u32,
    defs: &Defs,
    log: &Log,
) -> Result<Vec<u8>, NoMemory>
    requires { FitsDesign (design_of checked.now) defs.now }
    ensures { IfOk result (λ bytes. IsBudgetFile (spent.given number
        (defs_text (design_of checked.now) defs.now) (log_of log.now)) bytes.items) }
{
    let file = assumed(alloc, checked, number, defs);
    let file = with_log(alloc, file, log);
    written(alloc, file)
}

/// The file of conflicts that were spent on an obligation with these instances.
pub fn obligation_file(
    alloc: Global,
    obligation: u32,
    instances: &[Instance],
    log: &Log,
) -> Result<Vec<u8>, NoMemory>
    ensures { IfOk result (λ bytes. IsBudgetFile (spent.asked obligation
        (map instance_of instances.now) (log_of log.now)) bytes.items) }
{
    let file = with_instances(alloc, Ok(Map::new(alloc)), instances);
    let file = with_log(alloc, file, log);
    let file = with_obligation(alloc, file, obligation);
    written(alloc, file)
}

/// The file of conflicts that were spent on the assumption of this number under a candidate: definitions that an assignment gave,
/// for an obligation with these instances.
pub fn candidate_file(
    alloc: Global,
    checked: &Checked,
    number: u32,
    defs: &Defs,
    obligation: u32,
    instances: &[Instance],
    log: &Log,
) -> Result<Vec<u8>, NoMemory>
    requires { FitsDesign (design_of checked.now) defs.now }
    ensures { IfOk result (λ bytes. IsBudgetFile (spent.tried number
        (defs_text (design_of checked.now) defs.now) obligation
        (map instance_of instances.now) (log_of log.now)) bytes.items) }
{
    let file = assumed(alloc, checked, number, defs);
    let file = with_instances(alloc, file, instances);
    let file = with_log(alloc, file, log);
    let file = with_obligation(alloc, file, obligation);
    written(alloc, file)
}

/// The file of rounds that were spent on an obligation, each of which gave one of these instances.
pub fn rounds_file(
    alloc: Global,
    obligation: u32,
    instances: &[Instance],
) -> Result<Vec<u8>, NoMemory>
    ensures { IfOk result (λ bytes. IsBudgetFile
        (spent.rounds obligation (map instance_of instances.now)) bytes.items) }
{
    let file = with_instances(alloc, Ok(Map::new(alloc)), instances);
    let file = with_obligation(alloc, file, obligation);
    written(alloc, file)
}
