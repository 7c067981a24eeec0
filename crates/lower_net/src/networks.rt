//! The network of a design under its definitions.
ghost use Rattle.std.specs.Prelude.{◌≡◌, ◌≤◌, ℕ, IfErr, IfOk, None, Some, length, map};
ghost use Rattle.cocoon_syntax.specs.TreeOf.{design_of};
ghost use Rattle.cocoon_types.specs.Design as design;
ghost use Rattle.lower_net.specs.Refused.{FirstLongProgram, FirstManyRows, FirstSwitch, IsJudged, IsRefused, IsRefusedFirst, Lowers};
ghost use Rattle.lowering.specs.Roles.{NetParts, net_parts};
ghost use Rattle.lowering.specs.SwitchProgram.{switch_program};
ghost use Rattle.lower_rows.specs.AllGroups.{fork_group_of};
ghost use Rattle.lower_net.specs.NetDeclarations.{parts_of, switch_role};
ghost use Rattle.lowering_fits.specs.Sharing.{HasOneProgram};
ghost use Rattle.lowering_correct.specs.Counts.{FirstOver, counts, first_over, program_counts};
ghost use Rattle.lowering_correct.specs.Groups as spec;
ghost use Rattle.lowering_correct.specs.Network.{IsNetwork, network};
ghost use Rattle.p4_ir.specs.Program.{program_of};
ghost use Rattle.runtime_defs.specs.Fitting.{FitsDesign};
ghost use Rattle.runtime_defs.specs.Places.{Places};
ghost use Rattle.shared_net.specs.Shared.{shared_of};

use crate::hosts::host_ports;
use crate::lengths::{find_long_program, find_many_rows};
use crate::limits::{groups_over, network_over, program_over};
use crate::links::port_links;
use crate::switches::switches;
use crate::{Parts, find_parts, program_counts, switch_code};
use cocoon_num::{LimitName, List, NoMemory};
use cocoon_resolve::Checked;
use lower_rows::{ForkGroup, fork_groups};
use lowering_correct::types::forks_are;
use lowering_fits::alike::networks_share;
use p4_ir::Program;
use runtime_defs::Defs;
use shared_net::SharedNet;
use std::alloc::Global;

/// Why no network is made.
#[derive(Clone, Copy, Debug, Drop, PartialEq, Eq)]
pub enum LowerFault {
    /// The definitions give more than a limit allows, by this count.
    Limit(LimitName, u64),
    /// The text of each program would be longer than its file may be. The first switch has this number.
    LongProgram(u16),
    /// Each switch would have more rows than its file can hold. The first switch has this number.
    ManyRows(u16),
    NoMemory,
}

impl From<NoMemory> for LowerFault {
    ghost use Rattle.std.specs.Prelude.{◌≡◌};
    ghost use Rattle.lower_net.specs.declared.networks.LowerFault.TheVariants.{NoMemory as Wanting};

    ghost from_gives = { λ _ fault. fault ≡ Wanting };

    fn from(_: NoMemory) -> LowerFault {
        LowerFault::NoMemory
    }
}

/// The network of these switches and hosts.
fn make(
    alloc: Global,
    checked: &Checked,
    defs: &Defs,
    parts: &Parts<'_>,
    groups: &[ForkGroup<'_>],
    numbers: &[u16],
    hosts: &[u64],
) -> Result<SharedNet, NoMemory>
    requires fits { FitsDesign (design_of checked.now) defs.now }
    requires groups { map fork_group_of groups.now
        ≡ spec.fork_groups (design_of checked.now) defs.now }
    requires one { HasOneProgram (switch_role (design_of checked.now) parts.now.ingress) }
    requires ports { parts.now.switches.now.ports ≤ 256 }
    ensures { IfOk result (λ net. shared_of net ≡ network (design_of checked.now) defs.now
        (parts_of (design_of checked.now) parts.now) numbers.now hosts.now) }
{
    let ports = parts.switches.ports as u16;
    let functions = count_functions(checked, defs);
    let switches = switches(alloc, checked, defs, functions, parts, groups, numbers)?;
    let links = port_links(alloc, checked, defs, parts.switches, parts.hosts, numbers)?;
    let hosts = host_ports(alloc, checked, defs, parts.switches, parts.hosts, hosts)?;
    Ok(SharedNet {
        ports,
        switches,
        links: List::from(links),
        hosts: List::from(hosts),
    })
}

/// How many functions the design has.
fn count_functions(checked: &Checked, defs: &Defs) -> u32
    requires { FitsDesign (design_of checked.now) defs.now }
    ensures { result ≡ length (design.functions (design_of checked.now)) }
{
    checked.design();
    defs.tables().len() as u32
}

/// The first limit that is exceeded where there is a switch, with the count.
fn switch_over(
    alloc: Global,
    checked: &Checked,
    functions: u32,
    parts: &Parts<'_>,
    groups: &[ForkGroup<'_>],
) -> Result<Option<(LimitName, u64)>, NoMemory>
    requires { functions ≡ length (design.functions (design_of checked.now)) }
    ensures { (places : Places)
        → map fork_group_of groups.now ≡ spec.fork_groups (design_of checked.now) places
        → (s : ℕ) → IfOk result (λ over. over
        ≡ first_over (program_counts (design_of checked.now) places
        (switch_role (design_of checked.now) parts.now.ingress) s)) }
{
    let counts = program_counts(alloc, checked, functions, &parts.ingress)?;
    match program_over(counts) {
        Some(over) => Ok(Some(over)),
        None => Ok(groups_over(groups)),
    }
}

/// The first limit that is exceeded, with the count.
fn find_over(
    alloc: Global,
    checked: &Checked,
    functions: u32,
    parts: &Parts<'_>,
    groups: &[ForkGroup<'_>],
    numbers: &[u16],
    hosts: &[u64],
) -> Result<Option<(LimitName, u64)>, NoMemory>
    requires { functions ≡ length (design.functions (design_of checked.now)) }
    ensures { (places : Places)
        → map fork_group_of groups.now ≡ spec.fork_groups (design_of checked.now) places
        → IfOk result (λ over. over ≡ first_over (counts (design_of checked.now) places
        (switch_role (design_of checked.now) parts.now.ingress) numbers.now hosts.now)) }
{
    match network_over(numbers.len() as u64, hosts.len() as u64) {
        Some(over) => Ok(Some(over)),
        None => {
            if numbers.is_empty() {
                Ok(None)
            } else {
                switch_over(alloc, checked, functions, parts, groups)
            }
        }
    }
}

/// The first switch of these parts, or why there is no network.
fn judge_parts(
    alloc: Global,
    checked: &Checked,
    defs: &Defs,
    parts: &Parts<'_>,
) -> Result<Option<u16>, LowerFault>
    requires fits { FitsDesign (design_of checked.now) defs.now }
    requires parts { net_parts (design_of checked.now)
        ≡ Some (parts_of (design_of checked.now) parts.now) }
    ensures { IsJudged (design_of checked.now) defs.now result }
{
    let functions = count_functions(checked, defs);
    let numbers = defs.switches(checked);
    let hosts = defs.hosts(checked);
    let groups = fork_groups(alloc, checked, defs)?;
    if let Some((limit, count)) = find_over(
        alloc, checked, functions, parts, &groups, numbers, hosts,
    )? {
        return Err(LowerFault::Limit(limit, count));
    }
    if let Some(switch) = find_long_program(alloc, checked, functions, parts, numbers)? {
        return Err(LowerFault::LongProgram(switch));
    }
    Ok(numbers.first().copied())
}

/// The network of these parts, or why there is none.
fn lower_parts(
    alloc: Global,
    checked: &Checked,
    defs: &Defs,
    parts: &Parts<'_>,
) -> Result<SharedNet, LowerFault>
    requires fits { FitsDesign (design_of checked.now) defs.now }
    requires parts { net_parts (design_of checked.now)
        ≡ Some (parts_of (design_of checked.now) parts.now) }
    requires one { HasOneProgram (switch_role (design_of checked.now) parts.now.ingress) }
    requires ports { parts.now.switches.now.ports ≤ 256 }
    ensures { Lowers (design_of checked.now) defs.now result }
{
    let functions = count_functions(checked, defs);
    let numbers = defs.switches(checked);
    let hosts = defs.hosts(checked);
    let groups = fork_groups(alloc, checked, defs)?;
    if let Some((limit, count)) = find_over(
        alloc, checked, functions, parts, &groups, numbers, hosts,
    )? {
        return Err(LowerFault::Limit(limit, count));
    }
    if let Some(switch) = find_long_program(alloc, checked, functions, parts, numbers)? {
        return Err(LowerFault::LongProgram(switch));
    }
    if let Some(switch) = find_many_rows(
        alloc, checked, defs, functions, parts, &groups, numbers,
    )? {
        return Err(LowerFault::ManyRows(switch));
    }
    Ok(make(alloc, checked, defs, parts, &groups, numbers, hosts)?)
}

/// The network of a design under its definitions, if they are within the limits: at its last level, whatever levels it has.
pub fn lower(alloc: Global, checked: &Checked, defs: &Defs) -> Result<SharedNet, LowerFault>
    requires { FitsDesign (design_of checked.now) defs.now }
    ensures network { IfOk result (λ net. IsNetwork
        (design_of checked.now) defs.now (shared_of net)) }
    ensures within { IfOk result (λ net. FirstOver (design_of checked.now) defs.now None) }
    ensures short { IfOk result (λ net. FirstLongProgram (design_of checked.now) defs.now None) }
    ensures few { IfOk result (λ net. FirstManyRows (design_of checked.now) defs.now None) }
    ensures refused { IfErr result (λ fault. IsRefused (design_of checked.now) defs.now fault) }
{
    forks_are();
    networks_share();
    checked.design();
    checked.know_reading();
    let parts = find_parts(checked).unwrap();
    lower_parts(alloc, checked, defs, &parts)
}

/// The number of the first switch of the network, if there is one, where no limit is exceeded and the programs are not known to be too
/// long. No program is made.
pub fn first_switch(
    alloc: Global,
    checked: &Checked,
    defs: &Defs,
) -> Result<Option<u16>, LowerFault>
    requires { FitsDesign (design_of checked.now) defs.now }
    ensures first { IfOk result (λ switch. FirstSwitch
        (design_of checked.now) defs.now switch) }
    ensures short { IfOk result (λ switch. FirstLongProgram
        (design_of checked.now) defs.now None) }
    ensures refused { IfErr result (λ fault. IsRefusedFirst
        (design_of checked.now) defs.now fault) }
{
    forks_are();
    checked.design();
    let parts = find_parts(checked).unwrap();
    judge_parts(alloc, checked, defs, &parts)
}

/// The program that the switch of this number has, or would have.
pub fn program(
    alloc: Global,
    checked: &Checked,
    defs: &Defs,
    number: u16,
) -> Result<Program, NoMemory>
    requires { FitsDesign (design_of checked.now) defs.now }
    ensures { (parts : NetParts) → net_parts (design_of checked.now) ≡ Some parts
        → IfOk result (λ p. program_of p ≡ switch_program parts.role number) }
{
    forks_are();
    checked.design();
    let functions = count_functions(checked, defs);
    let parts = find_parts(checked).unwrap();
    let code = switch_code(alloc, checked, functions, &parts.ingress, number)?;
    Ok(code.program)
}
