//! How many tables and forks the programs of the switches have, and how large their code is; that is alike for each switch.
ghost use Rattle.std.specs.Prelude.{◌≡◌, IfOk, length, ℕ};
ghost use Rattle.cocoon_syntax.specs.TreeOf.{design_of};
ghost use Rattle.cocoon_types.specs.Design as design;
ghost use Rattle.lowering.specs.Counting.{role_size};
ghost use Rattle.lowering.specs.Log.{tables_in};
ghost use Rattle.lowering.specs.Whole.{role_lowered};
ghost use Rattle.lowering.specs.SwitchProgram.{switch_made};
ghost use Rattle.lower_net.specs.NetDeclarations.{switch_role};

use crate::net_declarations::Ingress;
use cocoon_num::NoMemory;
use cocoon_resolve::Checked;
use lower_code::{Scope, code_size, count_forks, count_tables};
use std::alloc::Global;

/// How many there are of each.
#[derive(Clone, Copy, Drop)]
pub struct ProgramCounts {
    pub tables: u64,
    pub forks: u64,
}

/// The counts, where so many functions are all of the design's. No program is made, so they are exact however many there
/// are; the time is in proportion to the body of the role and the bodies of functions. There is no memory where a count
/// would pass the largest `u64`, either.
pub fn program_counts(
    alloc: Global,
    checked: &Checked,
    functions: u32,
    ingress: &Ingress<'_>,
) -> Result<ProgramCounts, NoMemory>
    requires { functions ≡ length (design.functions (design_of checked.now)) }
    ensures tables { (s : ℕ) → IfOk result (λ n. n.tables
        ≡ length (tables_in (switch_made (switch_role (design_of checked.now) ingress.now) s))) }
    ensures forks { (s : ℕ) → IfOk result (λ n. n.forks
        ≡ length (role_lowered (switch_role (design_of checked.now) ingress.now) s).sites) }
{
    let scope = Scope {
        checked,
        before: functions,
        port: ingress.port,
    };
    let tables = count_tables(alloc, &scope, ingress.body)?;
    let forks = count_forks(ingress.body)?;
    Ok(ProgramCounts { tables, forks })
}

/// How large the code of a program is at least, where so many functions are all of the design's. That the text has as many
/// bytes is the law `programs_are_long` of `lowering_fits`.
pub fn program_size(
    alloc: Global,
    checked: &Checked,
    functions: u32,
    ingress: &Ingress<'_>,
) -> Result<u64, NoMemory>
    requires { functions ≡ length (design.functions (design_of checked.now)) }
    ensures { IfOk result (λ n. n ≡ role_size (switch_role (design_of checked.now) ingress.now)) }
{
    let scope = Scope {
        checked,
        before: functions,
        port: ingress.port,
    };
    code_size(alloc, &scope, ingress.body)
}
