//! Which programs are well kinded.
ghost use Rattle.std.specs.Prelude.{◌≡◌, IfOk};
ghost use Rattle.cocoon_num.specs.Tokens as tokens;
ghost use Rattle.p4_ir.specs.P4Kinds as rules;
ghost use Rattle.p4_ir.specs.P4Text.{p4_bounds, program_tokens};
ghost use Rattle.p4_ir.specs.Program.{program_of};
ghost use Rattle.p4_ir.specs.WellKinded as spec;
ghost use Rattle.p4_kinds.specs.Parts as parts;

use crate::depth::is_shallow;
use crate::names::names_fit;
use crate::numbers::{numbers_of, tables_fit};
use crate::stmts::body_fits;
use crate::widths::widths_fit;
use cocoon_num::NoMemory;
use p4_ir::Program;
use std::alloc::Global;

/// The statements of both controls keep the kind rules.
fn bodies_fit(alloc: Global, program: &Program) -> Result<bool, NoMemory>
    ensures { IfOk result (λ fit. fit ≡ parts.bodies_fit (program_of program.now)) }
{
    let ingress = numbers_of(alloc, program.ingress.tables.items())?;
    let egress = numbers_of(alloc, program.egress.tables.items())?;
    Ok(
        body_fits(program, true, &ingress, program.ingress.body.items())
            && body_fits(program, false, &egress, program.egress.body.items()),
    )
}

fn keeps_rules(alloc: Global, program: &Program) -> Result<bool, NoMemory>
    ensures { IfOk result (λ keeps. keeps ≡ rules.kinds_fit (program_of program.now)) }
{
    let names = names_fit(alloc, program)?;
    let bodies = bodies_fit(alloc, program)?;
    Ok(names && widths_fit(program) && tables_fit(program) && bodies)
}

/// No token of the bodies of the controls is deep.
fn are_shallow(program: &Program) -> bool
    ensures { result ≡ parts.are_shallow (program_of program.now) }
{
    let ingress = is_shallow(program.ingress.body.items());
    let egress = is_shallow(program.egress.body.items());
    ingress && egress
}

fn keeps_bounds(program: &Program) -> bool
    ensures { result ≡ tokens.is_shallow p4_bounds (program_tokens (program_of program.now)) }
{
    are_shallow(program)
}

/// A program keeps the kind rules, and no token of its text is deep. Memory is taken for one copy
/// of each name and for the numbers of tables.
pub fn is_well_kinded(alloc: Global, program: &Program) -> Result<bool, NoMemory>
    ensures { IfOk result (λ kinded. kinded ≡ spec.is_well_kinded (program_of program.now)) }
{
    if keeps_bounds(program) {
        keeps_rules(alloc, program)
    } else {
        Ok(false)
    }
}
