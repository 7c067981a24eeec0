//! Variables, and as what code reads them.
ghost use Rattle.std.specs.Prelude.{◌≡◌, ◌+◌, IfOk, map};
ghost use Rattle.cocoon_syntax.specs.TreeOf.{param_of};
ghost use Rattle.p4_ir.specs.Program.{expr_of};
ghost use Rattle.lowering.specs.Lower as lower;
ghost use Rattle.lowering.specs.LowerBlock.{for_port, ports_kept};
ghost use Rattle.lower_code.specs.Variables.{reading_of, variables_of};

use crate::places::is_same;
use cocoon_num::{Bits, NoMemory};
use cocoon_syntax::Param;
use p4_ir::P4Expr;
use std::alloc::Global;

/// As what a variable is read.
#[derive(Clone, Copy, Drop)]
pub enum Reading {
    /// As the number of the switch.
    Switch(u16),
    /// As the port at which the packet came in.
    Port,
    /// As the meta field of this number.
    Meta(u32),
}

/// A variable of the design.
#[derive(Clone, Copy, Drop)]
pub struct Variable<'d> {
    pub name: &'d [u8],
    pub reading: Reading,
}

/// The expression that reads a variable.
fn read(reading: Reading) -> P4Expr
    ensures { expr_of result ≡ reading_of reading }
{
    match reading {
        Reading::Switch(number) => P4Expr::Lit(Bits::new(16, u128::from(number))),
        Reading::Port => P4Expr::Port,
        Reading::Meta(field) => P4Expr::Meta(field),
    }
}

/// The expression that reads the variable of this name: the last that was bound.
pub(crate) fn read_variable(variables: &[Variable<'_>], name: &[u8]) -> P4Expr
    ensures { expr_of result ≡ lower.variable_expr (variables_of variables.now) name.now }
{
    let mut at = variables.len();
    while at > 0 {
        at -= 1;
        let variable = &variables[at];
        if is_same(name, variable.name) {
            return read(variable.reading);
        }
    }
    P4Expr::Truth(false)
}

/// The meta field so many after the first.
fn field_after(first: u32, index: usize) -> Result<u32, NoMemory>
    ensures { IfOk result (λ field. field ≡ first + index) }
{
    let index = u32::try_from(index).map_err(|_| NoMemory)?;
    first.checked_add(index).ok_or(NoMemory)
}

/// The parameters of a function, whose values stand in the meta fields from the first on.
pub(crate) fn parameters<'d>(
    alloc: Global,
    first: u32,
    params: &'d [Param],
) -> Result<Vec<Variable<'d>>, NoMemory>
    ensures { IfOk result (λ variables. variables_of variables.items
        ≡ lower.variables_from first (map param_of params.now)) }
{
    let mut variables = Vec::new(alloc);
    let mut at = params.len();
    while at > 0 {
        at -= 1;
        let reading = Reading::Meta(field_after(first, at)?);
        let name = params[at].name.text.bytes();
        variables.push(Variable { name, reading })?;
    }
    Ok(variables)
}

/// The same variables, with the port read as a field.
pub(crate) fn keep_port<'d>(
    alloc: Global,
    field: u32,
    variables: &[Variable<'d>],
) -> Result<Vec<Variable<'d>>, NoMemory>
    ensures { IfOk result (λ kept. variables_of kept.items
        ≡ ports_kept field (variables_of variables.now)) }
{
    let mut kept = Vec::new(alloc);
    for variable in variables {
        let name = variable.name;
        let reading = variable.reading.keep_port(field);
        kept.push(Variable { name, reading })?;
    }
    Ok(kept)
}

impl Reading {
    /// The field in place of the port.
    fn keep_port(self, field: u32) -> Reading
        ensures { reading_of result ≡ for_port field (reading_of self) }
    {
        match self {
            Reading::Port => Reading::Meta(field),
            Reading::Switch(number) => Reading::Switch(number),
            Reading::Meta(other) => Reading::Meta(other),
        }
    }
}
