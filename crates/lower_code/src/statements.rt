//! Statements and expressions of fixed forms.
ghost use Rattle.std.specs.Prelude.{[], ◌∷◌, ◌≡◌, ◌++◌, IfOk, map};
ghost use Rattle.cocoon_num.specs.Values.{not_};
ghost use Rattle.p4_ir.specs.P4Tree as tree;
ghost use Rattle.p4_ir.specs.P4Tree.{p_lit, p_return, set_meta, verdict, egress_port, group};
ghost use Rattle.p4_ir.specs.Program.{expr_of, stmt_of};
ghost use Rattle.lowering.specs.LowerBlock as block;

use crate::operators::unary;
use cocoon_num::{Bits, NoMemory};
use cocoon_syntax::UnaryOp;
use p4_ir::{P4Expr, P4Stmt};
use std::alloc::Global;

/// A meta field is set.
pub(crate) fn push_set(code: &mut Vec<P4Stmt>, field: u32, value: P4Expr) -> Result<(), NoMemory>
    ensures { IfOk result (λ u. map stmt_of code.new.items
        ≡ map stmt_of code.old.items ++ (set_meta field (expr_of value) ∷ [])) }
{
    code.push(P4Stmt::SetMeta(field, value))?;
    Ok(())
}

/// A field of a header is set.
pub(crate) fn push_set_field(
    code: &mut Vec<P4Stmt>,
    header: u32,
    field: u32,
    value: P4Expr,
) -> Result<(), NoMemory>
    ensures { IfOk result (λ u. map stmt_of code.new.items
        ≡ map stmt_of code.old.items ++ (tree.set_header header field (expr_of value) ∷ [])) }
{
    code.push(P4Stmt::SetField(header, field, value))?;
    Ok(())
}

/// The packet is dropped where a condition is false.
pub(crate) fn push_filter(
    alloc: Global,
    code: &mut Vec<P4Stmt>,
    condition: P4Expr,
) -> Result<(), NoMemory>
    ensures { IfOk result (λ u. map stmt_of code.new.items
        ≡ map stmt_of code.old.items ++ block.filter_code (expr_of condition)) }
{
    let condition = unary(alloc, UnaryOp::Not, condition)?;
    let mut first = Vec::new(alloc);
    first.push(P4Stmt::Return)?;
    code.push(P4Stmt::If(condition, first))?;
    Ok(())
}

/// A choice between two blocks; the second is left out where it is empty.
pub(crate) fn push_if(
    code: &mut Vec<P4Stmt>,
    condition: P4Expr,
    first: Vec<P4Stmt>,
    second: Vec<P4Stmt>,
) -> Result<(), NoMemory>
    ensures { IfOk result (λ u. map stmt_of code.new.items ≡ map stmt_of code.old.items
        ++ (block.if_stmt (expr_of condition) (map stmt_of first.items)
        (map stmt_of second.items) ∷ [])) }
{
    let choice = if second.is_empty() {
        P4Stmt::If(condition, first)
    } else {
        P4Stmt::IfElse(condition, first, second)
    };
    code.push(choice)?;
    Ok(())
}

/// The second of some expressions; the only one where there is no second.
pub(crate) fn second_of(exprs: Vec<P4Expr>) -> P4Expr
    ensures { expr_of result ≡ block.second_of (map expr_of exprs.items) }
{
    let mut exprs = exprs;
    exprs.truncate(2);
    match exprs.pop() {
        Some(last) => last,
        None => P4Expr::Truth(false),
    }
}

/// The packet leaves by a port.
pub(crate) fn push_send(code: &mut Vec<P4Stmt>, port: P4Expr) -> Result<(), NoMemory>
    ensures { IfOk result (λ u. map stmt_of code.new.items ≡ map stmt_of code.old.items
        ++ (verdict 1 ∷ egress_port (expr_of port) ∷ p_return ∷ [])) }
{
    code.push(P4Stmt::Verdict(1))?;
    code.push(P4Stmt::EgressPort(port))?;
    code.push(P4Stmt::Return)?;
    Ok(())
}

/// Copies of the packet go to egress, with the number of the fork.
pub(crate) fn push_copies(code: &mut Vec<P4Stmt>, site: u8, members: P4Expr) -> Result<(), NoMemory>
    ensures { IfOk result (λ u. map stmt_of code.new.items ≡ map stmt_of code.old.items
        ++ block.copy_code site (expr_of members)) }
{
    let number = P4Expr::Lit(Bits::new(8, u128::from(site)));
    code.push(P4Stmt::SetMeta(0, number))?;
    code.push(P4Stmt::Group(members))?;
    code.push(P4Stmt::Verdict(2))?;
    code.push(P4Stmt::Return)?;
    Ok(())
}
