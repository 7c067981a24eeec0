//! The blocks of forks, in egress: one `if` for each, over the number of the fork.
ghost use Rattle.std.specs.Prelude.{[], ◌∷◌, ◌≡◌, ◌-◌, ◌++◌, if◌then◌else◌, IfOk, map};
ghost use Rattle.cocoon_num.specs.Values.{equal};
ghost use Rattle.p4_ir.specs.P4Tree.{p_binary, p_if, p_lit, p_meta, p_return, p_rid, p_slice, set_meta};
ghost use Rattle.p4_ir.specs.Program.{block_of, stmt_of};
ghost use Rattle.lowering.specs.LowerSites as lower;
ghost use Rattle.lower_code.specs.Blocks.{site_of, with_sites};
ghost use Rattle.lower_code.specs.Growth.{counts_of, so_far};
ghost use Rattle.lower_code.specs.Scopes.{callees_in, design_in, SeesFunctions};

use crate::blocks::{Frame, Site, lower_block};
use crate::functions::Scope;
use crate::made::Lowering;
use crate::operators::slice;
use crate::statements::push_set;
use crate::variables::{Reading, Variable};
use cocoon_num::{Bits, NoMemory};
use p4_ir::{P4Binary, P4Expr, P4Stmt};
use std::alloc::Global;

fn is_return(stmt: &P4Stmt) -> bool
    ensures { result ≡ lower.is_return (stmt_of stmt.now) }
{
    match stmt {
        P4Stmt::Return => true,
        P4Stmt::SetMeta(_, _) => false,
        P4Stmt::SetField(_, _, _) => false,
        P4Stmt::Apply(_) => false,
        P4Stmt::If(_, _) => false,
        P4Stmt::IfElse(_, _, _) => false,
        P4Stmt::Verdict(_) => false,
        P4Stmt::EgressPort(_) => false,
        P4Stmt::Group(_) => false,
    }
}

fn ends_with_return(code: &[P4Stmt]) -> bool
    ensures { lower.with_return (map stmt_of code.now)
        ≡ (if result then map stmt_of code.now else (map stmt_of code.now ++ (p_return ∷ []))) }
{
    match code.split_last() {
        Some((last, _)) => is_return(last),
        None => false,
    }
}

/// Puts a `return` at the end of code that does not end with one.
fn end_with_return(code: &mut Vec<P4Stmt>) -> Result<(), NoMemory>
    ensures { IfOk result (λ u. map stmt_of code.new.items
        ≡ lower.with_return (map stmt_of code.old.items)) }
{
    if ends_with_return(code) {
        return Ok(());
    }
    code.push(P4Stmt::Return)?;
    Ok(())
}

/// The variable of a fork is the number of the copy, cut to its width.
fn push_member(
    alloc: Global,
    code: &mut Vec<P4Stmt>,
    field: u32,
    width: u32,
) -> Result<(), NoMemory>
    ensures { IfOk result (λ u. map stmt_of code.new.items
        ≡ map stmt_of code.old.items ++ (set_meta field (p_slice p_rid (width - 1) 0) ∷ [])) }
{
    let member = slice(alloc, P4Expr::Rid, width.saturating_sub(1), 0)?;
    push_set(code, field, member)
}

/// The code of the fork of this number.
fn push_site(
    alloc: Global,
    code: &mut Vec<P4Stmt>,
    number: u8,
    body: Vec<P4Stmt>,
) -> Result<(), NoMemory>
    ensures { IfOk result (λ u. map stmt_of code.new.items ≡ map stmt_of code.old.items
        ++ (p_if (p_binary equal (p_meta 0) (p_lit 8 number)) (block_of (map stmt_of body.items))
        ∷ [])) }
{
    let site = Box::new(alloc, P4Expr::Meta(0))?;
    let number = Box::new(alloc, P4Expr::Lit(Bits::new(8, u128::from(number))))?;
    code.push(P4Stmt::If(P4Expr::Binary(P4Binary::Equal, site, number), body))?;
    Ok(())
}

/// Lowers the block of a fork, with the fork's variable as the first meta field that is made.
fn lower_site<'d>(
    alloc: Global,
    scope: &Scope<'d>,
    to: &mut Lowering,
    code: &mut Vec<P4Stmt>,
    site: &Site<'d>,
) -> Result<(), NoMemory>
    requires { SeesFunctions scope.now }
    ensures { IfOk result (λ u. so_far (design_in scope.now) to.new code.new.items
        ≡ with_sites (so_far (design_in scope.now) to.old code.old.items)
        (lower.lower_site (callees_in scope.now) (counts_of to.old.counts) (site_of site.now))) }
{
    let variables = site.variables.to_vec(alloc)?;
    let mut frame = Frame {
        variables,
        sites: Vec::new(alloc),
    };
    let field = to.make_variable(site.width)?;
    let reading = Reading::Meta(field);
    let name = site.name;
    frame.variables.push(Variable { name, reading })?;
    let mut body = Vec::new(alloc);
    push_member(alloc, &mut body, field, site.width)?;
    lower_block(alloc, scope, to, &mut body, &mut frame, site.body)?;
    end_with_return(&mut body)?;
    push_site(alloc, code, site.number, body)?;
    Ok(())
}

/// Lowers the blocks of forks for the egress control, one after another.
pub fn lower_sites<'d>(
    alloc: Global,
    scope: &Scope<'d>,
    to: &mut Lowering,
    code: &mut Vec<P4Stmt>,
    sites: &[Site<'d>],
) -> Result<(), NoMemory>
    requires { SeesFunctions scope.now }
    ensures { IfOk result (λ u. so_far (design_in scope.now) to.new code.new.items
        ≡ with_sites (so_far (design_in scope.now) to.old code.old.items)
        (lower.lower_sites (callees_in scope.now) (counts_of to.old.counts)
        (map site_of sites.now))) }
{
    for site in sites {
        lower_site(alloc, scope, to, code, site)?;
    }
    Ok(())
}
