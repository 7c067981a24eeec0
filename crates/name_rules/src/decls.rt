//! The walk over declarations.
ghost use Rattle.cocoon_num.specs.Tree as tree;
ghost use Rattle.cocoon_syntax.specs.TreeOf.{assume_of, decl_of, design_of, function_of, param_of, role_of};
ghost use Rattle.cocoon_types.specs.Noting.{Notes};
ghost use Rattle.declarations.specs.Declares.{Declares};
ghost use Rattle.std.specs.Prelude.{◌≡◌, ◌++◌, [], false, IfOk, map, OnOk};
ghost use Rattle.name_rules.specs.Tests.{in_decl, scope_at};

use crate::exprs::note_expr;
use crate::point::Point;
use crate::stmts::note_block;
use cocoon_num::NoMemory;
use cocoon_syntax::{AssumeDecl, Decl, Design, FunctionDecl, Param, Role};
use cocoon_types::Noted;
use cocoon_types::first_faults::noting_laws;
use declarations::{Declarations, Scopes};
use std::alloc::Global;

/// The scope with these parameters alone.
fn scope_with(alloc: Global, params: &[Param]) -> Result<Scopes, NoMemory>
    ensures { IfOk result (λ vars. vars ≡ map param_of params.now ++ []) }
{
    let mut vars = Scopes::new(alloc);
    let mut left = params.len();
    while left > 0 {
        left -= 1;
        let param = &params[left];
        vars.bind(alloc, &param.name, param.width)?;
    }
    Ok(vars)
}

fn note_function(
    alloc: Global,
    names: &Declarations,
    design: &Design,
    point: Point,
    function: &FunctionDecl,
    noted: &mut Noted,
) -> Result<(), NoMemory>
    requires { Declares names.now (design_of design.now) }
    ensures { OnOk result (Notes (in_decl (record {
      scope = scope_at (design_of design.now) point [] false;
      decl = tree.a_function (function_of function.now);
    })) noted.old noted.new) }
{
    noting_laws();
    match &function.body {
        Some(body) => {
            let vars = scope_with(alloc, &function.params)?;
            note_expr(names, design, point, &vars, body, noted);
            Ok(())
        }
        None => Ok(()),
    }
}

fn note_assumption(
    alloc: Global,
    names: &Declarations,
    design: &Design,
    point: Point,
    assumption: &AssumeDecl,
    noted: &mut Noted,
) -> Result<(), NoMemory>
    requires { Declares names.now (design_of design.now) }
    ensures { OnOk result (Notes (in_decl (record {
      scope = scope_at (design_of design.now) point [] false;
      decl = tree.an_assumption (assume_of assumption.now);
    })) noted.old noted.new) }
{
    noting_laws();
    let vars = scope_with(alloc, &assumption.params)?;
    note_expr(names, design, point, &vars, &assumption.body, noted);
    Ok(())
}

fn note_role(
    alloc: Global,
    names: &Declarations,
    design: &Design,
    point: Point,
    role: &Role,
    noted: &mut Noted,
) -> Result<(), NoMemory>
    requires { Declares names.now (design_of design.now) }
    ensures { OnOk result (Notes (in_decl (record {
      scope = scope_at (design_of design.now) point [] false;
      decl = tree.a_role (role_of role.now);
    })) noted.old noted.new) }
{
    noting_laws();
    let mut vars = scope_with(alloc, &role.params)?;
    note_expr(names, design, point, &vars, &role.guard, noted);
    match &role.body {
        Some(body) => {
            note_block(alloc, names, design, point, &mut vars, body, noted)?;
            Ok(())
        }
        None => Ok(()),
    }
}

/// Notes the faults of a declaration, and of all that is in it.
pub(crate) fn note_decl(
    alloc: Global,
    names: &Declarations,
    design: &Design,
    point: Point,
    decl: &Decl,
    noted: &mut Noted,
) -> Result<(), NoMemory>
    requires { Declares names.now (design_of design.now) }
    ensures { OnOk result (Notes (in_decl (record {
      scope = scope_at (design_of design.now) point [] false;
      decl = decl_of decl.now;
    })) noted.old noted.new) }
{
    noting_laws();
    match decl {
        Decl::Function(function) => note_function(alloc, names, design, point, function, noted),
        Decl::Assume(assumption) => note_assumption(alloc, names, design, point, assumption, noted),
        Decl::Role(role) => note_role(alloc, names, design, point, role, noted),
        Decl::Host(_) | Decl::Switch(_) => Ok(()),
    }
}
