//! The walk over declarations.
ghost use Rattle.cocoon_num.specs.Tree as tree;
ghost use Rattle.cocoon_syntax.specs.TreeOf.{assume_of, decl_of, design_of, expr_of, function_of, name_of, param_of, result_of, role_of, switch_of};
ghost use Rattle.cocoon_types.specs.Noting.{Notes};
ghost use Rattle.cocoon_types.specs.RuleNames.{rule_of};
ghost use Rattle.cocoon_types.specs.Rules.{too_wide};
ghost use Rattle.cocoon_types.specs.TypeRules.{wide_params};
ghost use Rattle.declarations.specs.Declares.{Declares};
ghost use Rattle.std.specs.Prelude.{◌≡◌, ◌++◌, [], false, IfOk, map, OnOk};
ghost use Rattle.type_rules.specs.Tests.{expr_or_other, fails_among, in_decl, wide_kind};
ghost use Rattle.type_rules.specs.Typed.{Around, scope_of, sort_value};

use crate::calls::result_sort;
use crate::exprs::note_expr;
use crate::noting::{note_if, note_width};
use crate::sort::{Sort, is_other};
use crate::stmts::note_block;
use cocoon_num::NoMemory;
use cocoon_syntax::{
    AssumeDecl, Decl, Design, Expr, FunctionDecl, Name, Param, ResultKind, Role, SwitchDecl,
};
use cocoon_types::first_faults::noting_laws;
use cocoon_types::{Noted, TypeRule};
use declarations::{Declarations, Scopes};
use std::alloc::Global;

/// Notes parameters or fields whose width may not be declared.
pub(crate) fn note_widths(params: &[Param], noted: &mut Noted)
    ensures { Notes (fails_among too_wide (wide_params (map param_of params.now)))
        noted.old noted.new }
{
    noting_laws();
    for param in params {
        note_width(noted, &param.name, param.width);
    }
}

/// Notes a function's result whose width may not be declared.
fn note_result(name: &Name, result_kind: &ResultKind, noted: &mut Noted)
    ensures { Notes
        (fails_among too_wide (wide_kind (name_of name.now) (result_of result_kind.now)))
        noted.old noted.new }
{
    noting_laws();
    match result_kind {
        ResultKind::Width(width) => note_width(noted, name, *width),
        ResultKind::Truth => (),
    }
}

/// The scope with these parameters alone.
fn scope_with(alloc: Global, params: &[Param]) -> Result<Scopes, NoMemory>
    ensures { IfOk result (λ vars. vars ≡ map param_of params.now ++ []) }
{
    let mut vars = Scopes::new(alloc);
    let mut left = params.len();
    while left > 0 {
        left -= 1;
        let param = &params[left];
        vars.bind(alloc, &param.name, param.width)?;
    }
    Ok(vars)
}

/// Notes the faults of an expression without a packet, and that it is of another type than this.
fn note_typed(
    names: &Declarations,
    design: &Design,
    vars: &Scopes,
    expr: &Expr,
    sort: Sort,
    rule: TypeRule,
    noted: &mut Noted,
)
    requires { Declares names.now (design_of design.now) }
    ensures { (w : Around) → Notes (expr_or_other (scope_of w (design_of design.now) vars.now false)
        (rule_of rule) (sort_value sort) (expr_of expr.now)) noted.old noted.new }
{
    noting_laws();
    let found = note_expr(names, design, vars, false, expr, noted);
    note_if(noted, is_other(sort, found.sort), rule, found.at);
}

fn note_function(
    alloc: Global,
    names: &Declarations,
    design: &Design,
    function: &FunctionDecl,
    noted: &mut Noted,
) -> Result<(), NoMemory>
    requires { Declares names.now (design_of design.now) }
    ensures { (w : Around) → OnOk result (Notes (in_decl (record {
      scope = scope_of w (design_of design.now) [] false;
      decl = tree.a_function (function_of function.now);
    })) noted.old noted.new) }
{
    noting_laws();
    note_widths(&function.params, noted);
    note_result(&function.name, &function.result, noted);
    match &function.body {
        Some(body) => {
            let vars = scope_with(alloc, &function.params)?;
            let sort = result_sort(&function.result);
            note_typed(
                names,
                design,
                &vars,
                body,
                sort,
                TypeRule::WrongWidth,
                noted,
            );
            Ok(())
        }
        None => Ok(()),
    }
}

fn note_assumption(
    alloc: Global,
    names: &Declarations,
    design: &Design,
    assumption: &AssumeDecl,
    noted: &mut Noted,
) -> Result<(), NoMemory>
    requires { Declares names.now (design_of design.now) }
    ensures { (w : Around) → OnOk result (Notes (in_decl (record {
      scope = scope_of w (design_of design.now) [] false;
      decl = tree.an_assumption (assume_of assumption.now);
    })) noted.old noted.new) }
{
    noting_laws();
    note_widths(&assumption.params, noted);
    let vars = scope_with(alloc, &assumption.params)?;
    note_typed(
        names,
        design,
        &vars,
        &assumption.body,
        Sort::Truth,
        TypeRule::NotBool,
        noted,
    );
    Ok(())
}

fn note_role(
    alloc: Global,
    names: &Declarations,
    design: &Design,
    role: &Role,
    noted: &mut Noted,
) -> Result<(), NoMemory>
    requires { Declares names.now (design_of design.now) }
    ensures { (w : Around) → OnOk result (Notes (in_decl (record {
      scope = scope_of w (design_of design.now) [] false;
      decl = tree.a_role (role_of role.now);
    })) noted.old noted.new) }
{
    noting_laws();
    note_widths(&role.params, noted);
    let mut vars = scope_with(alloc, &role.params)?;
    note_typed(
        names,
        design,
        &vars,
        &role.guard,
        Sort::Truth,
        TypeRule::NotBool,
        noted,
    );
    match &role.body {
        Some(body) => {
            note_block(alloc, names, design, &mut vars, body, noted)?;
            Ok(())
        }
        None => Ok(()),
    }
}

fn note_switch(switch: &SwitchDecl, noted: &mut Noted)
    ensures { (w : Around) (d : tree.Design) → Notes (in_decl (record {
      scope = scope_of w d [] false;
      decl = tree.a_switch (switch_of switch.now);
    })) noted.old noted.new }
{
    noting_laws();
    note_if(noted, switch.ports == 0, TypeRule::ZeroCount, switch.at);
}

/// Notes the faults of a declaration, and of all that is in it.
pub(crate) fn note_decl(
    alloc: Global,
    names: &Declarations,
    design: &Design,
    decl: &Decl,
    noted: &mut Noted,
) -> Result<(), NoMemory>
    requires { Declares names.now (design_of design.now) }
    ensures { (w : Around) → OnOk result (Notes (in_decl (record {
      scope = scope_of w (design_of design.now) [] false;
      decl = decl_of decl.now;
    })) noted.old noted.new) }
{
    noting_laws();
    match decl {
        Decl::Function(function) => note_function(alloc, names, design, function, noted),
        Decl::Assume(assumption) => note_assumption(alloc, names, design, assumption, noted),
        Decl::Role(role) => note_role(alloc, names, design, role, noted),
        Decl::Switch(switch) => {
            note_switch(switch, noted);
            Ok(())
        }
        Decl::Host(_) => Ok(()),
    }
}
