//! The forms of the guards of host roles and of switch roles.
ghost use Rattle.std.specs.Prelude.{◌≡◌, ◌∷◌, ◌++◌, [], flat_map, map, option_map};
ghost use Rattle.cocoon_num.specs.Tree as tree;
ghost use Rattle.cocoon_num.specs.Values as values;
ghost use Rattle.cocoon_syntax.specs.TreeOf.{design_of, expr_of, exprs_of, param_of, role_of};
ghost use Rattle.cocoon_types.specs.FormRules as spec;
ghost use Rattle.cocoon_types.specs.FormRules.{declared_as, guards_by};
ghost use Rattle.cocoon_types.specs.LastLevel as last;
ghost use Rattle.cocoon_types.specs.Noting.{Notes};
ghost use Rattle.cocoon_types.specs.RuleParts.{roles_of};
ghost use Rattle.cocoon_types.specs.Rules.{fails_at, guard_form};
ghost use Rattle.cocoon_types.specs.SameTrees.{same_expr, same_exprs};
ghost use Rattle.declarations.specs.Declares.{Declares};
ghost use Rattle.cocoon_types.specs.Among.{among};
ghost use Rattle.form_rules.specs.Guards as parts;
ghost use Rattle.form_rules.specs.Guards.{call_of, function_by, fits_by, host_guards, other_guard, port_test, switch_guards};
ghost use Rattle.form_rules.specs.Parts.{where_named};

use crate::declared::{first_declared, host_roles};
use crate::same_trees::{is_binary, is_named};
use crate::switches::PORT_WIDTH;
use cocoon_syntax::{BinaryOp, Design, Expr, ExprKind, Param, Role};
use cocoon_types::{Noted, TypeRule, among_laws, note_unless};
use declarations::Declarations;

/// Whose form a guard should have.
#[derive(Clone, Copy, Drop)]
pub(crate) enum Form {
    Host,
    /// The number of ports.
    Switch(u32),
}

fn is_runtime(names: &Declarations, design: &Design, function: &[u8]) -> bool
    requires { Declares names.now (design_of design.now) }
    ensures { result ≡ spec.is_runtime (design_of design.now) function.now }
{
    match names.function_named(design, function) {
        Some(declared) => declared.body.is_none(),
        None => false,
    }
}

/// The function that a call names; no name where it is no call.
fn called(expr: &Expr) -> &[u8]
    ensures { result.now ≡ last.called (expr_of expr.now) }
{
    match &expr.kind {
        ExprKind::Call(function, _) => function.text.bytes(),
        _ => &[],
    }
}

/// The function that a guard of this form calls.
fn function_of(form: Form, guard: &Expr) -> &[u8]
    ensures { result.now ≡ function_by form (expr_of guard.now) }
{
    match form {
        Form::Host => called(guard),
        Form::Switch(_) => called_left(guard),
    }
}

fn called_left(guard: &Expr) -> &[u8]
    ensures { result.now ≡ spec.guard_function (expr_of guard.now) }
{
    match &guard.kind {
        ExprKind::Binary(_, left, _) => called(left),
        _ => &[],
    }
}

fn is_variable(expr: &Expr, name: &[u8]) -> bool
    ensures { result ≡ same_expr (expr_of expr.now) (tree.name 0 name.now) }
{
    match &expr.kind {
        ExprKind::Name(text) => is_named(text.bytes(), name),
        _ => false,
    }
}

fn is_number(expr: &Expr, width: u8, value: u32) -> bool
    ensures { result ≡ same_expr (expr_of expr.now) (tree.lit 0 width value) }
{
    match &expr.kind {
        ExprKind::Lit(bits) => bits.width == width && bits.value == u128::from(value),
        _ => false,
    }
}

/// Whether the variable is the one argument.
fn is_argument(args: &[Expr], name: &[u8]) -> bool
    ensures { result ≡ same_exprs (exprs_of (map expr_of args.now))
        (tree.expr (tree.name 0 name.now) tree.no_exprs) }
{
    match args.split_first() {
        Some((arg, rest)) => is_variable(arg, name) && rest.is_empty(),
        None => false,
    }
}

/// Whether a call has the variable as its one argument.
fn is_call_on(expr: &Expr, name: &[u8]) -> bool
    ensures { result ≡ same_expr (expr_of expr.now)
        (call_of (last.called (expr_of expr.now)) name.now) }
{
    match &expr.kind {
        ExprKind::Call(_, args) => is_argument(args, name),
        _ => false,
    }
}

/// Whether the variable is tested to be below the number of ports.
fn is_port_test(expr: &Expr, name: &[u8], ports: u32) -> bool
    ensures { result ≡ same_expr (expr_of expr.now) (port_test name.now ports) }
{
    match &expr.kind {
        ExprKind::Binary(op, left, right) => {
            is_binary(*op, BinaryOp::Less)
                && is_variable(left, name)
                && is_number(right, PORT_WIDTH, ports)
        }
        _ => false,
    }
}

/// The one parameter, if there is just one.
fn only_param(params: &[Param]) -> Option<&Param>
    ensures { option_map (λ p. param_of p.now) result ≡ parts.only_param (map param_of params.now) }
{
    match params.split_first() {
        Some((param, rest)) => { if rest.is_empty() { Some(param) } else { None } }
        None => None,
    }
}

/// The first parameter and the other one, if there are just two.
fn param_pair(params: &[Param]) -> Option<(&Param, &Param)>
    ensures { option_map (λ t. (param_of t.0.now, param_of t.1.now)) result
        ≡ parts.param_pair (map param_of params.now) }
{
    let (first, rest) = params.split_first()?;
    let second = only_param(rest)?;
    Some((first, second))
}

/// Whether the guard is a call of a function that is defined at run time on the parameter.
fn is_host_call(names: &Declarations, design: &Design, param: &Param, guard: &Expr) -> bool
    requires { Declares names.now (design_of design.now) }
    ensures { result ≡ spec.host_guard (design_of design.now) (param_of param.now ∷ [])
        (expr_of guard.now) }
{
    match &guard.kind {
        ExprKind::Call(function, args) => {
            is_runtime(names, design, function.text.bytes())
                && is_argument(args, param.name.text.bytes())
        }
        _ => false,
    }
}

fn is_host_guard(names: &Declarations, design: &Design, role: &Role) -> bool
    requires { Declares names.now (design_of design.now) }
    ensures { result ≡ spec.host_guard (design_of design.now) (role_of role.now).params
        (role_of role.now).guard }
{
    match only_param(&role.params) {
        Some(param) => is_host_call(names, design, param, &role.guard),
        None => false,
    }
}

/// Whether both sides of the guard are as a switch role's.
fn is_switch_test(switch: &Param, port: &Param, ports: u32, guard: &Expr) -> bool
    ensures { result ≡ same_expr (expr_of guard.now) (parts.switch_test
        (spec.guard_function (expr_of guard.now)) (param_of switch.now) (param_of port.now) ports) }
{
    match &guard.kind {
        ExprKind::Binary(op, left, right) => {
            is_binary(*op, BinaryOp::And)
                && is_call_on(left, switch.name.text.bytes())
                && is_port_test(right, port.name.text.bytes(), ports)
        }
        _ => false,
    }
}

fn is_switch_guard(names: &Declarations, design: &Design, ports: u32, role: &Role) -> bool
    requires { Declares names.now (design_of design.now) }
    ensures { result ≡ spec.switch_guard (design_of design.now) ports (role_of role.now).params
        (role_of role.now).guard }
{
    match param_pair(&role.params) {
        Some((switch, port)) => {
            is_runtime(names, design, called_left(&role.guard))
                && is_switch_test(switch, port, ports, &role.guard)
        }
        None => false,
    }
}

/// Whether a role's guard is of this form.
fn fits(names: &Declarations, design: &Design, form: Form, role: &Role) -> bool
    requires { Declares names.now (design_of design.now) }
    ensures { result ≡ fits_by (design_of design.now) form (role_of role.now).params
        (role_of role.now).guard }
{
    match form {
        Form::Host => is_host_guard(names, design, role),
        Form::Switch(ports) => is_switch_guard(names, design, ports, role),
    }
}

/// Whether a role's guard is of this form, and by the same function as the first one if that is.
fn fits_first(names: &Declarations, design: &Design, form: Form, first: &Role, role: &Role) -> bool
    requires { Declares names.now (design_of design.now) }
    ensures { result ≡ parts.fits_first (design_of design.now) form (role_of first.now)
        (role_of role.now) }
{
    fits(names, design, form, role)
        && (!fits(names, design, form, first)
            || is_named(
                function_of(form, &first.guard),
                function_of(form, &role.guard),
            ))
}

/// Notes the guard of a role of this name, if it does not fit.
fn note_role(
    names: &Declarations,
    design: &Design,
    form: Form,
    first: &Role,
    name: &[u8],
    role: &Role,
    noted: &mut Noted,
)
    requires { Declares names.now (design_of design.now) }
    ensures { Notes (among guard_form (where_named name.now
        (other_guard (design_of design.now) form (role_of first.now)) (role_of role.now)))
        noted.old noted.new }
{
    among_laws();
    if is_named(name, role.name.text.bytes()) {
        let holds = fits_first(names, design, form, first, role);
        note_unless(noted, holds, TypeRule::GuardForm, role.guard.at);
    }
}

/// Notes the guards of a role that do not fit.
fn note_declared(
    names: &Declarations,
    design: &Design,
    form: Form,
    first: &Role,
    name: &[u8],
    roles: &[&Role],
    noted: &mut Noted,
)
    requires { Declares names.now (design_of design.now) }
    ensures { Notes (among guard_form
        (flat_map (other_guard (design_of design.now) form (role_of first.now))
        (declared_as name.now (map (λ r. role_of r.now) roles.now)))) noted.old noted.new }
{
    among_laws();
    for role in roles {
        note_role(names, design, form, first, name, role, noted);
    }
}

/// Notes the guards of two roles, the first and the second, that are not of a form.
fn note_guards(
    names: &Declarations,
    design: &Design,
    form: Form,
    role: &[u8],
    other: &[u8],
    roles: &[&Role],
    noted: &mut Noted,
)
    requires tables { Declares names.now (design_of design.now) }
    requires all { map (λ r. role_of r.now) roles.now ≡ roles_of (design_of design.now) }
    ensures { Notes (among guard_form
        (guards_by (fits_by (design_of design.now) form) (function_by form)
        (declared_as role.now (roles_of (design_of design.now))
        ++ declared_as other.now (roles_of (design_of design.now))))) noted.old noted.new }
{
    among_laws();
    match first_declared(names, design, role, other) {
        Some(first) => {
            note_declared(names, design, form, first, role, roles, noted);
            note_declared(names, design, form, first, other, roles, noted);
        }
        None => (),
    }
}

/// Notes the guards of the host roles.
fn note_host_guards(names: &Declarations, design: &Design, roles: &[&Role], noted: &mut Noted)
    requires tables { Declares names.now (design_of design.now) }
    requires all { map (λ r. role_of r.now) roles.now ≡ roles_of (design_of design.now) }
    ensures { Notes (among guard_form (host_guards (design_of design.now))) noted.old noted.new }
{
    among_laws();
    match host_roles(names, design) {
        Some((host, _, _)) => note_guards(
            names,
            design,
            Form::Host,
            host.entry.text.bytes(),
            host.sink.text.bytes(),
            roles,
            noted,
        ),
        None => (),
    }
}

/// Notes the guards of the switch roles.
fn note_switch_guards(names: &Declarations, design: &Design, roles: &[&Role], noted: &mut Noted)
    requires tables { Declares names.now (design_of design.now) }
    requires all { map (λ r. role_of r.now) roles.now ≡ roles_of (design_of design.now) }
    ensures { Notes (among guard_form (switch_guards (design_of design.now))) noted.old noted.new }
{
    among_laws();
    match names.switch(design) {
        Some(switch) => note_guards(
            names,
            design,
            Form::Switch(switch.ports),
            switch.into.text.bytes(),
            switch.out.text.bytes(),
            roles,
            noted,
        ),
        None => (),
    }
}

/// Notes guards, in a design with these roles, that are not of their form.
pub(crate) fn note_guard_form(
    names: &Declarations,
    design: &Design,
    roles: &[&Role],
    noted: &mut Noted,
)
    requires tables { Declares names.now (design_of design.now) }
    requires all { map (λ r. role_of r.now) roles.now ≡ roles_of (design_of design.now) }
    ensures { Notes (among guard_form (fails_at guard_form (design_of design.now)))
        noted.old noted.new }
{
    among_laws();
    note_host_guards(names, design, roles, noted);
    note_switch_guards(names, design, roles, noted);
}
