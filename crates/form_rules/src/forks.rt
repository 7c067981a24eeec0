//! Forks of the first switch role.
ghost use Rattle.form_rules.specs.Stmts.{holds_fork};
ghost use Rattle.form_rules.specs.Tested.{fork_fails};
ghost use Rattle.cocoon_num.specs.Tree.{Block, fork};
ghost use Rattle.cocoon_syntax.specs.TreeOf.{design_of, expr_of, name_of};
ghost use Rattle.cocoon_types.specs.FormRules as spec;
ghost use Rattle.cocoon_types.specs.Noting.{Notes};
ghost use Rattle.cocoon_types.specs.Rules.{fork_form};
ghost use Rattle.declarations.specs.Declares.{Declares};
ghost use Rattle.cocoon_types.specs.Among.{among};
ghost use Rattle.std.specs.Prelude.{◌≡◌, ◌&&◌, map, not, reverse, ℕ};

use crate::exprs::{is_variable, mentions_in};
use crate::sends::Sender;
use cocoon_syntax::{Design, Expr, ExprKind, Name};
use cocoon_types::{Noted, TypeRule, among_laws, note_unless};
use declarations::Declarations;

/// A function is declared without a body.
fn is_runtime(names: &Declarations, design: &Design, function: &[u8]) -> bool
    requires { Declares names.now (design_of design.now) }
    ensures { result ≡ spec.is_runtime (design_of design.now) function.now }
{
    match names.function_named(design, function) {
        Some(declared) => declared.body.is_none(),
        None => false,
    }
}

/// The last of some values is a variable, and one or more others are without it.
fn ends_with(variable: &[u8], args: &[Expr]) -> bool
    ensures { result ≡ spec.ends_with variable.now (reverse (map expr_of args.now)) }
{
    match args.split_last() {
        Some((last, others)) => {
            is_variable(last, variable) && !others.is_empty() && !mentions_in(variable, others)
        }
        None => false,
    }
}

/// A condition is of the form that those of forks have.
fn is_condition(names: &Declarations, design: &Design, variable: &Name, condition: &Expr) -> bool
    requires { Declares names.now (design_of design.now) }
    ensures { result ≡ spec.fork_condition (design_of design.now) (name_of variable.now).text
        (expr_of condition.now) }
{
    match &condition.kind {
        ExprKind::Call(function, args) => {
            is_runtime(names, design, function.text.bytes())
                && ends_with(variable.text.bytes(), args)
        }
        _ => false,
    }
}

/// A fork is of its form, where it is known whether its block has a fork.
fn is_formed(
    names: &Declarations,
    design: &Design,
    variable: &Name,
    condition: &Expr,
    forks: bool,
) -> bool
    requires { Declares names.now (design_of design.now) }
    ensures { result ≡ (spec.fork_condition (design_of design.now) (name_of variable.now).text
        (expr_of condition.now) && not forks) }
{
    is_condition(names, design, variable, condition) && !forks
}

/// Notes a fork of the first switch role that is not of its form, where it is known whether its
/// block has a fork. There is nothing where the role is another.
pub(crate) fn note_fork(
    names: &Declarations,
    design: &Design,
    sender: Option<Sender<'_>>,
    at: u32,
    variable: &Name,
    condition: &Expr,
    forks: bool,
    noted: &mut Noted,
)
    requires { Declares names.now (design_of design.now) }
    ensures { (w : ℕ) (b : Block) → forks ≡ holds_fork b
        → Notes (among fork_form (fork_fails (design_of design.now) sender.entry
        (fork at (name_of variable.now) w (expr_of condition.now) b)))
        noted.old noted.new }
{
    among_laws();
    if sender.is_some() {
        note_unless(
            noted,
            is_formed(names, design, variable, condition, forks),
            TypeRule::ForkForm,
            at,
        );
    }
}
