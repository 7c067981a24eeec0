//! To where the first switch role sends.
ghost use Rattle.form_rules.specs.Stmts as spec;
ghost use Rattle.form_rules.specs.Tested.{send_fails};
ghost use Rattle.cocoon_syntax.specs.TreeOf.{expr_of, exprs_of, name_of, param_of, stmt_of};
ghost use Rattle.cocoon_types.specs.FormRules as forms;
ghost use Rattle.cocoon_types.specs.Noting.{Notes};
ghost use Rattle.cocoon_types.specs.Rules.{not_switch_form};
ghost use Rattle.cocoon_types.specs.Among.{among};
ghost use Rattle.std.specs.Prelude.{◌≡◌, map, option_map};

use crate::exprs::{is_same, is_variable};
use cocoon_syntax::{Expr, Name, Param, Stmt, StmtKind};
use cocoon_types::{Noted, TypeRule, among_laws, note_unless};

/// The first switch role: the name of the second one, and its own first parameter.
#[derive(Clone, Copy, Drop)]
pub(crate) struct Sender<'d> {
    pub out: &'d [u8],
    pub own: Option<&'d Param>,
}

/// A `send` is to the second switch role at the own switch.
fn is_own_out(sender: &Sender<'_>, role: &Name, args: &[Expr]) -> bool
    ensures { result ≡ forms.is_own_out sender.now.out.now
        (option_map (λ p. param_of p.now) sender.now.own)
        (name_of role.now) (exprs_of (map expr_of args.now)) }
{
    let (Some(own), Some((first, rest))) = (sender.own, args.split_first()) else {
        return false;
    };
    is_same(role.text.bytes(), sender.out)
        && is_variable(first, own.name.text.bytes())
        && rest.len() == 1
}

/// A statement is no `send` to anything else.
fn sends_own(sender: &Sender<'_>, stmt: &Stmt) -> bool
    ensures { result ≡ spec.sends_own sender.now.out.now
        (option_map (λ p. param_of p.now) sender.now.own) (stmt_of stmt.now) }
{
    match &stmt.kind {
        StmtKind::Send(role, args) => is_own_out(sender, role, args),
        _ => true,
    }
}

/// Notes a `send` of the first switch role that is not to the second at the own switch. There is
/// nothing where the role is another.
pub(crate) fn note_send(sender: Option<Sender<'_>>, stmt: &Stmt, noted: &mut Noted)
    ensures { Notes (among not_switch_form (send_fails sender.entry (stmt_of stmt.now)))
        noted.old noted.new }
{
    among_laws();
    if let Some(sender) = sender {
        note_unless(
            noted,
            sends_own(&sender, stmt),
            TypeRule::NotSwitchForm,
            stmt.at,
        );
    }
}
