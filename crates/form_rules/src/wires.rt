//! Wires: what their statements may be, and to which roles they send.
ghost use Rattle.form_rules.specs.Stmts as spec;
ghost use Rattle.form_rules.specs.Stmts.{fields_at};
ghost use Rattle.form_rules.specs.Tested.{wire_fails};
ghost use Rattle.cocoon_syntax.specs.TreeOf.{host_of, name_of, stmt_of, switch_of};
ghost use Rattle.cocoon_types.specs.FormRules.{is_wire as is_wire_of, wire_send};
ghost use Rattle.cocoon_types.specs.Noting.{Notes};
ghost use Rattle.cocoon_types.specs.Rules.{not_wire};
ghost use Rattle.cocoon_types.specs.Among.{among};
ghost use Rattle.std.specs.Prelude.{◌≡◌};

use crate::exprs::{is_same, note_fields, note_fields_of};
use cocoon_syntax::{HostDecl, Name, Stmt, StmtKind, SwitchDecl};
use cocoon_types::{Noted, TypeRule, among_laws, note_unless};

/// A role that is a wire, by its name, and where hosts and switches are declared.
#[derive(Clone, Copy, Drop)]
pub(crate) struct Wire<'d> {
    pub host: &'d HostDecl,
    pub switch: &'d SwitchDecl,
    pub name: &'d Name,
}

/// The role of this name is a wire: it is not the sink, and not the first switch role alone.
pub(crate) fn is_wire(host: &HostDecl, switch: &SwitchDecl, name: &Name) -> bool
    ensures { result ≡
        is_wire_of (host_of host.now) (switch_of switch.now) (name_of name.now) }
{
    let text = name.text.bytes();
    !is_same(text, host.sink.text.bytes())
        && (!is_same(text, switch.into.text.bytes()) || is_same(text, switch.out.text.bytes()))
}

/// A wire may send to this role.
fn may_send(wire: &Wire<'_>, role: &Name) -> bool
    ensures { result ≡ wire_send (host_of wire.now.host.now) (switch_of wire.now.switch.now)
        (name_of wire.now.name.now) (name_of role.now) }
{
    let text = role.text.bytes();
    is_same(text, wire.switch.into.text.bytes())
        || is_same(text, wire.host.sink.text.bytes())
            && !is_same(wire.name.text.bytes(), wire.host.entry.text.bytes())
}

/// A wire may have such a statement, its expressions aside.
fn may_have(wire: &Wire<'_>, stmt: &Stmt) -> bool
    ensures { result ≡ spec.may_have (host_of wire.now.host.now) (switch_of wire.now.switch.now)
        (name_of wire.now.name.now) (stmt_of stmt.now) }
{
    match &stmt.kind {
        StmtKind::If(_, _, _) => true,
        StmtKind::Send(role, _) => may_send(wire, role),
        _ => false,
    }
}

/// Notes each `pkt` in the expressions that stand in a statement of a wire itself.
fn note_reads(stmt: &Stmt, noted: &mut Noted)
    ensures { Notes (among not_wire (fields_at (stmt_of stmt.now))) noted.old noted.new }
{
    among_laws();
    match &stmt.kind {
        StmtKind::Let(_, _, value) => note_fields(value, noted),
        StmtKind::SetField(_, _, value) => note_fields(value, noted),
        StmtKind::If(condition, _, _) => note_fields(condition, noted),
        StmtKind::Filter(condition) => note_fields(condition, noted),
        StmtKind::Assume(condition) => note_fields(condition, noted),
        StmtKind::Fork(_, _, condition, _) => note_fields(condition, noted),
        StmtKind::Send(_, args) => note_fields_of(args, noted),
        StmtKind::HavocVar(_, _) => (),
        StmtKind::HavocField(_, _) => (),
    }
}

/// Notes what a wire may not have or read, in a statement itself. There is nothing where the role
/// is no wire.
pub(crate) fn note_wire(wire: Option<Wire<'_>>, stmt: &Stmt, noted: &mut Noted)
    ensures { Notes (among not_wire (wire_fails wire.entry (stmt_of stmt.now)))
        noted.old noted.new }
{
    among_laws();
    if let Some(wire) = wire {
        note_unless(noted, may_have(&wire, stmt), TypeRule::NotWire, stmt.at);
        note_reads(stmt, noted);
    }
}
