//! The forms of the entry role and the sink, and which roles have bodies.
ghost use Rattle.std.specs.Prelude.{◌≡◌, ◌==◌, flat_map, if◌then◌else◌, length, map, nat_lt};
ghost use Rattle.cocoon_syntax.specs.TreeOf.{design_of, host_of, role_of};
ghost use Rattle.cocoon_types.specs.Noting.{Notes};
ghost use Rattle.cocoon_types.specs.RuleParts.{roles_of};
ghost use Rattle.cocoon_types.specs.Rules.{fails_at, sink_form};
ghost use Rattle.declarations.specs.Declares.{Declares};
ghost use Rattle.cocoon_types.specs.Among.{among};
ghost use Rattle.form_rules.specs.Parts.{bodiless, host_faults};

use crate::declared::host_roles;
use crate::same_trees::{is_named, is_truth, same_params};
use cocoon_syntax::{Design, HostDecl, Role};
use cocoon_types::{Noted, TypeRule, among_laws, note_unless};
use declarations::Declarations;

/// Notes roles that have a body and are the sink, or have none and are not.
fn note_bodiless(sink: &[u8], roles: &[&Role], noted: &mut Noted)
    ensures { Notes (among sink_form
        (flat_map (bodiless sink.now) (map (λ r. role_of r.now) roles.now))) noted.old noted.new }
{
    among_laws();
    for role in roles {
        let fits = is_truth(is_named(role.name.text.bytes(), sink), role.body.is_none());
        note_unless(noted, fits, TypeRule::SinkForm, role.name.at);
    }
}

fn lesser(first: u32, second: u32) -> u32
    ensures { result ≡ (if nat_lt first second then first else second) }
{
    if first < second { first } else { second }
}

fn has_one_param(role: &Role) -> bool
    ensures { result ≡ (length (role_of role.now).params == 1) }
{
    role.params.len() == 1
}

/// Notes what is wrong with the entry role and the sink.
fn note_hosts(host: &HostDecl, entry: &Role, sink: &Role, roles: &[&Role], noted: &mut Noted)
    ensures { Notes (among sink_form (host_faults (host_of host.now) (role_of entry.now)
        (role_of sink.now) (map (λ r. role_of r.now) roles.now))) noted.old noted.new }
{
    among_laws();
    let rule = TypeRule::SinkForm;
    let apart = !is_named(host.entry.text.bytes(), host.sink.text.bytes());
    note_unless(noted, apart, rule, entry.name.at);
    note_bodiless(host.sink.text.bytes(), roles, noted);
    note_unless(noted, has_one_param(entry), rule, entry.name.at);
    note_unless(noted, has_one_param(sink), rule, sink.name.at);
    let same = same_params(&entry.params, &sink.params);
    note_unless(noted, same, rule, lesser(sink.name.at, entry.name.at));
}

/// Notes what is wrong with the entry role and the sink of a design with these roles.
pub(crate) fn note_sink_form(
    names: &Declarations,
    design: &Design,
    roles: &[&Role],
    noted: &mut Noted,
)
    requires tables { Declares names.now (design_of design.now) }
    requires all { map (λ r. role_of r.now) roles.now ≡ roles_of (design_of design.now) }
    ensures { Notes (among sink_form (fails_at sink_form (design_of design.now)))
        noted.old noted.new }
{
    among_laws();
    match host_roles(names, design) {
        Some((host, entry, sink)) => note_hosts(host, entry, sink, roles, noted),
        None => (),
    }
}
