//! The parameters of the switch roles.
ghost use Rattle.std.specs.Prelude.{◌≡◌, ◌==◌, flat_map, if◌then◌else◌, map};
ghost use Rattle.std.specs.List.{list_all};
ghost use Rattle.cocoon_syntax.specs.TreeOf.{design_of, param_of, role_of};
ghost use Rattle.cocoon_types.specs.Design.{widths_of};
ghost use Rattle.cocoon_types.specs.FormRules as spec;
ghost use Rattle.cocoon_types.specs.FormRules.{declared_as, switch_declared};
ghost use Rattle.cocoon_types.specs.Noting.{Notes};
ghost use Rattle.cocoon_types.specs.RuleParts.{roles_of};
ghost use Rattle.cocoon_types.specs.Rules.{not_switch_form};
ghost use Rattle.declarations.specs.Declares.{Declares};
ghost use Rattle.cocoon_types.specs.Among.{among};
ghost use Rattle.form_rules.specs.Parts.{not_two_ports, where_named};

use crate::same_trees::is_named;
use cocoon_syntax::{Design, Param, Role};
use cocoon_types::{Noted, TypeRule, among_laws, note_unless};
use declarations::Declarations;

/// The width of switches and of ports, in bits.
pub(crate) const PORT_WIDTH: u8 = 16;

fn are_ports(params: &[Param]) -> bool
    ensures { result ≡ list_all (λ w. w == 16) (widths_of (map param_of params.now)) }
{
    for param in params {
        if param.width != u32::from(PORT_WIDTH) {
            return false;
        }
    }
    true
}

/// Whether the parameters are a switch and a port.
fn two_ports(role: &Role) -> bool
    ensures { result ≡ spec.two_ports (role_of role.now) }
{
    role.params.len() == 2 && are_ports(&role.params)
}

/// Notes a role of this name, if its parameters are others.
fn note_role(name: &[u8], role: &Role, noted: &mut Noted)
    ensures { Notes (among not_switch_form
        (where_named name.now not_two_ports (role_of role.now))) noted.old noted.new }
{
    among_laws();
    if is_named(name, role.name.text.bytes()) {
        let fits = two_ports(role);
        note_unless(noted, fits, TypeRule::NotSwitchForm, role.name.at);
    }
}

/// Notes the declarations of a switch role that have other parameters.
fn note_declared(name: &[u8], roles: &[&Role], noted: &mut Noted)
    ensures { Notes (among not_switch_form
        (flat_map not_two_ports (declared_as name.now (map (λ r. role_of r.now) roles.now))))
        noted.old noted.new }
{
    among_laws();
    for role in roles {
        note_role(name, role, noted);
    }
}

/// Notes declarations of the switch roles that have other parameters, in a design with these roles.
pub(crate) fn note_not_switch_form(
    names: &Declarations,
    design: &Design,
    roles: &[&Role],
    noted: &mut Noted,
)
    requires tables { Declares names.now (design_of design.now) }
    requires all { map (λ r. role_of r.now) roles.now ≡ roles_of (design_of design.now) }
    ensures { Notes (among not_switch_form
        (flat_map not_two_ports (switch_declared (design_of design.now)))) noted.old noted.new }
{
    among_laws();
    match names.switch(design) {
        Some(switch) => {
            note_declared(switch.into.text.bytes(), roles, noted);
            note_declared(switch.out.text.bytes(), roles, noted);
        }
        None => (),
    }
}
