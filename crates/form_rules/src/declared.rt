//! The declarations of roles.
ghost use Rattle.std.specs.Prelude.{◌≡◌, ◌++◌, filter_map, IfOk, map, OnOk, option_map, option_to_list};
ghost use Rattle.cocoon_num.specs.Lists.{first_of};
ghost use Rattle.cocoon_syntax.specs.TreeOf.{decl_of, design_of, host_of, role_of};
ghost use Rattle.cocoon_types.specs.Design.{as_role};
ghost use Rattle.cocoon_types.specs.FormRules.{declared_as};
ghost use Rattle.cocoon_types.specs.RuleParts.{roles_of};
ghost use Rattle.declarations.specs.Declares.{Declares};
ghost use Rattle.form_rules.specs.Parts as spec;
ghost use Rattle.form_rules.specs.Parts.{hosts_with};

use cocoon_num::NoMemory;
use cocoon_syntax::{Decl, Design, HostDecl, Role};
use declarations::Declarations;
use std::alloc::Global;

/// The declarations of roles of a design, in the order of the text.
pub(crate) fn all_roles<'d>(alloc: Global, design: &'d Design) -> Result<Vec<&'d Role>, NoMemory>
    ensures { IfOk result (λ roles.
        map (λ r. role_of r.now) roles.items ≡ roles_of (design_of design.now)) }
{
    let mut roles = Vec::new(alloc);
    push_roles(&mut roles, &design.decls)?;
    for block in &design.refines {
        push_roles(&mut roles, &block.decls)?;
    }
    Ok(roles)
}

fn push_roles<'d>(roles: &mut Vec<&'d Role>, decls: &'d [Decl]) -> Result<(), NoMemory>
    ensures { OnOk result (map (λ r. role_of r.now) roles.new.items
        ≡ map (λ r. role_of r.now) roles.old.items ++ filter_map as_role (map decl_of decls.now)) }
{
    for decl in decls {
        push_role(roles, decl)?;
    }
    Ok(())
}

/// Pushes the role, if the declaration is one.
fn push_role<'d>(roles: &mut Vec<&'d Role>, decl: &'d Decl) -> Result<(), NoMemory>
    ensures { OnOk result (map (λ r. role_of r.now) roles.new.items
        ≡ map (λ r. role_of r.now) roles.old.items ++ option_to_list (as_role (decl_of decl.now))) }
{
    match decl {
        Decl::Role(role) => roles.push(role)?,
        _ => (),
    }
    Ok(())
}

/// The declaration of the host roles, and the entry role and the sink at level 0.
pub(crate) fn host_roles<'d>(
    names: &Declarations,
    design: &'d Design,
) -> Option<(&'d HostDecl, &'d Role, &'d Role)>
    requires { Declares names.now (design_of design.now) }
    ensures { option_map (λ t. hosts_with (host_of t.0.now) (role_of t.1.now) (role_of t.2.now))
        result ≡ spec.host_roles (design_of design.now) }
{
    let host = names.host(design)?;
    let entry = names.role_at(design, host.entry.text.bytes(), 0)?;
    let sink = names.role_at(design, host.sink.text.bytes(), 0)?;
    Some((host, entry, sink))
}

/// The first declaration of a role, or of another one where it has none.
pub(crate) fn first_declared<'d>(
    names: &Declarations,
    design: &'d Design,
    role: &[u8],
    other: &[u8],
) -> Option<&'d Role>
    requires { Declares names.now (design_of design.now) }
    ensures { option_map (λ r. role_of r.now) result
        ≡ first_of (declared_as role.now (roles_of (design_of design.now))
        ++ declared_as other.now (roles_of (design_of design.now))) }
{
    match names.first_role(design, role) {
        Some(first) => Some(first),
        None => names.first_role(design, other),
    }
}
