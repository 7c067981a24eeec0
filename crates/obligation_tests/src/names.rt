//! Names of roles.
use cocoon_resolve::Checked;
use cocoon_syntax::Decl;
use declarations::RoleId;

/// The name of a role among declarations.
fn name_among<'d>(checked: &Checked, decls: &'d [Decl], role: RoleId) -> Option<&'d [u8]> {
    for decl in decls {
        if let Decl::Role(declared) = decl {
            let name = declared.name.text.bytes();
            if checked.role_of(name) == Some(role) {
                return Some(name);
            }
        }
    }
    None
}

/// The name of a role of a design.
pub fn role_name(checked: &Checked, role: RoleId) -> Option<&[u8]> {
    let design = checked.design();
    if let Some(name) = name_among(checked, &design.decls, role) {
        return Some(name);
    }
    for block in &design.refines {
        if let Some(name) = name_among(checked, &block.decls, role) {
            return Some(name);
        }
    }
    None
}
