//! Levels, and roles among their declarations.
ghost use Rattle.std.specs.Prelude.{◌≡◌, ◌+◌, IfOk, option_map};
ghost use Rattle.cocoon_syntax.specs.TreeOf.{decl_of, role_of};
ghost use Rattle.cocoon_types.specs.Design.{as_role};

use cocoon_num::NoMemory;
use cocoon_syntax::{Decl, Role};

/// The level below.
pub(crate) fn next_level(level: u32) -> Result<u32, NoMemory>
    ensures { IfOk result (λ next. next ≡ level + 1) }
{
    level.checked_add(1).ok_or(NoMemory)
}

/// The declaration, if it is a role.
pub(crate) fn role_in<'d>(decl: &'d Decl) -> Option<&'d Role>
    ensures { option_map (λ r. role_of r.now) result ≡ as_role (decl_of decl.now) }
{
    match decl {
        Decl::Role(role) => Some(role),
        _ => None,
    }
}
