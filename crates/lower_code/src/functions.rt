//! In what bodies are lowered, and which function a name stands for there.
ghost use Rattle.std.specs.Prelude.{◌≡◌, ◌≤◌};
ghost use Rattle.lower_code.specs.Scopes.{design_in, functions_before, number_in, SeesFunctions};

use crate::places::is_same;
use cocoon_resolve::Checked;
use declarations::FunId;

/// What a body sees beside its variables.
#[derive(Clone, Copy, Drop)]
pub struct Scope<'d> {
    pub checked: &'d Checked,
    /// How many functions are seen: the first of the design.
    pub before: u32,
    /// The name of the parameter that is the port; none in a function.
    pub port: &'d [u8],
}

/// The number of the last function of a name among those that are seen.
pub(crate) fn find(scope: &Scope<'_>, name: &[u8]) -> Option<FunId>
    requires { SeesFunctions scope.now }
    ensures { result
        ≡ number_in (functions_before (design_in scope.now) scope.now.before) name.now }
{
    let mut at = scope.before;
    while at > 0 {
        at -= 1;
        if is_same(name, scope.checked.function(at).name.text.bytes()) {
            return Some(at);
        }
    }
    None
}
