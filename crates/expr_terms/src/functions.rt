//! In what expressions stand, and which function a name stands for there.
ghost use Rattle.std.specs.Prelude.{◌≡◌, ◌≤◌, length};
ghost use Rattle.cocoon_syntax.specs.TreeOf.{design_of, result_of};
ghost use Rattle.cocoon_types.specs.Design.{functions};
ghost use Rattle.bv_terms.specs.TermTrees.{IsWidth};
ghost use Rattle.obligation_laws.specs.TermOf.{result_width};
ghost use Rattle.expr_terms.specs.Finds.{number_in};
ghost use Rattle.expr_terms.specs.Sizes.{functions_before};

use crate::variables::is_same;
use cocoon_resolve::Checked;
use cocoon_syntax::{HeaderDecl, ResultKind};
use declarations::FunId;

/// What expressions see beside variables and fields.
#[derive(Clone, Copy, Drop)]
pub(crate) struct Scope<'d> {
    pub(crate) checked: &'d Checked,
    /// How many functions are seen: the first of the design.
    pub(crate) before: u32,
    /// None in a function.
    pub(crate) headers: &'d [HeaderDecl],
}

/// The number of the last function of a name among the first functions, so many.
pub(crate) fn find(checked: &Checked, before: u32, name: &[u8]) -> Option<FunId>
    requires { before ≤ length (functions (design_of checked.now)) }
    ensures { result ≡ number_in (functions_before (design_of checked.now) before) name.now }
{
    let mut at = before;
    while at > 0 {
        at -= 1;
        if is_same(name, checked.function(at).name.text.bytes()) {
            return Some(at);
        }
    }
    None
}

/// The width of the result of a function, in bits.
pub(crate) fn result_bits(kind: ResultKind) -> u8
    requires { IsWidth (result_width (result_of kind)) }
    ensures { result ≡ result_width (result_of kind) }
{
    match kind {
        ResultKind::Width(width) => width as u8,
        ResultKind::Truth => 1,
    }
}
