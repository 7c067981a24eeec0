//! A design and its definitions, from their texts.
ghost use Rattle.std.specs.Prelude.{IfSome};
ghost use Rattle.cocoon_num.specs.Reads.{Reads};
ghost use Rattle.cocoon_syntax.specs.TreeOf.{design_of};
ghost use Rattle.runtime_defs.specs.Fitting.{FitsDesign};

use cocoon_resolve::{Checked, resolve};
use cocoon_syntax::Design;
use cocoon_text::{read_defs, read_design};
use runtime_defs::{Defs, bind};
use std::alloc::Global;

/// A text has fewer bytes than this.
pub const TOO_LONG: usize = 0x8000_0000;

/// The design of a text that has one, by all rules.
pub fn checked_design(alloc: Global, text: &[u8]) -> Option<Checked> {
    if text.len() >= TOO_LONG {
        return None;
    }
    match read_design(alloc, text) {
        Ok(design) => resolved(alloc, text, design),
        Err(_) => None,
    }
}

/// The design of a text, if it keeps all rules.
fn resolved(alloc: Global, text: &[u8], design: Design) -> Option<Checked>
    requires { Reads text.now (design_of design) }
{
    match resolve(alloc, design) {
        Ok(checked) => Some(checked),
        Err(_) => None,
    }
}

/// The definitions of a text that fit the design.
pub fn bound(alloc: Global, checked: &Checked, text: &[u8]) -> Option<Defs>
    ensures { IfSome result (λ defs. FitsDesign (design_of checked.now) defs) }
{
    if text.len() >= TOO_LONG {
        return None;
    }
    match read_defs(alloc, text) {
        Ok(entries) => match bind(alloc, checked, entries) {
            Ok(defs) => Some(defs),
            Err(_) => None,
        },
        Err(_) => None,
    }
}
