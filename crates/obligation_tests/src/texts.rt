//! The design and the definitions of texts, and of a case.
ghost use Rattle.std.specs.Prelude.{IfSome};
ghost use Rattle.cocoon_num.specs.Reads.{Reads};
ghost use Rattle.cocoon_syntax.specs.TreeOf.{design_of};
ghost use Rattle.runtime_defs.specs.Fitting.{FitsDesign};

use case_files::{Printer, last_line, put_expanded, put_framed};
use cocoon_resolve::{Checked, resolve};
use cocoon_syntax::Design;
use cocoon_text::{read_defs, read_design};
use runtime_defs::{Defs, bind};
use std::alloc::Global;

/// A text has fewer bytes than this.
const TOO_LONG: usize = 0x8000_0000;

/// The design of a text that has one, by all rules.
pub fn checked_design(alloc: Global, text: &[u8]) -> Option<Checked> {
    if text.len() >= TOO_LONG {
        return None;
    }
    match read_design(alloc, text) {
        Ok(design) => resolved(alloc, text, design),
        Err(_) => None,
    }
}

/// The design of a text, if it keeps all rules.
fn resolved(alloc: Global, text: &[u8], design: Design) -> Option<Checked>
    requires { Reads text.now (design_of design) }
{
    resolve(alloc, design).ok()
}

/// The definitions of a text that has some.
pub fn definitions(alloc: Global, checked: &Checked, text: &[u8]) -> Option<Defs>
    ensures { IfSome result (λ defs. FitsDesign (design_of checked.now) defs) }
{
    if text.len() >= TOO_LONG {
        return None;
    }
    match read_defs(alloc, text) {
        Ok(entries) => match bind(alloc, checked, entries) {
            Ok(defs) => Some(defs),
            Err(_) => None,
        },
        Err(_) => None,
    }
}

/// A design with its definitions.
#[derive(Drop)]
pub struct Question {
    pub checked: Checked,
    pub defs: Defs,
}

impl Question {
    /// The design of the frame in the last line `design` with these declarations in it, and the definitions of the last
    /// line `definitions`.
    pub fn read(rt: &HostRuntime, above: &str, declared: &str) -> Option<Question> {
        let alloc = rt.alloc();
        let mut text = Printer::new(alloc);
        put_framed(rt, last_line(above, "design")?, declared, &mut text);
        let checked = checked_design(alloc, text.text().as_bytes())?;
        let mut text = Printer::new(alloc);
        put_expanded(rt, last_line(above, "definitions")?, &mut text);
        let defs = definitions(alloc, &checked, text.text().as_bytes())?;
        Some(Question { checked, defs })
    }
}
