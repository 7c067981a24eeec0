//! The parts of a line.
ghost use Rattle.std.specs.Prelude.{◌≡◌, IfOk, map};
ghost use Rattle.text_lines.specs.Lines.{parts_of};

use crate::pieces::{behind, len_before, prefix};
use cocoon_num::NoMemory;
use std::alloc::Global;

const SPACE: u8 = b' ';

/// The parts of what stands in a line. Where two spaces stand side by side, or one at an end, there is an empty part.
pub fn split_parts<'t>(alloc: Global, line: &'t [u8]) -> Result<Vec<&'t [u8]>, NoMemory>
    ensures { IfOk result (λ v. map (λ part. part.now) v.items ≡ parts_of line.now) }
{
    let mut parts = Vec::new(alloc);
    let mut rest = line;
    loop {
        let len = len_before(rest, SPACE);
        parts.push(prefix(rest, len))?;
        if len == rest.len() {
            return Ok(parts);
        }
        rest = behind(rest, len);
    }
}
