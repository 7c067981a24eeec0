//! The lines of a file.
ghost use Rattle.std.specs.Prelude.{◌≡◌, ◌∷◌, ◌<◌, ◌≤◌, IfOk, length, map};
ghost use Rattle.text_lines.specs.LineOf.{line_of};
ghost use Rattle.text_lines.specs.Lines.{line_bytes, filled_lines, line_count};

use crate::pieces::{behind, len_before, prefix};
use cocoon_num::NoMemory;
use std::alloc::Global;

const LINE_FEED: u8 = b'\n';

/// A line that is not empty.
#[derive(Clone, Copy, Debug, Drop)]
pub struct Line<'t> {
    /// Its number among all lines of the file, from 1.
    pub number: u64,
    /// Its bytes, without the line feed that ends it.
    pub bytes: &'t [u8],
}

/// The lines of a file.
#[derive(Drop)]
pub struct Lines<'t> {
    /// Those that are not empty, in their order.
    pub filled: Vec<Line<'t>>,
    /// How many lines there are, the empty ones too.
    pub count: u64,
}

/// What stands in the first line of some bytes, and the bytes behind it.
fn split_line(text: &[u8]) -> (&[u8], &[u8])
    requires { 0 < length text.now }
    ensures lines { line_bytes text.now ≡ result.0.now ∷ line_bytes result.1.now }
    ensures fewer { length result.1.now < length text.now }
{
    let len = len_before(text, LINE_FEED);
    (prefix(text, len), behind(text, len))
}

/// The lines of a file. Each byte is looked at once.
pub fn split_lines<'t>(alloc: Global, text: &'t [u8]) -> Result<Lines<'t>, NoMemory>
    ensures filled { IfOk result (λ lines. map line_of lines.filled.items ≡ filled_lines text.now) }
    ensures count { IfOk result (λ lines. lines.count ≡ line_count text.now) }
    ensures few { IfOk result (λ lines. lines.count ≤ length text.now) }
{
    let mut filled = Vec::new(alloc);
    let mut count = 0;
    let mut rest = text;
    while !rest.is_empty() {
        let (bytes, after) = split_line(rest);
        count += 1;
        if !bytes.is_empty() {
            filled.push(Line {
                number: count,
                bytes,
            })?;
        }
        rest = after;
    }
    Ok(Lines { filled, count })
}
