//! Positions: lines and columns, by which a report names a byte of a text.
ghost use Rattle.std.specs.Prelude.{◌≡◌, ◌<◌, ◌≤◌, ◌^◌, length};
ghost use Rattle.cocoon_text.specs.Position.{column_of, line_of};

/// The line and the column of an offset, both from 1. A column counts bytes.
#[tactic(auto, using(crate::proofs::Columns::next_column))]
pub fn position_at(text: &[u8], offset: u32) -> (u32, u32)
    requires small { length text.now < 2 ^ 31 }
    requires within { offset ≤ length text.now }
    ensures line { result.0 ≡ line_of text.now offset }
    ensures column { result.1 ≡ column_of text.now offset }
{
    let (before, _) = text.split_at(offset as usize);
    let mut line = 1;
    let mut column = 1;
    for byte in before {
        if *byte == b'\n' {
            line += 1;
            column = 1;
        } else {
            column += 1;
        }
    }
    (line, column)
}
