//! Lines, of which there are as many as headers.
ghost use Rattle.std.specs.Prelude.{◌≡◌, ◌<◌, ◌≤◌, IfOk, length};
ghost use Rattle.cocoon_num.specs.Tokens.{without_finish};
ghost use Rattle.p4_texts.specs.Machine as machine;
ghost use Rattle.p4_texts.specs.Machine.{a_line, a_member};
ghost use Rattle.p4_parse.specs.Lines.{line_end_goals, line_end_tokens, line_goals, line_tokens, lines_tokens, members_tokens};
ghost use Rattle.p4_parse.specs.Onward.{Several};
ghost use Rattle.p4_parse.specs.Phrases.{Phrase};
ghost use Rattle.p4_parse.specs.Pieces.{piece_text, piece_tokens};

use crate::Mark;
use crate::decls::member;
use crate::pieces::{Piece, expect_all, lexed};
use crate::source::Source;
use cocoon_num::Text;
use p4_texts::written::WrittenMember;
use parsing::Stop;
use std::alloc::Global;

/// So many lines of `struct Headers`.
pub fn members(
    alloc: Global,
    source: &Source,
    pos: usize,
    count: usize,
) -> Result<(Vec<WrittenMember>, usize), Stop>
    requires { pos ≤ length source.now }
    ensures is { Several (machine.lines count a_member) members_tokens source.now pos result }
    ensures count { IfOk result (λ r. length r.0.items ≡ count) }
{
    let mut members = Vec::new(alloc);
    let mut next = pos;
    'members: while members.len() < count {
        let (member, after) = member(alloc, source, next)?;
        members.push(member)?;
        next = after;
    }
    Ok((members, next))
}

/// `NAME);`
fn line_end(alloc: Global, source: &Source, pos: usize) -> Result<(Text, usize), Stop>
    requires { pos ≤ length source.now }
    ensures { Phrase line_end_goals line_end_tokens source.now pos result }
{
    let (name, close) = source.name(alloc, pos)?;
    let semicolon = source.expect(close, Mark::CloseParen)?;
    let end = source.expect(semicolon, Mark::Semicolon)?;
    Ok((name, end))
}

/// A line that begins with these tokens.
fn line(alloc: Global, source: &Source, pos: usize, begin: &Source) -> Result<(Text, usize), Stop>
    requires within { pos ≤ length source.now }
    requires some { 0 < length (without_finish begin.now) }
    ensures { Phrase
        (line_goals (without_finish begin.now)) (line_tokens (without_finish begin.now))
        source.now pos result }
{
    let name = expect_all(source, pos, begin)?;
    line_end(alloc, source, name)
}

/// So many lines that begin with this piece.
pub fn lines(
    alloc: Global,
    source: &Source,
    pos: usize,
    count: usize,
    begin: Piece,
) -> Result<(Vec<Text>, usize), Stop>
    requires { pos ≤ length source.now }
    ensures is { Several
        (machine.lines count (a_line (piece_text begin))) (lines_tokens (piece_tokens begin))
        source.now pos result }
    ensures count { IfOk result (λ r. length r.0.items ≡ count) }
{
    let tokens = lexed(alloc, begin)?;
    let begin = Source::new(begin.text().as_bytes(), &tokens);
    let mut names = Vec::new(alloc);
    let mut next = pos;
    'lines: while names.len() < count {
        let (name, after) = line(alloc, source, next, &begin)?;
        names.push(name)?;
        next = after;
    }
    Ok((names, next))
}
