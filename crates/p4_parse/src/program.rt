//! Whole texts, part by part.
ghost use Rattle.std.specs.Prelude.{◌≡◌, ◌≤◌, [], ◌∷◌, IfOk, length};
ghost use Rattle.p4_texts.specs.Machine as machine;
ghost use Rattle.p4_parse.specs.Lines.{after_headers, control_goals, control_tokens, declarations_goals, declarations_tokens, ended_goals, headers_tokens, listed_goals, listed_tokens};
ghost use Rattle.p4_parse.specs.Onward.{Onwards, Several};
ghost use Rattle.p4_parse.specs.Phrases.{Phrase};
ghost use Rattle.p4_parse.specs.Program.{EndAt, ProgramAt};

use crate::Mark;
use crate::decls::{fields, header};
use crate::lines::{lines, members};
use crate::pieces::{Piece, expect_piece};
use crate::source::Source;
use crate::stmts::block;
use crate::tables::tables;
use cocoon_num::{List, Text};
use p4_texts::written::{
    WrittenControl, WrittenField, WrittenHeader, WrittenMember, WrittenProgram,
};
use parsing::Stop;
use std::alloc::Global;

/// Headers up to `struct`.
fn headers(alloc: Global, source: &Source, pos: usize) -> Result<(Vec<WrittenHeader>, usize), Stop>
    requires { pos ≤ length source.now }
    ensures { Onwards
        (machine.headers 0 ∷ []) after_headers headers_tokens source.now pos result }
{
    let mut headers = Vec::new(alloc);
    let mut next = pos;
    'headers: while source.is_word(next, "header") {
        let (header, after) = header(alloc, source, next)?;
        headers.push(header)?;
        next = after;
    }
    Ok((headers, next))
}

/// The lines of `struct Headers`, and the fields of `struct Meta`.
fn declarations(
    alloc: Global,
    source: &Source,
    pos: usize,
    count: usize,
) -> Result<((Vec<WrittenMember>, Vec<WrittenField>), usize), Stop>
    requires { pos ≤ length source.now }
    ensures is { Several
        (declarations_goals count) declarations_tokens source.now pos result }
    ensures count { IfOk result (λ r. length r.0.0.items ≡ count) }
{
    let first = expect_piece(alloc, source, pos, Piece::Headers)?;
    let (members, last) = members(alloc, source, first, count)?;
    let meta = expect_piece(alloc, source, last, Piece::Meta)?;
    let (fields, end) = fields(alloc, source, meta)?;
    Ok(((members, fields), end))
}

/// A fixed piece, and so many lines that begin with another.
fn listed(
    alloc: Global,
    source: &Source,
    pos: usize,
    count: usize,
    head: Piece,
    begin: Piece,
) -> Result<(Vec<Text>, usize), Stop>
    requires { pos ≤ length source.now }
    ensures is { Several
        (listed_goals head begin count) (listed_tokens head begin) source.now pos result }
    ensures count { IfOk result (λ r. length r.0.items ≡ count) }
{
    let first = expect_piece(alloc, source, pos, head)?;
    lines(alloc, source, first, count, begin)
}

/// A fixed piece, and the control that it begins, up to its end.
fn control(
    alloc: Global,
    source: &Source,
    pos: usize,
    head: Piece,
    begin: Piece,
) -> Result<(WrittenControl, usize), Stop>
    requires { pos ≤ length source.now }
    ensures { Phrase
        (control_goals head begin) (control_tokens head begin) source.now pos result }
{
    let first = expect_piece(alloc, source, pos, head)?;
    let (tables, brace) = tables(alloc, source, first)?;
    let open = source.expect(brace, Mark::OpenBrace)?;
    let start = expect_piece(alloc, source, open, begin)?;
    let (body, close) = block(alloc, source, start)?;
    let end = source.expect(close, Mark::CloseBrace)?;
    let tables = List::from(tables);
    let body = List::from(body);
    Ok((WrittenControl { tables, body }, end))
}

/// The lines of the parser.
fn extracts(
    alloc: Global,
    source: &Source,
    pos: usize,
    count: usize,
) -> Result<(Vec<Text>, usize), Stop>
    requires { pos ≤ length source.now }
    ensures is { Several
        (listed_goals Piece.Parser Piece.Extract count)
        (listed_tokens Piece.Parser Piece.Extract) source.now pos result }
    ensures count { IfOk result (λ r. length r.0.items ≡ count) }
{
    listed(alloc, source, pos, count, Piece::Parser, Piece::Extract)
}

/// The control of ingress.
fn ingress(alloc: Global, source: &Source, pos: usize) -> Result<(WrittenControl, usize), Stop>
    requires { pos ≤ length source.now }
    ensures { Phrase
        (control_goals Piece.Ingress Piece.IngressBegins)
        (control_tokens Piece.Ingress Piece.IngressBegins) source.now pos result }
{
    control(alloc, source, pos, Piece::Ingress, Piece::IngressBegins)
}

/// The control of egress.
fn egress(alloc: Global, source: &Source, pos: usize) -> Result<(WrittenControl, usize), Stop>
    requires { pos ≤ length source.now }
    ensures { Phrase
        (control_goals Piece.Egress Piece.EgressBegins)
        (control_tokens Piece.Egress Piece.EgressBegins) source.now pos result }
{
    control(alloc, source, pos, Piece::Egress, Piece::EgressBegins)
}

/// The lines of the deparser.
fn emits(
    alloc: Global,
    source: &Source,
    pos: usize,
    count: usize,
) -> Result<(Vec<Text>, usize), Stop>
    requires { pos ≤ length source.now }
    ensures is { Several
        (listed_goals Piece.Deparser Piece.Emit count)
        (listed_tokens Piece.Deparser Piece.Emit) source.now pos result }
    ensures count { IfOk result (λ r. length r.0.items ≡ count) }
{
    listed(alloc, source, pos, count, Piece::Deparser, Piece::Emit)
}

/// The last fixed piece, and the end of the text.
fn ended(alloc: Global, source: &Source, pos: usize) -> Result<usize, Stop>
    requires { pos ≤ length source.now }
    ensures { EndAt source.now pos result }
{
    let last = expect_piece(alloc, source, pos, Piece::End)?;
    source.expect_end(last)
}

/// A whole text, up to and with its end.
pub fn program(alloc: Global, source: &Source) -> Result<WrittenProgram, Stop>
    ensures { ProgramAt source.now result }
{
    let first = expect_piece(alloc, source, 0, Piece::Architecture)?;
    let (headers, struct_at) = headers(alloc, source, first)?;
    let count = headers.len();
    let ((members, meta), parser_at) = declarations(alloc, source, struct_at, count)?;
    let (extracts, ingress_at) = extracts(alloc, source, parser_at, count)?;
    let (ingress, egress_at) = ingress(alloc, source, ingress_at)?;
    let (egress, deparser_at) = egress(alloc, source, egress_at)?;
    let (emits, end_at) = emits(alloc, source, deparser_at, count)?;
    ended(alloc, source, end_at)?;
    Ok(WrittenProgram {
        headers: List::from(headers),
        members: List::from(members),
        meta: List::from(meta),
        extracts: List::from(extracts),
        ingress,
        egress,
        emits: List::from(emits),
    })
}
