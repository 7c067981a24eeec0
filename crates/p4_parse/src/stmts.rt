//! Statements. The first tokens tell which one it is: any name may be that of a table.
ghost use Rattle.std.specs.Prelude.{◌≡◌, ◌+◌, ◌<◌, ◌≤◌, ◌^◌, ◌&&◌, [], ◌∷◌, codes, false, length, slice_get, true};
ghost use Rattle.cocoon_num.specs.Names.{same_name};
ghost use Rattle.p4_parse.specs.Kinds.{mark_text};
ghost use Rattle.p4_texts.specs.Machine as machine;
ghost use Rattle.p4_texts.specs.Machine.{after_first, an_expr, stmts as statements, to_semicolon};
ghost use Rattle.p4_parse.specs.Phrases.{Fixed, Phrase, else_at, is_mark};
ghost use Rattle.p4_parse.specs.Tails.{TailAt, after_dot as past_dot, after_if, assignment_goals, assignment_then, after_name as past_name, after_names, block_ended, braced_goals, braced_then, call_goals, call_tokens, guarded_goals, guarded_then, if_goals, nothing, setting_goals, setting_then, value_then, verdict_goals, verdict_then};

use crate::Mark;
use crate::exprs::{expr, operand};
use crate::joins::then;
use crate::source::Source;
use cocoon_num::{Bits, Text};
use lexing::bytes::same_bytes;
use p4_texts::written::{WrittenExpr, WrittenStmt};
use parsing::{Stop, both};
use std::alloc::Global;

/// Statements up to and with `}`.
#[cycle(stmt)]
pub fn block(alloc: Global, source: &Source, pos: usize) -> Result<(Vec<WrittenStmt>, usize), Stop>
    requires { pos ≤ length source.now }
    ensures { Phrase (statements ∷ []) block_ended source.now pos result }
{
    let mut stmts = Vec::new(alloc);
    let mut next = pos;
    'stmts: while !source.is_mark(next, Mark::CloseBrace) {
        let (stmt, after) = stmt(alloc, source, next)?;
        stmts.push(stmt)?;
        next = after;
    }
    Ok((stmts, next + 1))
}

#[cycle(stmt)]
fn stmt(alloc: Global, source: &Source, pos: usize) -> Result<(WrittenStmt, usize), Stop>
    requires within { pos ≤ length source.now }
    requires goes_on { is_mark (codes "}") (slice_get source.now pos) ≡ false }
    ensures { TailAt (statements ∷ []) nothing source.now pos result }
{
    let (name, next) = source.name(alloc, pos)?;
    if stands_after(source, next, Mark::OpenParen, &name, "if") {
        return conditional(alloc, source, next + 1);
    }
    simple(alloc, source, name, next)
}

/// What follows `if (`.
#[cycle(stmt)]
fn conditional(alloc: Global, source: &Source, pos: usize) -> Result<(WrittenStmt, usize), Stop>
    requires { pos ≤ length source.now }
    ensures { TailAt if_goals after_if source.now pos result }
{
    let ((condition, first), end) = guarded(alloc, source, pos)?;
    if has_else(source, end) {
        let (second, last) = braced(alloc, source, end + 1)?;
        return Ok((WrittenStmt::IfElse(condition, first, second), last));
    }
    Ok((WrittenStmt::If(condition, first), end))
}

/// `E) { .. }`
#[cycle(stmt)]
fn guarded(
    alloc: Global,
    source: &Source,
    pos: usize,
) -> Result<((WrittenExpr, Vec<WrittenStmt>), usize), Stop>
    requires { pos ≤ length source.now }
    ensures { Phrase guarded_goals guarded_then source.now pos result }
{
    let (condition, next) = operand(alloc, source, pos)?;
    both(condition, braced(alloc, source, next))
}

/// `{ .. }`
#[cycle(stmt)]
fn braced(alloc: Global, source: &Source, pos: usize) -> Result<(Vec<WrittenStmt>, usize), Stop>
    requires { pos ≤ length source.now }
    ensures { Phrase braced_goals braced_then source.now pos result }
{
    let open = source.expect(pos, Mark::OpenBrace)?;
    block(alloc, source, open)
}

/// Whether `else` stands at a token index, and is no name of a table.
fn has_else(source: &Source, pos: usize) -> bool
    ensures is { result ≡ else_at (slice_get source.now pos) (slice_get source.now (pos + 1)) }
    ensures within { result ≡ true → (pos < length source.now) × (length source.now ≤ 2 ^ 32) }
{
    if source.is_word(pos, "else") {
        return !source.is_mark(pos + 1, Mark::Dot);
    }
    false
}

/// Whether a name is this word.
fn is(name: &Text, word: &str) -> bool
    ensures { result ≡ same_name word.now name.now }
{
    same_bytes(word.as_bytes(), name.bytes())
}

/// Whether a mark stands at a token index, and the name before it is this word.
fn stands_after(source: &Source, pos: usize, mark: Mark, name: &Text, word: &str) -> bool
    ensures is { result ≡ (is_mark (mark_text mark) (slice_get source.now pos)
        && same_name word.now name.now) }
    ensures within { result ≡ true → (pos < length source.now) × (length source.now ≤ 2 ^ 32) }
{
    if source.is_mark(pos, mark) {
        return is(name, word);
    }
    false
}

/// What follows the name that a statement begins with.
fn simple(
    alloc: Global,
    source: &Source,
    name: Text,
    pos: usize,
) -> Result<(WrittenStmt, usize), Stop>
    requires within { pos ≤ length source.now }
    requires no_if { (is_mark (codes "(") (slice_get source.now pos)
        && same_name (codes "if") name) ≡ false }
    ensures { TailAt (after_first name ∷ []) (past_name name) source.now pos result }
{
    if source.is_mark(pos, Mark::Dot) {
        return after_dot(alloc, source, name, pos + 1);
    }
    if source.is_mark(pos, Mark::Assign) {
        return assigned(alloc, source, name, pos);
    }
    if stands_after(source, pos, Mark::Semicolon, &name, "return") {
        return Ok((WrittenStmt::Return, pos + 1));
    }
    Err(Stop::Unexpected(pos))
}

/// A statement that sets what is no field, from `=` on.
fn assigned(
    alloc: Global,
    source: &Source,
    name: Text,
    pos: usize,
) -> Result<(WrittenStmt, usize), Stop>
    requires within { pos ≤ length source.now }
    requires assigns { is_mark (codes "=") (slice_get source.now pos) ≡ true }
    ensures { TailAt (after_first name ∷ []) (past_name name) source.now pos result }
{
    if is(&name, "verdict") {
        let (bits, end) = verdict(source, pos)?;
        return Ok((WrittenStmt::Verdict(bits), end));
    }
    if is(&name, "egress_port") {
        let (port, end) = assignment(alloc, source, pos)?;
        return Ok((WrittenStmt::EgressPort(port), end));
    }
    if is(&name, "group") {
        let (group, end) = assignment(alloc, source, pos)?;
        return Ok((WrittenStmt::Group(group), end));
    }
    Err(Stop::Unexpected(pos))
}

/// `= E;`
fn assignment(alloc: Global, source: &Source, pos: usize) -> Result<(WrittenExpr, usize), Stop>
    requires { pos ≤ length source.now }
    ensures { Phrase assignment_goals assignment_then source.now pos result }
{
    let next = source.expect(pos, Mark::Assign)?;
    value(alloc, source, next)
}

/// `E;`
fn value(alloc: Global, source: &Source, pos: usize) -> Result<(WrittenExpr, usize), Stop>
    requires { pos ≤ length source.now }
    ensures { Phrase (an_expr to_semicolon ∷ []) value_then source.now pos result }
{
    then(source, expr(alloc, source, pos), Mark::Semicolon)
}

/// `= LITERAL;`
fn verdict(source: &Source, pos: usize) -> Result<(Bits, usize), Stop>
    requires { pos ≤ length source.now }
    ensures { Phrase verdict_goals verdict_then source.now pos result }
{
    let start = source.expect(pos, Mark::Assign)?;
    let (bits, next) = source.bits(start)?;
    let end = source.expect(next, Mark::Semicolon)?;
    Ok((bits, end))
}

/// `();`
fn call(source: &Source, pos: usize) -> Result<usize, Stop>
    requires { pos ≤ length source.now }
    ensures { Fixed call_goals call_tokens source.now pos result }
{
    let open = source.expect(pos, Mark::OpenParen)?;
    let close = source.expect(open, Mark::CloseParen)?;
    source.expect(close, Mark::Semicolon)
}

/// What follows a name and a dot.
fn after_dot(
    alloc: Global,
    source: &Source,
    name: Text,
    pos: usize,
) -> Result<(WrittenStmt, usize), Stop>
    requires { pos ≤ length source.now }
    ensures { TailAt (machine.dotted name ∷ []) (past_dot name) source.now pos result }
{
    let (second, next) = source.name(alloc, pos)?;
    if is(&name, "m") {
        return after_meta(alloc, source, name, second, next);
    }
    if is(&name, "h") {
        return after_header(alloc, source, name, second, next);
    }
    if is(&second, "apply") {
        let end = call(source, next)?;
        return Ok((WrittenStmt::Apply(name), end));
    }
    Err(Stop::Unexpected(pos))
}

/// What follows `m.NAME`.
fn after_meta(
    alloc: Global,
    source: &Source,
    name: Text,
    second: Text,
    pos: usize,
) -> Result<(WrittenStmt, usize), Stop>
    requires within { pos ≤ length source.now }
    requires meta { same_name (codes "m") name ≡ true }
    ensures { TailAt (machine.after_meta second ∷ []) (after_names name second) source.now pos
        result }
{
    if stands_after(source, pos, Mark::OpenParen, &second, "apply") {
        let end = call(source, pos)?;
        return Ok((WrittenStmt::Apply(name), end));
    }
    let (new, end) = assignment(alloc, source, pos)?;
    Ok((WrittenStmt::SetMeta(second, new), end))
}

/// What follows `h.NAME`.
fn after_header(
    alloc: Global,
    source: &Source,
    name: Text,
    second: Text,
    pos: usize,
) -> Result<(WrittenStmt, usize), Stop>
    requires within { pos ≤ length source.now }
    requires header { same_name (codes "h") name ≡ true }
    ensures { TailAt
        (machine.after_header second ∷ []) (after_names name second) source.now pos result }
{
    if stands_after(source, pos, Mark::OpenParen, &second, "apply") {
        let end = call(source, pos)?;
        return Ok((WrittenStmt::Apply(name), end));
    }
    let ((field, new), end) = setting(alloc, source, pos)?;
    Ok((WrittenStmt::SetField(second, field, new), end))
}

/// `.NAME = E;`
fn setting(alloc: Global, source: &Source, pos: usize) -> Result<((Text, WrittenExpr), usize), Stop>
    requires { pos ≤ length source.now }
    ensures { Phrase setting_goals setting_then source.now pos result }
{
    let dot = source.expect(pos, Mark::Dot)?;
    let (field, assign) = source.name(alloc, dot)?;
    both(field, assignment(alloc, source, assign))
}
