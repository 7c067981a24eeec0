//! Headers, fields, and parts of tables.
ghost use Rattle.std.specs.Prelude.{◌≤◌, [], ◌∷◌, length};
ghost use Rattle.p4_texts.specs.Machine.{a_member, fields as field_goals};
ghost use Rattle.p4_parse.specs.Phrases.{Phrase};
ghost use Rattle.p4_parse.specs.Fields.{action_goals, action_tokens, actions_goals, actions_tokens, default_goals, default_tokens, field_phrase, field_tokens, fields_tokens, header_goals, header_tokens, member_tokens, result_goals, result_tokens, table_goals, table_tokens, width_goals, width_tokens};

use crate::Mark;
use crate::exprs::dotted;
use crate::source::Source;
use cocoon_num::{Bits, List, Text};
use p4_texts::written::{WrittenField, WrittenHeader, WrittenMember};
use parsing::Stop;
use std::alloc::Global;

/// `bit<W>`
fn width(source: &Source, pos: usize) -> Result<(u32, usize), Stop>
    requires { pos ≤ length source.now }
    ensures { Phrase width_goals width_tokens source.now pos result }
{
    let less = source.expect_word(pos, "bit")?;
    let number = source.expect(less, Mark::Less)?;
    let (width, greater) = source.number(number)?;
    let end = source.expect(greater, Mark::Greater)?;
    Ok((width, end))
}

/// `bit<W> NAME;`
fn field(alloc: Global, source: &Source, pos: usize) -> Result<(WrittenField, usize), Stop>
    requires { pos ≤ length source.now }
    ensures { Phrase field_phrase field_tokens source.now pos result }
{
    let (width, next) = width(source, pos)?;
    let (name, last) = source.name(alloc, next)?;
    let end = source.expect(last, Mark::Semicolon)?;
    Ok((WrittenField { width, name }, end))
}

/// Fields up to and with `}`.
pub fn fields(
    alloc: Global,
    source: &Source,
    pos: usize,
) -> Result<(Vec<WrittenField>, usize), Stop>
    requires { pos ≤ length source.now }
    ensures { Phrase (field_goals ∷ []) fields_tokens source.now pos result }
{
    let mut fields = Vec::new(alloc);
    let mut next = pos;
    'fields: while !source.is_mark(next, Mark::CloseBrace) {
        let (field, after) = field(alloc, source, next)?;
        fields.push(field)?;
        next = after;
    }
    Ok((fields, next + 1))
}

/// `header NAME { .. }`
pub fn header(alloc: Global, source: &Source, pos: usize) -> Result<(WrittenHeader, usize), Stop>
    requires { pos ≤ length source.now }
    ensures { Phrase header_goals header_tokens source.now pos result }
{
    let start = source.expect_word(pos, "header")?;
    let (name, brace) = source.name(alloc, start)?;
    let open = source.expect(brace, Mark::OpenBrace)?;
    let (fields, end) = fields(alloc, source, open)?;
    let fields = List::from(fields);
    Ok((WrittenHeader { name, fields }, end))
}

/// A line of `struct Headers`.
pub fn member(alloc: Global, source: &Source, pos: usize) -> Result<(WrittenMember, usize), Stop>
    requires { pos ≤ length source.now }
    ensures { Phrase a_member member_tokens source.now pos result }
{
    let (header, next) = source.name(alloc, pos)?;
    let (name, last) = source.name(alloc, next)?;
    let end = source.expect(last, Mark::Semicolon)?;
    Ok((WrittenMember { header, name }, end))
}

/// `action NAME(bit<W> v)`
pub fn action(alloc: Global, source: &Source, pos: usize) -> Result<((Text, u32), usize), Stop>
    requires { pos ≤ length source.now }
    ensures { Phrase action_goals action_tokens source.now pos result }
{
    let start = source.expect_word(pos, "action")?;
    let (name, bracket) = source.name(alloc, start)?;
    let open = source.expect(bracket, Mark::OpenParen)?;
    let (width, parameter) = width(source, open)?;
    let close = source.expect_word(parameter, "v")?;
    let end = source.expect(close, Mark::CloseParen)?;
    Ok(((name, width), end))
}

/// `{ m.NAME = v; }`
pub fn result(alloc: Global, source: &Source, pos: usize) -> Result<(Text, usize), Stop>
    requires { pos ≤ length source.now }
    ensures { Phrase result_goals result_tokens source.now pos result }
{
    let open = source.expect(pos, Mark::OpenBrace)?;
    let dot = source.expect_word(open, "m")?;
    let (name, assign) = dotted(alloc, source, dot)?;
    let value = source.expect(assign, Mark::Assign)?;
    let semicolon = source.expect_word(value, "v")?;
    let close = source.expect(semicolon, Mark::Semicolon)?;
    let end = source.expect(close, Mark::CloseBrace)?;
    Ok((name, end))
}

/// `table NAME { key = {`
pub fn table(alloc: Global, source: &Source, pos: usize) -> Result<(Text, usize), Stop>
    requires { pos ≤ length source.now }
    ensures { Phrase table_goals table_tokens source.now pos result }
{
    let start = source.expect_word(pos, "table")?;
    let (name, brace) = source.name(alloc, start)?;
    let open = source.expect(brace, Mark::OpenBrace)?;
    let assign = source.expect_word(open, "key")?;
    let second = source.expect(assign, Mark::Assign)?;
    let end = source.expect(second, Mark::OpenBrace)?;
    Ok((name, end))
}

/// `actions = { NAME; }`
pub fn actions(alloc: Global, source: &Source, pos: usize) -> Result<(Text, usize), Stop>
    requires { pos ≤ length source.now }
    ensures { Phrase actions_goals actions_tokens source.now pos result }
{
    let assign = source.expect_word(pos, "actions")?;
    let brace = source.expect(assign, Mark::Assign)?;
    let open = source.expect(brace, Mark::OpenBrace)?;
    let (name, semicolon) = source.name(alloc, open)?;
    let close = source.expect(semicolon, Mark::Semicolon)?;
    let end = source.expect(close, Mark::CloseBrace)?;
    Ok((name, end))
}

/// `default_action = NAME(LITERAL); }`
pub fn default(alloc: Global, source: &Source, pos: usize) -> Result<((Text, Bits), usize), Stop>
    requires { pos ≤ length source.now }
    ensures { Phrase default_goals default_tokens source.now pos result }
{
    let assign = source.expect_word(pos, "default_action")?;
    let start = source.expect(assign, Mark::Assign)?;
    let (name, bracket) = source.name(alloc, start)?;
    let open = source.expect(bracket, Mark::OpenParen)?;
    let (value, close) = source.bits(open)?;
    let semicolon = source.expect(close, Mark::CloseParen)?;
    let brace = source.expect(semicolon, Mark::Semicolon)?;
    let end = source.expect(brace, Mark::CloseBrace)?;
    Ok(((name, value), end))
}
