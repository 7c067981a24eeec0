//! Keys, and whole tables with their actions.
ghost use Rattle.std.specs.Prelude.{◌≡◌, ◌≤◌, [], ◌∷◌, false, length, slice_get, codes};
ghost use Rattle.cocoon_num.specs.Tokens.{a_name};
ghost use Rattle.p4_ir.specs.P4Text as spec;
ghost use Rattle.p4_texts.specs.Machine as machine;
ghost use Rattle.p4_texts.specs.Written.{key_then};
ghost use Rattle.p4_parse.specs.Onward.{Onwards};
ghost use Rattle.p4_parse.specs.Phrases.{Phrase, is_mark};
ghost use Rattle.p4_parse.specs.Tables.{after_first_key, after_kind, declaration_goals, declaration_tokens, first_key_goals, first_key_tokens, key_goals, key_name_goals, key_name_tokens, keys_tokens, kind_tokens, tables_tokens};

use crate::Mark;
use crate::decls::{action, actions, default, result, table};
use crate::exprs::dotted;
use crate::source::Source;
use cocoon_num::{List, Text};
use p4_texts::written::WrittenTable;
use parsing::Stop;
use std::alloc::Global;

/// `m.NAME :`
fn key_name(alloc: Global, source: &Source, pos: usize) -> Result<(Text, usize), Stop>
    requires { pos ≤ length source.now }
    ensures { Phrase key_name_goals key_name_tokens source.now pos result }
{
    let dot = source.expect_word(pos, "m")?;
    let (name, colon) = dotted(alloc, source, dot)?;
    let end = source.expect(colon, Mark::Colon)?;
    Ok((name, end))
}

/// The word for a kind of keys.
fn kind_word(exact: bool) -> &'static str
    ensures { a_name result.now ≡ spec.match_kind exact }
{
    if exact { "exact" } else { "ternary" }
}

/// `m.NAME : KIND;`, of a kind that is known.
fn key(alloc: Global, source: &Source, pos: usize, exact: bool) -> Result<(Text, usize), Stop>
    requires { pos ≤ length source.now }
    ensures { Phrase (key_goals exact) (key_then exact) source.now pos result }
{
    let (name, kind) = key_name(alloc, source, pos)?;
    let semicolon = source.expect_word(kind, kind_word(exact))?;
    let end = source.expect(semicolon, Mark::Semicolon)?;
    Ok((name, end))
}

/// Whether keys are exact.
fn match_kind(source: &Source, pos: usize) -> Result<(bool, usize), Stop>
    requires { pos ≤ length source.now }
    ensures { Onwards (machine.first_match ∷ []) after_kind kind_tokens source.now pos result }
{
    if source.is_word(pos, "exact") {
        return Ok((true, pos + 1));
    }
    if source.is_word(pos, "ternary") {
        return Ok((false, pos + 1));
    }
    Err(Stop::Unexpected(pos))
}

/// The first key, and whether it is exact.
fn first_key(alloc: Global, source: &Source, pos: usize) -> Result<((Text, bool), usize), Stop>
    requires { pos ≤ length source.now }
    ensures { Onwards first_key_goals after_first_key first_key_tokens source.now pos result }
{
    let (name, kind) = key_name(alloc, source, pos)?;
    let (exact, semicolon) = match_kind(source, kind)?;
    let end = source.expect(semicolon, Mark::Semicolon)?;
    Ok(((name, exact), end))
}

/// Keys up to and with `}`, one or more.
fn some_keys(alloc: Global, source: &Source, pos: usize) -> Result<((bool, Vec<Text>), usize), Stop>
    requires { pos ≤ length source.now }
    ensures { Phrase first_key_goals keys_tokens source.now pos result }
{
    let ((first, exact), after_first) = first_key(alloc, source, pos)?;
    let mut keys = Vec::new(alloc);
    keys.push(first)?;
    let mut next = after_first;
    'keys: while !source.is_mark(next, Mark::CloseBrace) {
        let (name, after) = key(alloc, source, next, exact)?;
        keys.push(name)?;
        next = after;
    }
    Ok(((exact, keys), next + 1))
}

/// Keys up to and with `}`. All are of one kind.
fn keys(alloc: Global, source: &Source, pos: usize) -> Result<((bool, Vec<Text>), usize), Stop>
    requires { pos ≤ length source.now }
    ensures { Phrase (machine.first_key ∷ []) keys_tokens source.now pos result }
{
    if source.is_mark(pos, Mark::CloseBrace) {
        return Ok(((false, Vec::new(alloc)), pos + 1));
    }
    some_keys(alloc, source, pos)
}

/// An action and its table.
fn declaration(alloc: Global, source: &Source, pos: usize) -> Result<(WrittenTable, usize), Stop>
    requires { pos ≤ length source.now }
    ensures { Phrase declaration_goals declaration_tokens source.now pos result }
{
    let ((action, width), brace) = action(alloc, source, pos)?;
    let (result, word) = result(alloc, source, brace)?;
    let (table, first) = table(alloc, source, word)?;
    let ((exact, keys), after_keys) = keys(alloc, source, first)?;
    let (actions, last) = actions(alloc, source, after_keys)?;
    let ((default_action, default), end) = default(alloc, source, last)?;
    let table = WrittenTable {
        action,
        width,
        result,
        table,
        exact,
        keys: List::from(keys),
        actions,
        default_action,
        default,
    };
    Ok((table, end))
}

/// Tables up to and with `apply`.
pub fn tables(
    alloc: Global,
    source: &Source,
    pos: usize,
) -> Result<(Vec<WrittenTable>, usize), Stop>
    requires { pos ≤ length source.now }
    ensures { Phrase (machine.tables ∷ []) tables_tokens source.now pos result }
{
    let mut tables = Vec::new(alloc);
    let mut next = pos;
    'tables: while !source.is_word(next, "apply") {
        let (table, after) = declaration(alloc, source, next)?;
        tables.push(table)?;
        next = after;
    }
    Ok((tables, next + 1))
}
