//! Definitions.
ghost use Rattle.std.specs.Prelude.{◌<◌, ◌^◌, length, map};
ghost use Rattle.cocoon_num.specs.Tree.{a_row};
ghost use Rattle.cocoon_syntax.specs.TreeOf.{const_of, entry_of, name_of, pattern_of};
ghost use Rattle.parsing.specs.PlainParser as parser;
ghost use Rattle.cocoon_text.specs.Agrees.{Moves, Agrees, AgreesDeep};
ghost use Rattle.parsing.specs.Joins.{Makes};

use crate::joins::then;
use crate::source::Source;
use crate::token::{Keyword, Mark};
use cocoon_syntax::{Const, Entry, Name, Pattern};
use parsing::Stop;
use std::alloc::Global;

#[tactic(auto, unfolding(parsing::specs::PlainParser::const_from))]
fn constant(source: &Source, pos: usize) -> Result<(Const, usize), Stop>
    ensures agrees { Agrees (parser.const_from source.now pos) const_of result }
    ensures moves { Moves pos (length source.now) result }
{
    if let Some(bits) = source.literal(pos) {
        return Ok((Const::Number(bits), pos + 1));
    }
    if source.is_keyword(pos, Keyword::True) {
        return Ok((Const::Truth(true), pos + 1));
    }
    source.expect_keyword(pos, Keyword::False)?;
    Ok((Const::Truth(false), pos + 1))
}

/// A literal, a literal with its mask, or `_`.
#[tactic(auto, unfolding(parsing::specs::PlainParser::pattern_from))]
fn pattern(source: &Source, pos: usize) -> Result<(Pattern, usize), Stop>
    ensures agrees { Agrees (parser.pattern_from source.now pos) pattern_of result }
    ensures moves { Moves pos (length source.now) result }
{
    if source.is_mark(pos, Mark::Any) {
        return Ok((Pattern::Any, pos + 1));
    }
    let bits = source.demand_literal(pos)?;
    if !source.is_mark(pos + 1, Mark::Mask) {
        return Ok((Pattern::Literal(bits), pos + 1));
    }
    let mask = source.demand_literal(pos + 2)?;
    Ok((Pattern::Masked(bits, mask), pos + 3))
}

/// `default f = v;`, from its first token on.
#[tactic(auto, unfolding(parsing::specs::PlainParser::default_from, parsing::specs::PlainParser::named, parsing::specs::PlainParser::marked, parsing::specs::PlainParser::after))]
fn default(alloc: Global, source: &Source, pos: usize) -> Result<(Entry, usize), Stop>
    requires { pos < 2 ^ 32 }
    ensures agrees { Agrees (parser.default_from source.now pos) entry_of result }
    ensures moves { Moves pos (length source.now) result }
{
    let function = source.name(alloc, pos + 1)?;
    source.expect(pos + 2, Mark::Assign)?;
    let (value, next) = constant(source, pos + 3)?;
    source.expect(next, Mark::Semicolon)?;
    Ok((Entry::Default(function, value), next + 1))
}

/// One or more patterns with commas between.
fn patterns(alloc: Global, source: &Source, pos: usize) -> Result<(Vec<Pattern>, usize), Stop>
    ensures agrees { AgreesDeep
        (λ n. parser.commas_from source.now (λ m. parser.pattern_from source.now) n pos)
        (λ v. map pattern_of v.items) result }
    ensures moves { Moves pos (length source.now) result }
{
    let mut patterns = Vec::new(alloc);
    let (first, mut next) = pattern(source, pos)?;
    patterns.push(first)?;
    while source.is_mark(next, Mark::Comma) {
        let (pattern, after) = pattern(source, next + 1)?;
        patterns.push(pattern)?;
        next = after;
    }
    Ok((patterns, next))
}

/// `define f(p, ..) = v;`, from its first token on.
fn row(alloc: Global, source: &Source, pos: usize) -> Result<(Entry, usize), Stop>
    requires { pos < 2 ^ 32 }
    ensures agrees { AgreesDeep (λ n. parser.row_from source.now n pos) entry_of result }
    ensures moves { Moves pos (length source.now) result }
{
    let function = source.name(alloc, pos + 1)?;
    source.expect(pos + 2, Mark::OpenParen)?;
    let patterns = then(source, patterns(alloc, source, pos + 3), Mark::CloseParen);
    let (patterns, next) = then(source, patterns, Mark::Assign)?;
    row_node(
        function,
        patterns,
        then(source, constant(source, next), Mark::Semicolon),
    )
}

fn row_node(
    function: Name,
    patterns: Vec<Pattern>,
    value: Result<(Const, usize), Stop>,
) -> Result<(Entry, usize), Stop>
    ensures { Makes const_of entry_of
        (λ v. a_row (name_of function) (map pattern_of patterns.items) v) value result }
{
    let (value, end) = value?;
    Ok((Entry::Define(function, patterns, value), end))
}

/// A default or a row.
#[tactic(auto, unfolding(parsing::specs::PlainParser::entry_from))]
fn entry(alloc: Global, source: &Source, pos: usize) -> Result<(Entry, usize), Stop>
    ensures agrees { AgreesDeep (λ n. parser.entry_from source.now n pos) entry_of result }
    ensures moves { Moves pos (length source.now) result }
{
    if source.is_keyword(pos, Keyword::Default) {
        return default(alloc, source, pos);
    }
    if source.is_keyword(pos, Keyword::Define) {
        return row(alloc, source, pos);
    }
    Err(Stop::Unexpected(pos))
}

/// All definitions of a text, up to its end.
pub fn entries(alloc: Global, source: &Source) -> Result<(Vec<Entry>, usize), Stop>
    ensures { AgreesDeep (parser.defs_from source.now) (λ v. map entry_of v.items) result }
{
    let mut entries = Vec::new(alloc);
    let mut next = 0;
    'entries: while !source.is_end(next) {
        let (entry, after) = entry(alloc, source, next)?;
        entries.push(entry)?;
        next = after;
    }
    Ok((entries, next))
}
