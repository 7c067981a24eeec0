//! Fields of the packet, types and parameters.
ghost use Rattle.std.specs.Prelude.{length, map};
ghost use Rattle.cocoon_syntax.specs.TreeOf.{name_of, param_of};
ghost use Rattle.parsing.specs.PlainParser as parser;
ghost use Rattle.cocoon_text.specs.Agrees.{Moves, Agrees, AgreesDeep, path_of};

use crate::source::Source;
use crate::token::{Keyword, Mark};
use cocoon_syntax::{Name, Param};
use parsing::Stop;
use std::alloc::Global;

/// `pkt.h.f`: the header and its field.
#[tactic(auto, unfolding(parsing::specs::PlainParser::path_from, parsing::specs::PlainParser::reserved, parsing::specs::PlainParser::marked, parsing::specs::PlainParser::named))]
pub fn path(alloc: Global, source: &Source, pos: usize) -> Result<((Name, Name), usize), Stop>
    ensures agrees { Agrees (parser.path_from source.now pos) path_of result }
    ensures moves { Moves pos (length source.now) result }
{
    source.expect_keyword(pos, Keyword::Pkt)?;
    source.expect(pos + 1, Mark::Dot)?;
    let header = source.name(alloc, pos + 2)?;
    source.expect(pos + 3, Mark::Dot)?;
    let field = source.name(alloc, pos + 4)?;
    Ok(((header, field), pos + 5))
}

/// `bit<N>`: the width, in bits.
#[tactic(auto, unfolding(parsing::specs::PlainParser::bits_from, parsing::specs::PlainParser::reserved, parsing::specs::PlainParser::marked, parsing::specs::PlainParser::numbered))]
pub fn bits(source: &Source, pos: usize) -> Result<(u32, usize), Stop>
    ensures agrees { Agrees (parser.bits_from source.now pos) (λ width. width) result }
    ensures moves { Moves pos (length source.now) result }
{
    source.expect_keyword(pos, Keyword::Bit)?;
    source.expect(pos + 1, Mark::Less)?;
    let width = source.number(pos + 2)?;
    source.expect(pos + 3, Mark::Greater)?;
    Ok((width, pos + 4))
}

/// `x: bit<N>`.
#[tactic(auto, unfolding(parsing::specs::PlainParser::param_from, parsing::specs::PlainParser::marked, parsing::specs::PlainParser::named, parsing::specs::PlainParser::after))]
pub fn param(alloc: Global, source: &Source, pos: usize) -> Result<(Param, usize), Stop>
    ensures agrees { Agrees (parser.param_from source.now pos) param_of result }
    ensures moves { Moves pos (length source.now) result }
{
    let name = source.name(alloc, pos)?;
    source.expect(pos + 1, Mark::Colon)?;
    let (width, next) = bits(source, pos + 2)?;
    Ok((Param { name, width }, next))
}

/// One or more parameters with commas between.
pub fn params(alloc: Global, source: &Source, pos: usize) -> Result<(Vec<Param>, usize), Stop>
    ensures agrees { AgreesDeep
        (λ n. parser.params_from source.now n pos) (λ v. map param_of v.items) result }
    ensures moves { Moves pos (length source.now) result }
{
    let mut params = Vec::new(alloc);
    let (first, mut next) = param(alloc, source, pos)?;
    params.push(first)?;
    'params: while source.is_mark(next, Mark::Comma) {
        let (param, after) = param(alloc, source, next + 1)?;
        params.push(param)?;
        next = after;
    }
    Ok((params, next))
}

/// A name, as a phrase.
#[tactic(auto, unfolding(parsing::specs::PlainParser::name_from, parsing::specs::PlainParser::named))]
pub fn name(alloc: Global, source: &Source, pos: usize) -> Result<(Name, usize), Stop>
    ensures agrees { Agrees (parser.name_from source.now pos) name_of result }
    ensures moves { Moves pos (length source.now) result }
{
    let name = source.name(alloc, pos)?;
    Ok((name, pos + 1))
}

/// One or more names with commas between.
pub fn names(alloc: Global, source: &Source, pos: usize) -> Result<(Vec<Name>, usize), Stop>
    ensures agrees { AgreesDeep
        (λ n. parser.commas_from source.now (λ m. parser.name_from source.now) n pos)
        (λ v. map name_of v.items) result }
    ensures moves { Moves pos (length source.now) result }
{
    let mut names = Vec::new(alloc);
    let (first, mut next) = name(alloc, source, pos)?;
    names.push(first)?;
    'names: while source.is_mark(next, Mark::Comma) {
        let (name, after) = name(alloc, source, next + 1)?;
        names.push(name)?;
        next = after;
    }
    Ok((names, next))
}
