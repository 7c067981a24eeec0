//! Declarations, refinements, headers and designs.
ghost use Rattle.std.specs.Prelude.{◌≡◌, ◌+◌, ◌<◌, ◌≤◌, ◌^◌, IfOk, length, map, option_map, slice_get, true};
ghost use Rattle.cocoon_num.specs.Tree.{a_function, a_role};
ghost use Rattle.cocoon_text.specs.Kinds.{mark_text};
ghost use Rattle.cocoon_syntax.specs.TreeOf.{body_of, decl_of, design_of, expr_of, header_of, name_of, param_of, refine_of, result_of};
ghost use Rattle.cocoon_text.specs.Phrases.{LimitAt, PairAt, PortsAt, answer_from, answer_of, duty_from, duty_of, head_from, head_of, headed, refinement, stops_of};
ghost use Rattle.parsing.specs.PlainParser as parser;
ghost use Rattle.cocoon_text.specs.Agrees.{Advances, Moves, Agrees, AgreesDeep};
ghost use Rattle.parsing.specs.Joins.{Makes};

use crate::exprs::{expr, expr_then};
use crate::joins::then;
use crate::names::{bits, names, param, params};
use crate::source::Source;
use crate::stmts::{assigned, block};
use crate::token::{Keyword, Mark};
use cocoon_syntax::{
    AssumeDecl, Decl, Design, Expr, FunctionDecl, HeaderDecl, HostDecl, Name, Param, Refine,
    ResultKind, Role, Stmt, SwitchDecl,
};
use parsing::{Stop, both};
use std::alloc::Global;

/// `bool` or `bit<N>`.
#[tactic(auto, unfolding(parsing::specs::PlainParser::result_from, parsing::specs::PlainParser::after))]
fn result_kind(source: &Source, pos: usize) -> Result<(ResultKind, usize), Stop>
    ensures agrees { Agrees (parser.result_from source.now pos) result_of result }
    ensures moves { Moves pos (length source.now) result }
{
    if source.is_keyword(pos, Keyword::Bool) {
        return Ok((ResultKind::Truth, pos + 1));
    }
    let (width, next) = bits(source, pos)?;
    Ok((ResultKind::Width(width), next))
}

/// `;` or `= a;`.
fn value(alloc: Global, source: &Source, pos: usize) -> Result<(Option<Expr>, usize), Stop>
    ensures agrees { AgreesDeep
        (λ n. parser.body_from source.now n pos) (λ v. option_map expr_of v) result }
    ensures moves { Moves pos (length source.now) result }
{
    if source.is_mark(pos, Mark::Semicolon) {
        return Ok((None, pos + 1));
    }
    let (value, end) = assigned(alloc, source, pos)?;
    Ok((Some(value), end))
}

/// `;` or `= { .. }`.
fn body(alloc: Global, source: &Source, pos: usize) -> Result<(Option<Vec<Stmt>>, usize), Stop>
    ensures agrees { AgreesDeep
        (λ n. parser.role_body_from source.now n pos) (λ b. option_map body_of b) result }
    ensures moves { Moves pos (length source.now) result }
{
    if source.is_mark(pos, Mark::Semicolon) {
        return Ok((None, pos + 1));
    }
    source.expect(pos, Mark::Assign)?;
    let (stmts, end) = block(alloc, source, pos + 1)?;
    Ok((Some(stmts), end))
}

/// Parameters or none, up to a closing bracket.
fn optional_params(alloc: Global, source: &Source, pos: usize) -> Result<(Vec<Param>, usize), Stop>
    requires { pos ≤ length source.now }
    ensures agrees { AgreesDeep
        (λ n. parser.optional_params_from source.now n pos) (λ v. map param_of v.items) result }
    ensures moves { Advances pos (length source.now) result }
{
    if source.is_mark(pos, Mark::CloseParen) {
        return Ok((Vec::new(alloc), pos));
    }
    let (params, next) = params(alloc, source, pos)?;
    Ok((params, next))
}

/// `function f(x: bit<N>, ..): r ..`, from its first token on.
fn function(alloc: Global, source: &Source, pos: usize) -> Result<(Decl, usize), Stop>
    requires { pos < 2 ^ 32 }
    ensures agrees { AgreesDeep (λ n. parser.function_from source.now n pos) decl_of result }
    ensures moves { Moves pos (length source.now) result }
{
    let ((name, params), next) = head(
        alloc,
        source,
        pos + 1,
        Mark::OpenParen,
        Mark::CloseParen,
        Mark::Colon,
    )?;
    function_node(name, params, answer(alloc, source, next))
}

/// `r ..` of a function: what it gives, and its value, if it has one.
fn answer(
    alloc: Global,
    source: &Source,
    pos: usize,
) -> Result<((ResultKind, Option<Expr>), usize), Stop>
    ensures agrees { AgreesDeep (λ n. answer_from source.now n pos) answer_of result }
    ensures moves { Moves pos (length source.now) result }
{
    let (kind, next) = result_kind(source, pos)?;
    both(kind, value(alloc, source, next))
}

/// `f(x: bit<N>, ..):`, or with other marks: a name, its parameters, and the mark after them.
fn head(
    alloc: Global,
    source: &Source,
    pos: usize,
    left: Mark,
    right: Mark,
    last: Mark,
) -> Result<((Name, Vec<Param>), usize), Stop>
    ensures agrees { AgreesDeep (λ n. head_from source.now n
        (mark_text left) (mark_text right) (mark_text last) pos) head_of result }
    ensures moves { Moves pos (length source.now) result }
{
    let name = source.name(alloc, pos)?;
    source.expect(pos + 1, left)?;
    let params = then(source, params(alloc, source, pos + 2), right);
    both(name, then(source, params, last))
}

fn function_node(
    name: Name,
    params: Vec<Param>,
    answer: Result<((ResultKind, Option<Expr>), usize), Stop>,
) -> Result<(Decl, usize), Stop>
    ensures { Makes answer_of decl_of (λ a. a_function (record {
      name = name_of name;
      params = map param_of params.items;
      result = a.kind;
      body = a.body;
    })) answer result }
{
    let ((result, body), end) = answer?;
    let function = FunctionDecl {
        name,
        params,
        result,
        body,
    };
    Ok((Decl::Function(function), end))
}

/// `assume (x: bit<N>, ..) a;`, from its first token on.
fn assumption(alloc: Global, source: &Source, pos: usize) -> Result<(Decl, usize), Stop>
    requires small { pos < 2 ^ 32 }
    requires within { pos < length source.now }
    ensures agrees { AgreesDeep (λ n. parser.assumption_from source.now n pos) decl_of result }
    ensures moves { Moves pos (length source.now) result }
{
    let at = source.token_index(pos);
    source.expect(pos + 1, Mark::OpenParen)?;
    let (params, close) = optional_params(alloc, source, pos + 2)?;
    source.expect(close, Mark::CloseParen)?;
    let (body, end) = expr_then(alloc, source, close + 1, Mark::Semicolon)?;
    Ok((Decl::Assume(AssumeDecl { at, params, body }), end))
}

/// `role r[x: bit<N>, ..] | a ..`, from its first token on.
fn role(alloc: Global, source: &Source, pos: usize) -> Result<(Decl, usize), Stop>
    requires { pos < 2 ^ 32 }
    ensures agrees { AgreesDeep (λ n. parser.role_from source.now n pos) decl_of result }
    ensures moves { Moves pos (length source.now) result }
{
    let ((name, params), next) = head(
        alloc,
        source,
        pos + 1,
        Mark::OpenBracket,
        Mark::CloseBracket,
        Mark::Or,
    )?;
    role_node(name, params, duty(alloc, source, next))
}

/// `a ..` of a role: its guard, and its body, if it has one.
fn duty(
    alloc: Global,
    source: &Source,
    pos: usize,
) -> Result<((Expr, Option<Vec<Stmt>>), usize), Stop>
    ensures agrees { AgreesDeep (λ n. duty_from source.now n pos) duty_of result }
    ensures moves { Moves pos (length source.now) result }
{
    let (guard, next) = expr(alloc, source, pos)?;
    both(guard, body(alloc, source, next))
}

fn role_node(
    name: Name,
    params: Vec<Param>,
    duty: Result<((Expr, Option<Vec<Stmt>>), usize), Stop>,
) -> Result<(Decl, usize), Stop>
    ensures { Makes duty_of decl_of (λ d. a_role (record {
      name = name_of name;
      params = map param_of params.items;
      guard = d.guard;
      body = d.body;
    })) duty result }
{
    let ((guard, body), end) = duty?;
    let role = Role {
        name,
        params,
        guard,
        body,
    };
    Ok((Decl::Role(role), end))
}

/// `(r, s)`, after the token at this index.
#[tactic(auto, unfolding(parsing::specs::PlainParser::marked, parsing::specs::PlainParser::named))]
fn pair(alloc: Global, source: &Source, pos: usize) -> Result<(Name, Name), Stop>
    requires { pos < 2 ^ 32 }
    ensures is { PairAt source.now pos result }
    ensures within { IfOk
        result (λ _. (pos + 6 ≤ length source.now) × (length source.now ≤ 2 ^ 32)) }
{
    source.expect(pos + 1, Mark::OpenParen)?;
    let first = source.name(alloc, pos + 2)?;
    source.expect(pos + 3, Mark::Comma)?;
    let second = source.name(alloc, pos + 4)?;
    source.expect(pos + 5, Mark::CloseParen)?;
    Ok((first, second))
}

/// `host (r, s);`, from its first token on.
fn host(alloc: Global, source: &Source, pos: usize) -> Result<(Decl, usize), Stop>
    requires small { pos < 2 ^ 32 }
    requires within { pos < length source.now }
    ensures agrees { Agrees (parser.host_from source.now pos) decl_of result }
    ensures moves { Moves pos (length source.now) result }
{
    let at = source.token_index(pos);
    let (entry, sink) = pair(alloc, source, pos)?;
    source.expect(pos + 6, Mark::Semicolon)?;
    Ok((Decl::Host(HostDecl { at, entry, sink }), pos + 7))
}

/// `switch (r, s) ports n;`, from its first token on.
fn switch(alloc: Global, source: &Source, pos: usize) -> Result<(Decl, usize), Stop>
    requires small { pos < 2 ^ 32 }
    requires within { pos < length source.now }
    ensures agrees { Agrees (parser.switch_from source.now pos) decl_of result }
    ensures moves { Moves pos (length source.now) result }
{
    let at = source.token_index(pos);
    let (into, out) = pair(alloc, source, pos)?;
    let ports = ports(source, pos + 6)?;
    let switch = SwitchDecl {
        at,
        into,
        out,
        ports,
    };
    Ok((Decl::Switch(switch), pos + 9))
}

/// `ports n;`.
#[tactic(auto, unfolding(parsing::specs::PlainParser::reserved, parsing::specs::PlainParser::numbered, parsing::specs::PlainParser::marked))]
fn ports(source: &Source, pos: usize) -> Result<u32, Stop>
    ensures is { PortsAt source.now pos result }
    ensures within { IfOk
        result (λ _. (pos + 3 ≤ length source.now) × (length source.now ≤ 2 ^ 32)) }
{
    source.expect_keyword(pos, Keyword::Ports)?;
    let ports = source.number(pos + 1)?;
    source.expect(pos + 2, Mark::Semicolon)?;
    Ok(ports)
}

/// One declaration.
fn decl(alloc: Global, source: &Source, pos: usize) -> Result<(Decl, usize), Stop>
    ensures agrees { AgreesDeep (λ n. parser.decl_from source.now n pos) decl_of result }
    ensures moves { Moves pos (length source.now) result }
{
    if source.is_keyword(pos, Keyword::Function) {
        return function(alloc, source, pos);
    }
    if source.is_keyword(pos, Keyword::Assume) {
        return assumption(alloc, source, pos);
    }
    if source.is_keyword(pos, Keyword::Role) {
        return role(alloc, source, pos);
    }
    if source.is_keyword(pos, Keyword::Host) {
        return host(alloc, source, pos);
    }
    if source.is_keyword(pos, Keyword::Switch) {
        return switch(alloc, source, pos);
    }
    Err(Stop::Unexpected(pos))
}

/// What stands after the declarations of a level.
#[derive(Clone, Copy, Drop)]
enum Until {
    /// The closing brace of a refinement.
    Brace,
    /// A refinement, or the end of the text.
    Refine,
}

fn ends(source: &Source, pos: usize, until: Until) -> bool
    ensures { result ≡ stops_of until source.now pos }
{
    match until {
        Until::Brace => source.is_mark(pos, Mark::CloseBrace),
        Until::Refine => source.is_keyword(pos, Keyword::Refine) || source.is_end(pos),
    }
}

/// The declarations of a level.
fn decls(
    alloc: Global,
    source: &Source,
    pos: usize,
    until: Until,
) -> Result<(Vec<Decl>, usize), Stop>
    requires { pos ≤ length source.now }
    ensures agrees { AgreesDeep
        (λ n. parser.many_from (parser.decl_from source.now) (stops_of until source.now) n pos)
        (λ v. map decl_of v.items) result }
    ensures moves { Advances pos (length source.now) result }
{
    let mut decls = Vec::new(alloc);
    let mut next = pos;
    'decls: while !ends(source, next, until) {
        let (decl, after) = decl(alloc, source, next)?;
        decls.push(decl)?;
        next = after;
    }
    Ok((decls, next))
}

/// `refine r, .. within n { .. }`.
fn refine(alloc: Global, source: &Source, pos: usize) -> Result<(Refine, usize), Stop>
    ensures agrees { AgreesDeep (λ n. parser.refine_from source.now n pos) refine_of result }
    ensures moves { Moves pos (length source.now) result }
{
    source.expect_keyword(pos, Keyword::Refine)?;
    let (roles, next) = names(alloc, source, pos + 1)?;
    let within = limit(source, next)?;
    let decls = decls(alloc, source, next + 3, Until::Brace);
    let decls = then(source, decls, Mark::CloseBrace);
    refine_node(source.token_index(pos), roles, within, decls)
}

/// `within n {`.
#[tactic(auto, unfolding(parsing::specs::PlainParser::reserved, parsing::specs::PlainParser::numbered, parsing::specs::PlainParser::marked))]
fn limit(source: &Source, pos: usize) -> Result<u32, Stop>
    ensures is { LimitAt source.now pos result }
    ensures within { IfOk
        result (λ _. (pos + 3 ≤ length source.now) × (length source.now ≤ 2 ^ 32)) }
{
    source.expect_keyword(pos, Keyword::Within)?;
    let limit = source.number(pos + 1)?;
    source.expect(pos + 2, Mark::OpenBrace)?;
    Ok(limit)
}

fn refine_node(
    at: u32,
    roles: Vec<Name>,
    within: u32,
    decls: Result<(Vec<Decl>, usize), Stop>,
) -> Result<(Refine, usize), Stop>
    ensures { Makes (λ v. map decl_of v.items) refine_of (refinement at
        (map name_of roles.items) within) decls result }
{
    let (decls, end) = decls?;
    let refine = Refine {
        at,
        roles,
        within,
        decls,
    };
    Ok((refine, end))
}

/// All refinements, up to the end of the text.
fn refines(alloc: Global, source: &Source, pos: usize) -> Result<(Vec<Refine>, usize), Stop>
    requires { pos ≤ length source.now }
    ensures agrees { AgreesDeep
        (λ n. parser.many_from (parser.refine_from source.now) (parser.finishes source.now) n pos)
        (λ v. map refine_of v.items) result }
    ensures ends { IfOk result (λ r. parser.is_finish (slice_get source.now r.1) ≡ true) }
{
    let mut refines = Vec::new(alloc);
    let mut next = pos;
    'refines: while !source.is_end(next) {
        let (refine, after) = refine(alloc, source, next)?;
        refines.push(refine)?;
        next = after;
    }
    Ok((refines, next))
}

/// `x: bit<N>;`.
fn header_field(alloc: Global, source: &Source, pos: usize) -> Result<(Param, usize), Stop>
    ensures agrees { Agrees (parser.header_field_from source.now pos) param_of result }
    ensures moves { Moves pos (length source.now) result }
{
    then(source, param(alloc, source, pos), Mark::Semicolon)
}

/// One or more fields, up to a closing brace.
fn fields(alloc: Global, source: &Source, pos: usize) -> Result<(Vec<Param>, usize), Stop>
    ensures agrees { AgreesDeep (λ n. parser.some_from (λ m. parser.header_field_from source.now)
        (parser.closes source.now) n pos) (λ v. map param_of v.items) result }
    ensures moves { Moves pos (length source.now) result }
{
    let mut fields = Vec::new(alloc);
    let (first, mut next) = header_field(alloc, source, pos)?;
    fields.push(first)?;
    'fields: while !source.is_mark(next, Mark::CloseBrace) {
        let (field, after) = header_field(alloc, source, next)?;
        fields.push(field)?;
        next = after;
    }
    Ok((fields, next))
}

/// `header h { .. }`.
fn header(alloc: Global, source: &Source, pos: usize) -> Result<(HeaderDecl, usize), Stop>
    ensures agrees { AgreesDeep (λ n. parser.header_from source.now n pos) header_of result }
    ensures moves { Moves pos (length source.now) result }
{
    source.expect_keyword(pos, Keyword::Header)?;
    let name = source.name(alloc, pos + 1)?;
    source.expect(pos + 2, Mark::OpenBrace)?;
    let fields = then(source, fields(alloc, source, pos + 3), Mark::CloseBrace);
    header_node(name, fields)
}

fn header_node(
    name: Name,
    fields: Result<(Vec<Param>, usize), Stop>,
) -> Result<(HeaderDecl, usize), Stop>
    ensures { Makes (λ v. map param_of v.items) header_of (headed (name_of name)) fields result }
{
    let (fields, end) = fields?;
    Ok((HeaderDecl { name, fields }, end))
}

/// One or more headers, up to a closing brace.
fn headers(alloc: Global, source: &Source, pos: usize) -> Result<(Vec<HeaderDecl>, usize), Stop>
    ensures agrees { AgreesDeep
        (λ n. parser.some_from (parser.header_from source.now) (parser.closes source.now) n pos)
        (λ v. map header_of v.items) result }
    ensures moves { Moves pos (length source.now) result }
{
    let mut headers = Vec::new(alloc);
    let (first, mut next) = header(alloc, source, pos)?;
    headers.push(first)?;
    'headers: while !source.is_mark(next, Mark::CloseBrace) {
        let (header, after) = header(alloc, source, next)?;
        headers.push(header)?;
        next = after;
    }
    Ok((headers, next))
}

/// A whole design.
pub fn design(alloc: Global, source: &Source) -> Result<(Design, usize), Stop>
    ensures { AgreesDeep (parser.design_from source.now) design_of result }
{
    source.expect_keyword(0, Keyword::Packet)?;
    source.expect(1, Mark::OpenBrace)?;
    let (headers, close) = headers(alloc, source, 2)?;
    source.expect(close, Mark::CloseBrace)?;
    let (decls, next) = decls(alloc, source, close + 1, Until::Refine)?;
    let (refines, end) = refines(alloc, source, next)?;
    let design = Design {
        headers,
        decls,
        refines,
    };
    Ok((design, end))
}
