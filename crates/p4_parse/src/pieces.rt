//! Fixed pieces of texts: what stands in every text.
ghost use Rattle.std.specs.Prelude.{◌≡◌, ◌<◌, ◌≤◌, ◌^◌, IfErr, IfOk, length};
ghost use Rattle.cocoon_num.specs.Tokens.{without_finish};
ghost use Rattle.p4_texts.specs.Machine.{fixed};
ghost use Rattle.p4_parse.specs.Phrases.{Fixed, kinds_at};
ghost use Rattle.p4_parse.specs.Pieces.{piece_text, piece_tokens};

use crate::source::Source;
use crate::{LexFault, Token, lex};
use parsing::Stop;
use std::alloc::Global;

/// A fixed piece of a text.
#[derive(Clone, Copy, Drop)]
pub enum Piece {
    Architecture,
    Headers,
    Meta,
    Parser,
    Extract,
    Ingress,
    IngressBegins,
    Egress,
    EgressBegins,
    Deparser,
    Emit,
    End,
}

impl Piece {
    /// How it is written.
    pub fn text(self) -> &'static str
        ensures { result.now ≡ piece_text self }
    {
        match self {
            Piece::Architecture =>
                "#include <core.p4> parser CocoonParser<H, M>(packet_in b, out H h, inout M m); control CocoonIngress<H, M>(inout H h, inout M m, in bit<16> port, out bit<8> verdict, out bit<16> egress_port, out bit<16> group); control CocoonEgress<H, M>(inout H h, inout M m, in bit<64> rid, out bit<8> verdict, out bit<16> egress_port); control CocoonDeparser<H>(packet_out b, in H h); package CocoonSwitch<H, M>(CocoonParser<H, M> p, CocoonIngress<H, M> i, CocoonEgress<H, M> e, CocoonDeparser<H> d);",
            Piece::Headers => "struct Headers {",
            Piece::Meta => "} struct Meta {",
            Piece::Parser => "parser Prs(packet_in b, out Headers h, inout Meta m) { state start {",
            Piece::Extract => "b.extract(h.",
            Piece::Ingress =>
                "transition accept; } } control Ing(inout Headers h, inout Meta m, in bit<16> port, out bit<8> verdict, out bit<16> egress_port, out bit<16> group) {",
            Piece::IngressBegins => "verdict = 8w0; egress_port = 16w0; group = 16w0;",
            Piece::Egress =>
                "control Egr(inout Headers h, inout Meta m, in bit<64> rid, out bit<8> verdict, out bit<16> egress_port) {",
            Piece::EgressBegins => "verdict = 8w0; egress_port = 16w0;",
            Piece::Deparser => "control Dep(packet_out b, in Headers h) { apply {",
            Piece::Emit => "b.emit(h.",
            Piece::End => "} } CocoonSwitch(Prs(), Ing(), Egr(), Dep()) main;",
        }
    }
}

/// The tokens of a fixed piece, and their end.
pub fn lexed(alloc: Global, piece: Piece) -> Result<Vec<Token>, Stop>
    ensures tokens { IfOk result (λ v.
        without_finish (kinds_at (piece_text piece) v.items) ≡ piece_tokens piece) }
    ensures few { IfOk result (λ v. length v.items ≤ 2 ^ 32) }
    ensures stop { IfErr result (λ stop. stop ≡ Stop.NoMemory) }
{
    match lex(alloc, piece.text().as_bytes()) {
        Ok(tokens) => Ok(tokens),
        Err(LexFault::NoMemory) => Err(Stop::NoMemory),
        Err(LexFault::NoToken(_)) => unreachable!(),
    }
}

/// Demands the tokens of a piece before its end, and gives the next index.
pub fn expect_all(source: &Source, pos: usize, piece: &Source) -> Result<usize, Stop>
    requires within { pos ≤ length source.now }
    requires some { 0 < length (without_finish piece.now) }
    ensures { Fixed (fixed (without_finish piece.now)) (without_finish piece.now) source.now pos
        result }
{
    let mut next = pos;
    let mut index = 0;
    'tokens: while !piece.is_end(index) {
        if !source.is_same(next, piece, index) {
            return Err(Stop::Unexpected(next));
        }
        next += 1;
        index += 1;
    }
    Ok(next)
}

/// Demands a fixed piece, and gives the next index.
pub fn expect_piece(alloc: Global, source: &Source, pos: usize, piece: Piece) -> Result<usize, Stop>
    requires { pos ≤ length source.now }
    ensures { Fixed (fixed (piece_tokens piece)) (piece_tokens piece) source.now pos result }
{
    let tokens = lexed(alloc, piece)?;
    let piece = Source::new(piece.text().as_bytes(), &tokens);
    expect_all(source, pos, &piece)
}
