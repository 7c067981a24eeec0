//! Resolved statements.
ghost use Rattle.std.specs.Prelude.{All, ◌≡◌, ◌<◌, length};
ghost use Rattle.std.proofs.Props.{props};
ghost use Rattle.row_search.specs.GroupsLaid.{key_count};

use crate::expr_codes::{NumberCode, TruthCode};
use row_search::LaidRows;

/// A table as it is applied: its rows, laid flat, and which meta fields are its keys and its result.
#[derive(Drop)]
pub struct Application {
    pub(crate) rows: LaidRows,
    pub(crate) keys: Vec<u32>,
    pub(crate) result: usize,
    /// How many meta fields there are.
    pub(crate) meta_count: usize,
    ghost some: { 0 < length keys.items },
    ghost many: { length keys.items ≡ key_count rows },
    ghost within: { All (λ key. key < meta_count) keys.items } by { Prim.hlevel props },
}

/// A statement, in which nothing but rows is left to be looked up.
#[derive(Drop)]
pub enum StmtCode {
    SetMeta(usize, NumberCode),
    /// A field, by its index among those of all headers.
    SetField(usize, NumberCode),
    /// A table, by its index among those that are given.
    Apply(usize),
    If(TruthCode, Vec<StmtCode>),
    IfElse(TruthCode, Vec<StmtCode>, Vec<StmtCode>),
    Verdict(u8),
    EgressPort(NumberCode),
    Group(NumberCode),
    Return,
}
