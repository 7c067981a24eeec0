//! P4 texts as they are written: no name is looked up, and any name stands where the grammar has one. What reads tokens makes
//! these trees, and what looks names up takes them.

use cocoon_num::{Bits, List, Text};
use p4_ir::{P4Binary, P4Unary};

#[derive(Drop)]
pub enum WrittenExpr {
    Lit(Bits),
    Truth(bool),
    /// `m.NAME`
    Meta(Text),
    /// `h.HEADER.FIELD`
    Field(Text, Text),
    Port,
    Rid,
    Unary(P4Unary, Box<WrittenExpr>),
    Binary(P4Binary, Box<WrittenExpr>, Box<WrittenExpr>),
    Slice(Box<WrittenExpr>, u32, u32),
    Pick(Box<WrittenExpr>, Box<WrittenExpr>, Box<WrittenExpr>),
}

#[derive(Drop)]
pub enum WrittenStmt {
    /// `m.NAME = E;`
    SetMeta(Text, WrittenExpr),
    /// `h.HEADER.FIELD = E;`
    SetField(Text, Text, WrittenExpr),
    /// `NAME.apply();`
    Apply(Text),
    If(WrittenExpr, Vec<WrittenStmt>),
    IfElse(WrittenExpr, Vec<WrittenStmt>, Vec<WrittenStmt>),
    Verdict(Bits),
    EgressPort(WrittenExpr),
    Group(WrittenExpr),
    Return,
}

/// `bit<W> NAME;`
#[derive(Drop)]
pub struct WrittenField {
    pub width: u32,
    pub name: Text,
}

#[derive(Drop)]
pub struct WrittenHeader {
    pub name: Text,
    pub fields: List<WrittenField>,
}

/// A line of `struct Headers`: the name of a header, and its own.
#[derive(Drop)]
pub struct WrittenMember {
    pub header: Text,
    pub name: Text,
}

/// An action and its table. Where there are no keys, `exact` is false.
#[derive(Drop)]
pub struct WrittenTable {
    pub action: Text,
    pub width: u32,
    pub result: Text,
    pub table: Text,
    pub exact: bool,
    pub keys: List<Text>,
    pub actions: Text,
    pub default_action: Text,
    pub default: Bits,
}

#[derive(Drop)]
pub struct WrittenControl {
    pub tables: List<WrittenTable>,
    pub body: List<WrittenStmt>,
}

/// A whole text. The lines of the struct, the parser and the deparser are in their order.
#[derive(Drop)]
pub struct WrittenProgram {
    pub headers: List<WrittenHeader>,
    pub members: List<WrittenMember>,
    pub meta: List<WrittenField>,
    pub extracts: List<Text>,
    pub ingress: WrittenControl,
    pub egress: WrittenControl,
    pub emits: List<Text>,
}
