//! Programs of the P4-16 subset.
ghost use Rattle.p4_ir.specs.P4Tree as tree;
ghost use Rattle.p4_ir.specs.Program.{table_of};

use cocoon_num::copies::Copied;
use cocoon_num::{Bits, List, NoMemory, Text};
use std::alloc::Global;

#[derive(Clone, Copy, Debug, Drop)]
pub enum P4Unary {
    Flip,
    Not,
}

#[derive(Clone, Copy, Debug, Drop)]
pub enum P4Binary {
    Add,
    Sub,
    BitAnd,
    BitOr,
    BitXor,
    Concat,
    Equal,
    Unequal,
    Less,
    LessEqual,
    Greater,
    GreaterEqual,
    And,
    Or,
}

#[derive(Drop)]
pub enum P4Expr {
    Lit(Bits),
    Truth(bool),
    Meta(u32),
    Field(u32, u32),
    Port,
    Rid,
    Unary(P4Unary, Box<P4Expr>),
    Binary(P4Binary, Box<P4Expr>, Box<P4Expr>),
    Slice(Box<P4Expr>, u8, u8),
    Pick(Box<P4Expr>, Box<P4Expr>, Box<P4Expr>),
}

#[derive(Drop)]
pub enum P4Stmt {
    SetMeta(u32, P4Expr),
    SetField(u32, u32, P4Expr),
    Apply(u32),
    If(P4Expr, Vec<P4Stmt>),
    IfElse(P4Expr, Vec<P4Stmt>, Vec<P4Stmt>),
    Verdict(u8),
    EgressPort(P4Expr),
    Group(P4Expr),
    Return,
}

#[derive(Drop)]
pub struct P4Field {
    pub name: Text,
    pub width: u8,
}

#[derive(Drop)]
pub struct P4Header {
    pub name: Text,
    pub fields: List<P4Field>,
}

#[derive(Drop)]
pub struct Table {
    pub number: u32,
    pub exact: bool,
    pub keys: List<u32>,
    pub result: u32,
}

#[derive(Drop)]
pub struct Control {
    pub tables: List<Table>,
    pub body: List<P4Stmt>,
}

#[derive(Drop)]
pub struct Program {
    pub headers: List<P4Header>,
    pub meta: List<P4Field>,
    pub ingress: Control,
    pub egress: Control,
}

impl Copied for Table {
    ghost Meaning = { tree.P4Table };

    ghost meaning = { table_of };

    fn copy(&self, alloc: Global) -> Result<Table, NoMemory> {
        Ok(Table {
            number: self.number,
            exact: self.exact,
            keys: List::from(self.keys.items().to_vec(alloc)?),
            result: self.result,
        })
    }
}
