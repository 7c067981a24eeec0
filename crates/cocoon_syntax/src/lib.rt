//! The trees of designs and of definitions as types of the code. They follow the grammar in the section "Texts" of
//! docs/LANGUAGE.md: a `Design` is a design text without its marks, and a `DefsText` is a definitions text without
//! them. The `at` of a node is the token index that the section gives it.
//!
//! A copy is equal to its original, and shares nothing with it. A tree says nothing of whether its text keeps the rules
//! of the language: names may be unknown and widths may be any.
#![tactic(auto)]

pub mod decl;
pub mod defs;
pub mod expr;
pub mod name;
pub mod stmt;

pub use decl::{
    AssumeDecl, Decl, Design, FunctionDecl, HeaderDecl, HostDecl, Param, Refine, ResultKind, Role,
    SwitchDecl,
};
pub use defs::{Const, DefsText, Entry, Pattern};
pub use expr::{BinaryOp, Expr, ExprKind, UnaryOp};
pub use name::Name;
pub use stmt::{Stmt, StmtKind};
