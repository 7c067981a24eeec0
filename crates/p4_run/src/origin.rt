//! What was loaded, for clauses alone.
ghost use Rattle.std.specs.Prelude.{◌≡◌};
ghost use Rattle.std.specs.Borrow.{ftrue};
ghost use Rattle.std.specs.Coded.{codes};
ghost use Rattle.p4_ir.specs.contracts.program.P4Expr as expr;
ghost use Rattle.p4_ir.specs.contracts.program.P4Stmt as stmt;
ghost use Rattle.p4_ir.specs.declared.program.Program as code;
ghost use Rattle.p4_ir.specs.declared.rows.RowsFile as files;

use p4_ir::{Program, RowsFile};
use std::marker::Model;

/// The program and the rows that were loaded. It has no bytes: clauses read it, and no code does.
#[derive(Drop)]
pub struct Origin {
    pub ghost program: { code.Program } by { Prim.hlevel (codes, expr.the_row.coded, stmt.the_row.coded) },
    pub ghost rows: { files.RowsFile },
}

impl Model for Origin {
    ghost also_owns = { λ _. ftrue };
}

impl Origin {
    pub(crate) fn of(_program: &Program, _rows: &RowsFile) -> Origin
        ensures { (result.program ≡ _program.now) × (result.rows ≡ _rows.now) }
    {
        Origin {}
    }
}
