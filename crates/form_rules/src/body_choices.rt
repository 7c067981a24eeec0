//! The choices of a body.
ghost use Rattle.std.specs.Prelude.{◌≡◌, ◌++◌, OnOk, map};
ghost use Rattle.cocoon_syntax.specs.TreeOf.{block_of, stmt_of};
ghost use Rattle.form_rules.specs.Following.{choices_in, choices_of};

use cocoon_num::NoMemory;
use cocoon_syntax::{Stmt, StmtKind};

/// Adds the token indices of the choices in some statements.
#[cycle(choices)]
pub(crate) fn note_block(choices: &mut Vec<u32>, stmts: &[Stmt]) -> Result<(), NoMemory>
    ensures { OnOk result (choices.new.items ≡
        choices.old.items ++ choices_in (block_of (map stmt_of stmts.now))) }
{
    for stmt in stmts {
        note_stmt(choices, stmt)?;
    }
    Ok(())
}

#[cycle(choices)]
fn note_stmt(choices: &mut Vec<u32>, stmt: &Stmt) -> Result<(), NoMemory>
    ensures { OnOk result
        (choices.new.items ≡ choices.old.items ++ choices_of (stmt_of stmt.now)) }
{
    match &stmt.kind {
        StmtKind::If(_, first, second) => {
            note_block(choices, first)?;
            note_block(choices, second)?;
        }
        StmtKind::HavocVar(_, _) => choices.push(stmt.at)?,
        StmtKind::HavocField(_, _) => choices.push(stmt.at)?,
        StmtKind::Fork(_, _, _, body) => {
            choices.push(stmt.at)?;
            note_block(choices, body)?;
        }
        _ => {}
    }
    Ok(())
}
