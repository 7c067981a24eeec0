//! The walk over the statements of a body.
ghost use Rattle.form_rules.specs.Stmts.{has_fork, holds_fork};
ghost use Rattle.form_rules.specs.Tested.{beside_forks, in_block, in_stmt};
ghost use Rattle.cocoon_syntax.specs.TreeOf.{block_of, design_of, stmt_of};
ghost use Rattle.cocoon_types.specs.Noting.{Notes};
ghost use Rattle.declarations.specs.Declares.{Declares};
ghost use Rattle.std.specs.Prelude.{◌≡◌, ◌||◌, map};

use crate::choices::note_choice;
use crate::forks::note_fork;
use crate::sends::{Sender, note_send};
use crate::wires::{Wire, note_wire};
use cocoon_syntax::{Design, Stmt, StmtKind};
use cocoon_types::Noted;
use cocoon_types::first_faults::noting_laws;
use declarations::Declarations;

/// What is asked of the statements of a body, beside that none is a choice.
#[derive(Clone, Copy, Drop)]
pub(crate) struct Asked<'d> {
    /// Where its role is a wire.
    pub wire: Option<Wire<'d>>,
    /// Where its role is the first switch role.
    pub sender: Option<Sender<'d>>,
}

/// The first has a fork, or the second.
fn either(first: bool, second: bool) -> bool
    ensures { result ≡ (first || second) }
{
    first || second
}

/// Notes the faults of a statement itself, but for the form of a fork.
fn note_itself(asked: &Asked<'_>, stmt: &Stmt, noted: &mut Noted)
    ensures { Notes (beside_forks asked.now (stmt_of stmt.now)) noted.old noted.new }
{
    noting_laws();
    note_choice(stmt, noted);
    note_wire(asked.wire, stmt, noted);
    note_send(asked.sender, stmt, noted);
}

/// Notes the faults of a block, and says whether it has a fork.
#[cycle(stmts)]
pub(crate) fn note_block(
    names: &Declarations,
    design: &Design,
    asked: &Asked<'_>,
    stmts: &[Stmt],
    noted: &mut Noted,
) -> bool
    requires { Declares names.now (design_of design.now) }
    ensures forks { result ≡ holds_fork (block_of (map stmt_of stmts.now)) }
    ensures noted { Notes
        (in_block (design_of design.now) asked.now (block_of (map stmt_of stmts.now)))
        noted.old noted.new }
{
    noting_laws();
    let mut forks = false;
    for stmt in stmts {
        let more = note_stmt(names, design, asked, stmt, noted);
        forks = either(forks, more);
    }
    forks
}

/// Notes the faults of a statement, its blocks included, and says whether it is a fork or has one.
#[cycle(stmts)]
fn note_stmt(
    names: &Declarations,
    design: &Design,
    asked: &Asked<'_>,
    stmt: &Stmt,
    noted: &mut Noted,
) -> bool
    requires { Declares names.now (design_of design.now) }
    ensures forks { result ≡ has_fork (stmt_of stmt.now) }
    ensures noted { Notes (in_stmt (design_of design.now) asked.now (stmt_of stmt.now))
        noted.old noted.new }
{
    noting_laws();
    note_itself(asked, stmt, noted);
    match &stmt.kind {
        StmtKind::If(_, first, second) => {
            let first = note_block(names, design, asked, first, noted);
            let second = note_block(names, design, asked, second, noted);
            either(first, second)
        }
        StmtKind::Fork(variable, _, condition, body) => {
            let forks = note_block(names, design, asked, body, noted);
            note_fork(
                names,
                design,
                asked.sender,
                stmt.at,
                variable,
                condition,
                forks,
                noted,
            );
            true
        }
        _ => false,
    }
}
