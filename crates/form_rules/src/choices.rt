//! Choices at the last level.
ghost use Rattle.form_rules.specs.Tested.{choice_fails};
ghost use Rattle.cocoon_syntax.specs.TreeOf.{stmt_of};
ghost use Rattle.cocoon_types.specs.FormRules as spec;
ghost use Rattle.cocoon_types.specs.Noting.{Notes};
ghost use Rattle.cocoon_types.specs.Rules.{last_choice};
ghost use Rattle.cocoon_types.specs.Among.{among};
ghost use Rattle.std.specs.Prelude.{◌≡◌};

use cocoon_syntax::{Stmt, StmtKind};
use cocoon_types::{Noted, TypeRule, note_unless};

/// A statement makes or limits a choice.
fn is_choice(stmt: &Stmt) -> bool
    ensures { result ≡ spec.is_choice (stmt_of stmt.now) }
{
    match &stmt.kind {
        StmtKind::HavocVar(_, _) => true,
        StmtKind::HavocField(_, _) => true,
        StmtKind::Assume(_) => true,
        _ => false,
    }
}

/// Notes a statement that makes or limits a choice.
pub(crate) fn note_choice(stmt: &Stmt, noted: &mut Noted)
    ensures { Notes (among last_choice (choice_fails (stmt_of stmt.now))) noted.old noted.new }
{
    note_unless(noted, !is_choice(stmt), TypeRule::LastChoice, stmt.at);
}
