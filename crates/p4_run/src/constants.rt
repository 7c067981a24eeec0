//! Meta fields that have the same number wherever a program sets them, as it seems. No answer depends on it, but the time that
//! look-ups take.

use cocoon_num::NoMemory;
use p4_ir::{P4Expr, P4Stmt, Program, Table};
use std::alloc::Global;

/// What a program sets a meta field to.
#[derive(Clone, Copy, Drop)]
enum Setting {
    Nothing,
    Number(u64),
    Others,
}

/// For each meta field of a program what it is set to.
#[derive(Drop)]
pub struct Constants {
    settings: Vec<Setting>,
}

/// The lowest 64 bits of an expression that is a literal.
fn literal(value: &P4Expr) -> Option<u64> {
    match value {
        P4Expr::Lit(bits) => Some((bits.value % (1 << 64)) as u64),
        _ => None,
    }
}

fn joined(before: Setting, number: Option<u64>) -> Setting {
    let Some(number) = number else {
        return Setting::Others;
    };
    match before {
        Setting::Nothing => Setting::Number(number),
        Setting::Number(same) => {
            if same == number {
                before
            } else {
                Setting::Others
            }
        }
        Setting::Others => Setting::Others,
    }
}

/// The field of this index is set to a number, or to what is not known.
fn note(settings: &mut [Setting], field: u32, number: Option<u64>) {
    let index = field as usize;
    if index < settings.len() {
        settings[index] = joined(settings[index], number);
    }
}

#[cycle(note)]
fn note_stmt(settings: &mut [Setting], stmt: &P4Stmt) {
    match stmt {
        P4Stmt::SetMeta(field, value) => note(settings, *field, literal(value)),
        P4Stmt::If(_, first) => note_all(settings, first),
        P4Stmt::IfElse(_, first, second) => {
            note_all(settings, first);
            note_all(settings, second);
        }
        _ => {}
    }
}

#[cycle(note)]
fn note_all(settings: &mut [Setting], stmts: &[P4Stmt]) {
    for stmt in stmts {
        note_stmt(settings, stmt);
    }
}

fn note_results(settings: &mut [Setting], tables: &[Table]) {
    for table in tables {
        note(settings, table.result, None);
    }
}

impl Constants {
    /// Those of a program.
    pub fn of(alloc: Global, program: &Program) -> Result<Constants, NoMemory> {
        let mut settings = vec![in alloc; Setting::Nothing; program.meta.items().len()]?;
        note_all(&mut settings, program.ingress.body.items());
        note_all(&mut settings, program.egress.body.items());
        note_results(&mut settings, program.ingress.tables.items());
        note_results(&mut settings, program.egress.tables.items());
        Ok(Constants { settings })
    }

    /// The one number that a meta field is set to.
    pub(crate) fn number(&self, field: u32) -> Option<u64> {
        match self.settings.get(field as usize) {
            Some(Setting::Number(number)) => Some(*number),
            _ => None,
        }
    }
}
