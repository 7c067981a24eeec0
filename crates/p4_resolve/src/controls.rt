//! Controls: their tables, each after those before it, and their statements.
ghost use Rattle.std.specs.Prelude.{◌≡◌, ◌+◌, ◌∷◌, [], IfErr, IfOk, List as Items, OnOk, length, map, ℕ};
ghost use Rattle.p4_ir.specs.Program as ir;
ghost use Rattle.p4_texts.specs.KindFaults.{control_pieces, table_pieces};
ghost use Rattle.p4_ir.specs.P4Text.{said};
ghost use Rattle.p4_resolve.specs.Controls.{ControlKeeps, IsBefore, KnowsText, TablesKeep, action_names, table_numbers};
ghost use Rattle.p4_resolve.specs.Judged.{StopsBy};
ghost use Rattle.p4_texts.specs.Written.{ProgramText, TableText};
ghost use Rattle.p4_texts.specs.TreeOf.{control_of, table_of};

use crate::fault::KindFault;
use crate::pieces::{after, pass};
use crate::scope::Scope;
use crate::stmts::block;
use crate::table_rules::{action_fits, after_keys, fitting_table};
use cocoon_num::List;
use p4_ir::{Control, Table};
use p4_kinds::numbers::numbers_of;
use p4_texts::written::{WrittenControl, WrittenTable};
use std::alloc::Global;
use std::collections::BTreeSet;

/// The actions that were declared before, and the least number that the next table may have.
#[derive(Drop)]
pub(crate) struct Before {
    pub actions: BTreeSet<Vec<u8>>,
    pub least: u32,
}

impl Before {
    pub fn none(alloc: Global) -> Before
        ensures { (t : ProgramText) → IsBefore result t [] }
    {
        Before {
            actions: BTreeSet::new(alloc),
            least: 0,
        }
    }
}

/// A table with its action, after those before.
fn table(
    alloc: Global,
    at: u32,
    scope: &Scope,
    before: &mut Before,
    table: &WrittenTable,
) -> Result<(Table, u32), KindFault>
    ensures keeps { (t : ProgramText) (done : Items TableText) → KnowsText scope.now t
        → IsBefore before.old t done → IfOk result (λ made.
        TablesKeep t done (table_of table.now ∷ []) at (ir.table_of made.0 ∷ []) before.new
        made.1) }
    ensures stops { (t : ProgramText) (done : Items TableText) → KnowsText scope.now t
        → IsBefore before.old t done → IfErr result (StopsBy at
        (table_pieces t (action_names done) (table_numbers t done) (table_of table.now ∷ []))) }
{
    let fits = action_fits(alloc, scope, &mut before.actions, table)?;
    let middle = pass(at, 17, fits)?;
    match fitting_table(alloc, scope, before.least, table)? {
        Some(made) => {
            before.least = after(made.number, 1);
            let end = after_keys(after(middle, 21), table.keys.items());
            Ok((made, end))
        }
        None => Err(KindFault::Kind(middle)),
    }
}

/// The tables of a control.
fn tables(
    alloc: Global,
    at: u32,
    scope: &Scope,
    before: &mut Before,
    tables: &[WrittenTable],
) -> Result<(Vec<Table>, u32), KindFault>
    ensures keeps { (t : ProgramText) (done : Items TableText) → KnowsText scope.now t
        → IsBefore before.old t done → IfOk result (λ made.
        TablesKeep t done (map table_of tables.now) at (map ir.table_of made.0.items) before.new
        made.1) }
    ensures stops { (t : ProgramText) (done : Items TableText) → KnowsText scope.now t
        → IsBefore before.old t done → IfErr result (StopsBy at
        (table_pieces t (action_names done) (table_numbers t done) (map table_of tables.now))) }
{
    let mut made = Vec::new(alloc);
    let mut next = at;
    for written in tables {
        let (table, end) = table(alloc, next, scope, before, written)?;
        made.push(table)?;
        next = end;
    }
    Ok((made, next))
}

/// A control, whose statements stand after so many tokens.
pub(crate) fn control(
    alloc: Global,
    at: u32,
    scope: &mut Scope,
    before: &mut Before,
    fixed: u32,
    control: &WrittenControl,
) -> Result<(Control, u32), KindFault>
    ensures keeps { (t : ProgramText) (done : Items TableText) (begin : Items ℕ)
        → fixed ≡ 2 + length (said begin) → KnowsText scope.old t → IsBefore before.old t done
        → IfOk result (λ made.
        ControlKeeps t done scope.old.in_ingress begin (control_of control.now) at
        (ir.control_of made.0) before.new made.1) }
    ensures known { (t : ProgramText) → KnowsText scope.old t
        → OnOk result (KnowsText scope.new t) }
    ensures stops { (t : ProgramText) (done : Items TableText) (begin : Items ℕ)
        → fixed ≡ 2 + length (said begin) → KnowsText scope.old t → IsBefore before.old t done
        → IfErr result (StopsBy at
        (control_pieces t done scope.old.in_ingress begin (control_of control.now))) }
{
    let (tables, head) = tables(alloc, at, scope, before, control.tables.items())?;
    let numbers = numbers_of(alloc, &tables)?;
    scope.tables = numbers;
    let begin = after(head, fixed);
    let (body, close) = block(alloc, scope, begin, control.body.items())?;
    let end = after(close, 2);
    let tables = List::from(tables);
    let body = List::from(body);
    Ok((Control { tables, body }, end))
}
