//! Resolved statements, run one after another.
ghost use Rattle.std.specs.Prelude.{◌≡◌, ◌%◌, ◌^◌, if◌then◌else◌, map, slice_set};
ghost use Rattle.p4_run.specs.Held.{held};
ghost use Rattle.p4_run.specs.Meaning.{truth_by};
ghost use Rattle.p4_run.specs.Effects.{applied_at, applied_to, goes_on, ran, stmt_by, stmts_by};

use crate::evaluating::{number, truth};
use crate::expr_codes::TruthCode;
use crate::registers::Registers;
use crate::stmt_codes::{Application, StmtCode};

/// How statements end.
#[derive(Clone, Copy, Drop)]
pub enum Way {
    Proceeds,
    Returned,
}

/// Sets the number at an index, where there is one.
#[inline(always)]
#[tactic(auto, using(crate::proofs::SetFacts::set_nothing))]
fn set(numbers: &mut [u64], index: usize, number: u64)
    ensures { numbers.new ≡ slice_set numbers.old index number }
{
    if index < numbers.len() {
        numbers[index] = number;
    }
}

/// The lowest 64 bits.
#[inline(always)]
fn low(number: u128) -> u64
    ensures { result ≡ number % 2 ^ 64 }
{
    (number % (1 << 64)) as u64
}

/// The lowest 16 bits.
#[inline(always)]
fn lowest(number: u128) -> u16
    ensures { result ≡ number % 2 ^ 16 }
{
    (number % (1 << 16)) as u16
}

/// Applies a table, if there are as many meta fields as it wants.
fn apply(meta: &mut [u64], table: &Application)
    ensures { meta.new ≡ applied_to table.now meta.old }
{
    if meta.len() >= table.meta_count {
        let found = table.rows.look(&table.keys, meta);
        set(meta, table.result, found);
    }
}

/// Applies the table at an index, if there is one.
fn apply_at(meta: &mut [u64], tables: &[Application], index: usize)
    ensures { meta.new ≡ applied_at tables.now index meta.old }
{
    if let Some(table) = tables.get(index) {
        apply(meta, table);
    }
}

/// Runs a statement.
#[cycle(run)]
fn run(registers: &mut Registers, tables: &[Application], stmt: &StmtCode) -> Way
    ensures { ran result (held registers.new) ≡ stmt_by stmt.now tables.now
        (held registers.old) }
{
    match stmt {
        StmtCode::SetMeta(index, code) => {
            let value = number(code, registers);
            set(&mut registers.meta, *index, low(value));
            Way::Proceeds
        }
        StmtCode::SetField(index, code) => {
            let value = number(code, registers);
            set(&mut registers.fields, *index, low(value));
            Way::Proceeds
        }
        StmtCode::Apply(index) => {
            apply_at(&mut registers.meta, tables, *index);
            Way::Proceeds
        }
        StmtCode::If(condition, first) => run_if(registers, tables, first, condition),
        StmtCode::IfElse(condition, first, second) => {
            if truth(condition, registers) {
                run_all(registers, tables, first)
            } else {
                run_all(registers, tables, second)
            }
        }
        StmtCode::Verdict(verdict) => {
            registers.verdict = *verdict;
            Way::Proceeds
        }
        StmtCode::EgressPort(code) => {
            registers.egress_port = lowest(number(code, registers));
            Way::Proceeds
        }
        StmtCode::Group(code) => {
            registers.group = lowest(number(code, registers));
            Way::Proceeds
        }
        StmtCode::Return => Way::Returned,
    }
}

/// Runs statements one after another, until one returns.
#[cycle(run)]
pub fn run_all(registers: &mut Registers, tables: &[Application], stmts: &[StmtCode]) -> Way
    ensures { ran result (held registers.new)
        ≡ stmts_by (map stmt_by stmts.now) tables.now (held registers.old) }
{
    for stmt in stmts {
        match run(registers, tables, stmt) {
            Way::Proceeds => {}
            Way::Returned => return Way::Returned,
        }
    }
    Way::Proceeds
}

/// Runs statements where a condition holds.
#[cycle(run)]
#[inline(always)]
fn run_if(
    registers: &mut Registers,
    tables: &[Application],
    stmts: &[StmtCode],
    condition: &TruthCode,
) -> Way
    ensures { ran result (held registers.new) ≡ if truth_by condition.now (held registers.old)
        then stmts_by (map stmt_by stmts.now) tables.now (held registers.old)
        else goes_on (held registers.old) }
{
    if truth(condition, registers) {
        run_all(registers, tables, stmts)
    } else {
        Way::Proceeds
    }
}
