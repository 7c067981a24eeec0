//! The walk over statements: which may stand in which control.
ghost use Rattle.std.specs.Prelude.{◌≡◌, ◌==◌, ◌&&◌, ◌||◌, List, map, nat_le, not, ℕ};
ghost use Rattle.cocoon_num.specs.Lists as lists;
ghost use Rattle.p4_ir.specs.P4Kinds as rules;
ghost use Rattle.p4_ir.specs.Program.{block_of, program_of, stmt_of};
ghost use Rattle.p4_kinds.specs.Seen.{HasNumbers};
ghost use Rattle.p4_kinds.specs.Typed.{within};

use crate::exprs::{expr_sort, field_sort, meta_sort};
use crate::sort::{are_same, is_truth, is_wide};
use p4_ir::{P4Stmt, Program};
use std::collections::BTreeSet;

/// 0 and 1 stand everywhere, and 2 in ingress.
fn verdict_fits(in_ingress: bool, verdict: u8) -> bool
    ensures { result ≡ (nat_le verdict 1 || (in_ingress && (verdict == 2))) }
{
    verdict <= 1 || in_ingress && verdict == 2
}

fn has_number(numbers: &BTreeSet<u32>, number: u32) -> bool
    ensures { (all : List ℕ) → HasNumbers numbers.now.keys all
        → result ≡ lists.has_number number all }
{
    numbers.contains(&number)
}

/// The block of an `else` has a statement.
#[tactic(auto, using(crate::proofs::StmtFacts::empty_block))]
fn is_filled(stmts: &Vec<P4Stmt>) -> bool
    ensures { result ≡ not (rules.is_empty (block_of (map stmt_of stmts.now.items))) }
{
    !stmts.is_empty()
}

#[cycle(stmts)]
fn stmt_fits(program: &Program, in_ingress: bool, tables: &BTreeSet<u32>, stmt: &P4Stmt) -> bool
    ensures { (numbers : List ℕ) → HasNumbers tables.now.keys numbers
        → result ≡ rules.stmt_fits
        (within (program_of program.now) in_ingress numbers) (stmt_of stmt.now) }
{
    match stmt {
        P4Stmt::SetMeta(index, value) => {
            let sort = meta_sort(program, *index);
            are_same(sort, expr_sort(program, in_ingress, value))
        }
        P4Stmt::SetField(header, field, value) => {
            let sort = field_sort(program, *header, *field);
            are_same(sort, expr_sort(program, in_ingress, value))
        }
        P4Stmt::Apply(number) => has_number(tables, *number),
        P4Stmt::If(condition, first) => {
            is_truth(expr_sort(program, in_ingress, condition))
                && block_fits(program, in_ingress, tables, first)
        }
        P4Stmt::IfElse(condition, first, second) => {
            let is_condition = is_truth(expr_sort(program, in_ingress, condition));
            let first_fits = block_fits(program, in_ingress, tables, first);
            let second_fits = block_fits(program, in_ingress, tables, second);
            is_condition && first_fits && is_filled(second) && second_fits
        }
        P4Stmt::Verdict(verdict) => verdict_fits(in_ingress, *verdict),
        P4Stmt::EgressPort(port) => is_wide(expr_sort(program, in_ingress, port), 16),
        P4Stmt::Group(group) => in_ingress && is_wide(expr_sort(program, in_ingress, group), 16),
        P4Stmt::Return => true,
    }
}

#[cycle(stmts)]
fn block_fits(
    program: &Program,
    in_ingress: bool,
    tables: &BTreeSet<u32>,
    stmts: &Vec<P4Stmt>,
) -> bool
    ensures { (numbers : List ℕ) → HasNumbers tables.now.keys numbers
        → result ≡ rules.block_fits (within (program_of program.now) in_ingress numbers)
        (block_of (map stmt_of stmts.now.items)) }
{
    for stmt in stmts {
        if !stmt_fits(program, in_ingress, tables, stmt) {
            return false;
        }
    }
    true
}

pub(crate) fn body_fits(
    program: &Program,
    in_ingress: bool,
    tables: &BTreeSet<u32>,
    stmts: &[P4Stmt],
) -> bool
    ensures { (numbers : List ℕ) → HasNumbers tables.now.keys numbers
        → result ≡ rules.block_fits (within (program_of program.now) in_ingress numbers)
        (block_of (map stmt_of stmts.now)) }
{
    for stmt in stmts {
        if !stmt_fits(program, in_ingress, tables, stmt) {
            return false;
        }
    }
    true
}
