//! Statements, resolved: of parts before the whole, down the tree.
ghost use Rattle.std.specs.Prelude.{◌≡◌, IfOk, IsTrue, map};
ghost use Rattle.numbering.specs.NumberPlaces.{HasPlaces};
ghost use Rattle.p4_ir.specs.Loading.{table_numbers};
ghost use Rattle.p4_ir.specs.NetOf.{table_rows_of};
ghost use Rattle.p4_ir.specs.P4Kinds.{block_fits, stmt_fits};
ghost use Rattle.p4_ir.specs.Program.{block_of, stmt_of};
ghost use Rattle.p4_run.specs.Doing.{AreTables, Does, DoesAll};
ghost use Rattle.p4_run.specs.Resolving.{AreNames, program_at};
ghost use Rattle.p4_run.specs.Controls.{within_in};
ghost use Rattle.p4_run.specs.Effects.{stmt_by, stmts_by};

use crate::expr_resolving::{Names, field_place, resolved_number, resolved_truth};
use crate::stmt_codes::{Application, StmtCode};
use cocoon_num::NoMemory;
use numbering::number_table::NumberTable;
use p4_ir::{P4Stmt, TableRows};
use std::alloc::Global;

/// A statement.
#[cycle(resolve)]
fn resolved_stmt(
    alloc: Global,
    names: &Names,
    rows: &[TableRows],
    places: &NumberTable,
    tables: &[Application],
    stmt: &P4Stmt,
) -> Result<StmtCode, NoMemory>
    requires names { AreNames names.now }
    requires places { HasPlaces places.now (table_numbers (map table_rows_of rows.now)) }
    requires tables { AreTables (program_at names.now) (map table_rows_of rows.now)
        names.now.in_ingress tables.now }
    requires kinds { IsTrue (stmt_fits (within_in (program_at names.now) names.now.in_ingress)
        (stmt_of stmt.now)) }
    ensures { IfOk result (λ code. Does (program_at names.now) (map table_rows_of rows.now)
        names.now.in_ingress tables.now (stmt_of stmt.now) (stmt_by code)) }
{
    match stmt {
        P4Stmt::SetMeta(index, value) => {
            let code = resolved_number(alloc, names, value)?;
            Ok(StmtCode::SetMeta(*index as usize, code))
        }
        P4Stmt::SetField(header, field, value) => {
            let place = field_place(names, *header, *field)?;
            let code = resolved_number(alloc, names, value)?;
            Ok(StmtCode::SetField(place, code))
        }
        P4Stmt::Apply(number) => Ok(StmtCode::Apply(places.place(*number))),
        P4Stmt::If(condition, first) => {
            let code = resolved_truth(alloc, names, condition)?;
            let first = resolved_stmts(alloc, names, rows, places, tables, first)?;
            Ok(StmtCode::If(code, first))
        }
        P4Stmt::IfElse(condition, first, second) => {
            let code = resolved_truth(alloc, names, condition)?;
            let first = resolved_stmts(alloc, names, rows, places, tables, first)?;
            let second = resolved_stmts(alloc, names, rows, places, tables, second)?;
            Ok(StmtCode::IfElse(code, first, second))
        }
        P4Stmt::Verdict(verdict) => Ok(StmtCode::Verdict(*verdict)),
        P4Stmt::EgressPort(value) => {
            Ok(StmtCode::EgressPort(resolved_number(alloc, names, value)?))
        }
        P4Stmt::Group(value) => Ok(StmtCode::Group(resolved_number(alloc, names, value)?)),
        P4Stmt::Return => Ok(StmtCode::Return),
    }
}

/// Statements one after another. The tables are those of the rows, at the same places, where their numbers are found.
#[cycle(resolve)]
pub fn resolved_stmts(
    alloc: Global,
    names: &Names,
    rows: &[TableRows],
    places: &NumberTable,
    tables: &[Application],
    stmts: &[P4Stmt],
) -> Result<Vec<StmtCode>, NoMemory>
    requires names { AreNames names.now }
    requires places { HasPlaces places.now (table_numbers (map table_rows_of rows.now)) }
    requires tables { AreTables (program_at names.now) (map table_rows_of rows.now)
        names.now.in_ingress tables.now }
    requires kinds { IsTrue (block_fits (within_in (program_at names.now) names.now.in_ingress)
        (block_of (map stmt_of stmts.now))) }
    ensures { IfOk result (λ codes. DoesAll (program_at names.now) (map table_rows_of rows.now)
        names.now.in_ingress tables.now (block_of (map stmt_of stmts.now))
        (stmts_by (map stmt_by codes.items))) }
{
    let mut codes = Vec::new(alloc);
    for stmt in stmts {
        codes.push(resolved_stmt(alloc, names, rows, places, tables, stmt)?)?;
    }
    Ok(codes)
}
