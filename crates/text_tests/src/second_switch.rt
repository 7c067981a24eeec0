//! Switch 7: an exact table of one key.
ghost use Rattle.std.specs.Prelude.{◌≡◌, IfOk, map};
ghost use Rattle.text_tests.specs.TwoSwitches.{second_headers, second_ingress, second_meta, second_program, second_rows, second_switch, second_table};
ghost use Rattle.p4_ir.specs.NetOf.{rows_of, switch_of};
ghost use Rattle.p4_ir.specs.Program.{block_of, field_of, header_of, program_of, stmt_of, table_of};

use crate::builders::{control, equals, field, header, row, table_rows};
use cocoon_num::{Bits, List, NoMemory};
use p4_ir::{P4Expr, P4Field, P4Header, P4Stmt, Program, RowsFile, SwitchFiles, Table};
use std::alloc::Global;

#[tactic(auto, unfolding(crate::specs::TwoSwitches::second_headers))]
fn headers(alloc: Global) -> Result<Vec<P4Header>, NoMemory>
    ensures { IfOk result (λ v. map header_of v.items ≡ second_headers) }
{
    let kind = field(alloc, b"kind", 16)?;
    let header = header(alloc, b"e", vec![in alloc; kind]?)?;
    Ok(vec![in alloc; header]?)
}

#[tactic(auto, unfolding(crate::specs::TwoSwitches::second_meta))]
fn meta(alloc: Global) -> Result<Vec<P4Field>, NoMemory>
    ensures { IfOk result (λ v. map field_of v.items ≡ second_meta) }
{
    Ok(vec![in alloc;
        field(alloc, b"site", 8)?,
        field(alloc, b"k3_0", 16)?,
        field(alloc, b"r3", 1)?,
    ]?)
}

#[tactic(auto, unfolding(crate::specs::TwoSwitches::second_table))]
fn table(alloc: Global) -> Result<Vec<Table>, NoMemory>
    ensures { IfOk result (λ v. map table_of v.items ≡ second_table) }
{
    let table = Table {
        number: 3,
        exact: true,
        keys: List::from(vec![in alloc; 1]?),
        result: 2,
    };
    Ok(vec![in alloc; table]?)
}

#[tactic(auto, unfolding(crate::specs::TwoSwitches::second_ingress))]
fn ingress(alloc: Global) -> Result<Vec<P4Stmt>, NoMemory>
    ensures { IfOk result (λ v. block_of (map stmt_of v.items) ≡ second_ingress) }
{
    let found = equals(alloc, P4Expr::Meta(2), Bits::new(1, 1))?;
    let port = P4Expr::Lit(Bits::new(16, 1));
    let first = vec![in alloc; P4Stmt::EgressPort(port)]?;
    let kind = P4Expr::Lit(Bits::new(16, 65_535));
    let port = P4Expr::Lit(Bits::new(16, 3));
    let other = vec![in alloc; P4Stmt::SetField(0, 0, kind), P4Stmt::EgressPort(port)]?;
    Ok(vec![in alloc;
        P4Stmt::SetMeta(1, P4Expr::Field(0, 0)),
        P4Stmt::Apply(3),
        P4Stmt::Verdict(1),
        P4Stmt::IfElse(found, first, other),
    ]?)
}

#[tactic(auto, unfolding(crate::specs::TwoSwitches::second_program))]
fn program(alloc: Global) -> Result<Program, NoMemory>
    ensures { IfOk result (λ p. program_of p ≡ second_program) }
{
    let headers = headers(alloc)?;
    let meta = meta(alloc)?;
    let ingress = control(table(alloc)?, ingress(alloc)?);
    let egress = control(Vec::new(alloc), Vec::new(alloc));
    Ok(Program {
        headers: List::from(headers),
        meta: List::from(meta),
        ingress,
        egress,
    })
}

#[tactic(auto, unfolding(crate::specs::TwoSwitches::second_rows))]
fn rows(alloc: Global) -> Result<RowsFile, NoMemory>
    ensures { IfOk result (λ r. rows_of r ≡ second_rows) }
{
    let row = row(alloc, &[2048], &[65_535], 1)?;
    let rows = table_rows(3, vec![in alloc; row]?);
    Ok(RowsFile {
        tables: List::from(vec![in alloc; rows]?),
        groups: List::from(Vec::new(alloc)),
    })
}

/// The files of the switch.
#[tactic(auto, unfolding(crate::specs::TwoSwitches::second_switch))]
pub fn second(alloc: Global) -> Result<SwitchFiles, NoMemory>
    ensures { IfOk result (λ s. switch_of s ≡ second_switch) }
{
    let program = program(alloc)?;
    let rows = rows(alloc)?;
    Ok(SwitchFiles {
        number: 7,
        program,
        rows,
    })
}
