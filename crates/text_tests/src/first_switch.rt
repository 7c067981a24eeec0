//! Switch 1: a ternary table of two keys, whose result is a group.
ghost use Rattle.std.specs.Prelude.{◌≡◌, IfOk, map};
ghost use Rattle.text_tests.specs.TwoSwitches.{first_egress, first_groups, first_headers, first_ingress, first_meta, first_program, first_rows, first_switch, first_table};
ghost use Rattle.p4_ir.specs.NetOf.{group_of, switch_of, table_rows_of};
ghost use Rattle.p4_ir.specs.Program.{block_of, field_of, header_of, program_of, stmt_of, table_of};

use crate::builders::{control, equals, field, header, row, table_rows};
use cocoon_num::{Bits, List, NoMemory};
use p4_ir::{
    Group, P4Expr, P4Field, P4Header, P4Stmt, Program, RowsFile, SwitchFiles, Table, TableRows,
};
use std::alloc::Global;

#[tactic(auto, unfolding(crate::specs::TwoSwitches::first_headers))]
fn headers(alloc: Global) -> Result<Vec<P4Header>, NoMemory>
    ensures { IfOk result (λ v. map header_of v.items ≡ first_headers) }
{
    let source = field(alloc, b"src", 32)?;
    let target = field(alloc, b"dst", 32)?;
    let ip = header(alloc, b"ip", vec![in alloc; source, target]?)?;
    let port = field(alloc, b"port", 16)?;
    let l4 = header(alloc, b"l4", vec![in alloc; port]?)?;
    Ok(vec![in alloc; ip, l4]?)
}

#[tactic(auto, unfolding(crate::specs::TwoSwitches::first_meta))]
fn meta(alloc: Global) -> Result<Vec<P4Field>, NoMemory>
    ensures { IfOk result (λ v. map field_of v.items ≡ first_meta) }
{
    Ok(vec![in alloc;
        field(alloc, b"site", 8)?,
        field(alloc, b"k0_0", 16)?,
        field(alloc, b"k0_1", 32)?,
        field(alloc, b"r0", 16)?,
    ]?)
}

#[tactic(auto, unfolding(crate::specs::TwoSwitches::first_table))]
fn table(alloc: Global) -> Result<Vec<Table>, NoMemory>
    ensures { IfOk result (λ v. map table_of v.items ≡ first_table) }
{
    let table = Table {
        number: 0,
        exact: false,
        keys: List::from(vec![in alloc; 1, 2]?),
        result: 3,
    };
    Ok(vec![in alloc; table]?)
}

#[tactic(auto, unfolding(crate::specs::TwoSwitches::first_ingress))]
fn ingress(alloc: Global) -> Result<Vec<P4Stmt>, NoMemory>
    ensures { IfOk result (λ v. block_of (map stmt_of v.items) ≡ first_ingress) }
{
    let none = equals(alloc, P4Expr::Meta(3), Bits::new(16, 0))?;
    let back = vec![in alloc; P4Stmt::Return]?;
    Ok(vec![in alloc;
        P4Stmt::SetMeta(1, P4Expr::Port),
        P4Stmt::SetMeta(2, P4Expr::Field(0, 1)),
        P4Stmt::Apply(0),
        P4Stmt::If(none, back),
        P4Stmt::Verdict(2),
        P4Stmt::Group(P4Expr::Meta(3)),
    ]?)
}

#[tactic(auto, unfolding(crate::specs::TwoSwitches::first_egress))]
fn egress(alloc: Global) -> Result<Vec<P4Stmt>, NoMemory>
    ensures { IfOk result (λ v. block_of (map stmt_of v.items) ≡ first_egress) }
{
    let low = P4Expr::Slice(Box::new(alloc, P4Expr::Rid)?, 15, 0);
    Ok(vec![in alloc; P4Stmt::Verdict(1), P4Stmt::EgressPort(low)]?)
}

#[tactic(auto, unfolding(crate::specs::TwoSwitches::first_program))]
fn program(alloc: Global) -> Result<Program, NoMemory>
    ensures { IfOk result (λ p. program_of p ≡ first_program) }
{
    let headers = headers(alloc)?;
    let meta = meta(alloc)?;
    let ingress = control(table(alloc)?, ingress(alloc)?);
    let egress = control(Vec::new(alloc), egress(alloc)?);
    Ok(Program {
        headers: List::from(headers),
        meta: List::from(meta),
        ingress,
        egress,
    })
}

#[tactic(auto, unfolding(crate::specs::TwoSwitches::first_rows))]
fn tables(alloc: Global) -> Result<Vec<TableRows>, NoMemory>
    ensures { IfOk result (λ v. map table_rows_of v.items ≡ first_rows) }
{
    let one = row(alloc, &[1, 167_772_161], &[65_535, 4_294_967_295], 1)?;
    let all = row(alloc, &[0, 167_772_160], &[0, 4_294_967_040], 9)?;
    let rows = table_rows(0, vec![in alloc; one, all]?);
    Ok(vec![in alloc; rows]?)
}

#[tactic(auto, unfolding(crate::specs::TwoSwitches::first_groups))]
fn groups(alloc: Global) -> Result<Vec<Group>, NoMemory>
    ensures { IfOk result (λ v. map group_of v.items ≡ first_groups) }
{
    let near = Group {
        number: 1,
        members: List::from(vec![in alloc; 1, 2]?),
    };
    let all = Group {
        number: 9,
        members: List::from(vec![in alloc; 0, 3, 18_446_744_073_709_551_615]?),
    };
    Ok(vec![in alloc; near, all]?)
}

/// The files of the switch.
#[tactic(auto, unfolding(crate::specs::TwoSwitches::first_switch))]
pub fn first(alloc: Global) -> Result<SwitchFiles, NoMemory>
    ensures { IfOk result (λ s. switch_of s ≡ first_switch) }
{
    let program = program(alloc)?;
    let tables = tables(alloc)?;
    let groups = groups(alloc)?;
    let rows = RowsFile {
        tables: List::from(tables),
        groups: List::from(groups),
    };
    Ok(SwitchFiles {
        number: 1,
        program,
        rows,
    })
}
