//! Parts of programs and rows.
ghost use Rattle.std.specs.Prelude.{◌≡◌, IfOk, map};
ghost use Rattle.cocoon_num.specs.Values.{equal};
ghost use Rattle.p4_ir.specs.NetOf.{key_row_of, table_rows_of};
ghost use Rattle.p4_ir.specs.P4Tree as tree;
ghost use Rattle.p4_ir.specs.Program.{block_of, control_of, expr_of, field_of, header_of, stmt_of, table_of};

use cocoon_num::{Bits, List, NoMemory, Text, both};
use p4_ir::{Control, KeyRow, P4Binary, P4Expr, P4Field, P4Header, P4Stmt, Table, TableRows};
use std::alloc::Global;

pub fn field(alloc: Global, name: &[u8], width: u8) -> Result<P4Field, NoMemory>
    ensures { IfOk result (λ f. field_of f ≡ record { name = name.now; width = width }) }
{
    let name = Text::from(alloc, name)?;
    Ok(P4Field { name, width })
}

pub fn header(alloc: Global, name: &[u8], fields: Vec<P4Field>) -> Result<P4Header, NoMemory>
    ensures { IfOk result (λ h. header_of h
        ≡ record { name = name.now; fields = map field_of fields.items }) }
{
    let name = Text::from(alloc, name)?;
    let fields = List::from(fields);
    Ok(P4Header { name, fields })
}

pub fn control(tables: Vec<Table>, body: Vec<P4Stmt>) -> Control
    ensures { control_of result
        ≡ record { tables = map table_of tables.items; body = block_of (map stmt_of body.items) } }
{
    Control {
        tables: List::from(tables),
        body: List::from(body),
    }
}

/// Whether an expression is this number.
pub fn equals(alloc: Global, expr: P4Expr, number: Bits) -> Result<P4Expr, NoMemory>
    ensures { IfOk result (λ e. expr_of e
        ≡ tree.p_binary equal (expr_of expr) (tree.p_lit number.width number.value)) }
{
    let (left, right) = both(boxed(alloc, expr), boxed(alloc, P4Expr::Lit(number)))?;
    Ok(P4Expr::Binary(P4Binary::Equal, left, right))
}

fn boxed(alloc: Global, expr: P4Expr) -> Result<Box<P4Expr>, NoMemory>
    ensures { IfOk result (λ b. b.value ≡ expr) }
{
    Ok(Box::new(alloc, expr)?)
}

pub fn row(alloc: Global, values: &[u64], masks: &[u64], value: u64) -> Result<KeyRow, NoMemory>
    ensures { IfOk result (λ r. key_row_of r
        ≡ record { values = values.now; masks = masks.now; result = value }) }
{
    Ok(KeyRow {
        values: List::from(values.to_vec(alloc)?),
        masks: List::from(masks.to_vec(alloc)?),
        result: value,
    })
}

pub fn table_rows(number: u32, rows: Vec<KeyRow>) -> TableRows
    ensures { table_rows_of result
        ≡ record { number = number; otherwise = 0; rows = map key_row_of rows.items } }
{
    TableRows {
        number,
        default: 0,
        rows: List::from(rows),
    }
}
