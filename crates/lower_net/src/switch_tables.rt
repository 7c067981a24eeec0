//! The tables of a control.
ghost use Rattle.std.specs.Prelude.{◌≡◌, ◌++◌, ◌∷◌, [], IfOk, map, OnOk};
ghost use Rattle.cocoon_num.specs.Tree.{Design};
ghost use Rattle.lowering.specs.Log.{tables_in};
ghost use Rattle.lower_code.specs.Growth.{made_in, made_of};
ghost use Rattle.p4_ir.specs.Program.{table_of};

use cocoon_num::NoMemory;
use cocoon_num::copies::Copied;
use lower_code::Made;
use p4_ir::Table;
use std::alloc::Global;

/// Puts a copy of a table that was made at the end; of a meta field nothing.
fn push_table(alloc: Global, tables: &mut Vec<Table>, part: &Made) -> Result<(), NoMemory>
    ensures { (d : Design) → OnOk result (map table_of tables.new.items
        ≡ map table_of tables.old.items ++ tables_in (made_of d part.now ∷ [])) }
{
    match part {
        Made::Field(_) => Ok(()),
        Made::Table(table, _) => {
            tables.push(table.copy(alloc)?)?;
            Ok(())
        }
        Made::Group(table, _) => {
            tables.push(table.copy(alloc)?)?;
            Ok(())
        }
    }
}

/// Copies of the tables that were made, in order.
pub(crate) fn tables(alloc: Global, made: &[Made]) -> Result<Vec<Table>, NoMemory>
    ensures { (d : Design) → IfOk result (λ ts. map table_of ts.items
        ≡ tables_in (made_in d made.now)) }
{
    let mut tables = Vec::new(alloc);
    for part in made {
        push_table(alloc, &mut tables, part)?;
    }
    Ok(tables)
}
