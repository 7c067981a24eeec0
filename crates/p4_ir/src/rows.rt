//! The rows of a program's tables, and the groups of copies.
ghost use Rattle.std.specs.Prelude.{◌≡◌, IfOk};
ghost use Rattle.p4_ir.specs.NetOf.{group_of, key_row_of};
ghost use Rattle.p4_ir.specs.P4Tree as tree;

use cocoon_num::copies::Copied;
use cocoon_num::{List, NoMemory, both};
use std::alloc::Global;

/// One row of a table: it matches where each key is the value in the bits of the mask.
#[derive(Drop)]
pub struct KeyRow {
    /// One for each key of the table, in its order.
    pub values: List<u64>,
    /// As many; a bit that is 0 here is not compared.
    pub masks: List<u64>,
    /// What the table's result is set to.
    pub result: u64,
}

/// The rows of the table of this number. The first that matches decides.
#[derive(Drop)]
pub struct TableRows {
    pub number: u32,
    /// The result where no row matches.
    pub default: u64,
    pub rows: List<KeyRow>,
}

/// A group, with the numbers of the copies that are made of a packet that is sent to it.
#[derive(Drop)]
pub struct Group {
    pub number: u16,
    pub members: List<u64>,
}

/// What is loaded into a program: the rows of its tables, and its groups.
#[derive(Drop)]
pub struct RowsFile {
    pub tables: List<TableRows>,
    pub groups: List<Group>,
}

fn copy_numbers(alloc: Global, numbers: &List<u64>) -> Result<List<u64>, NoMemory>
    ensures { IfOk result (λ copy. copy ≡ numbers.now) }
{
    Ok(List::from(numbers.items().to_vec(alloc)?))
}

impl Copied for KeyRow {
    ghost Meaning = { tree.KeyRow };

    ghost meaning = { key_row_of };

    fn copy(&self, alloc: Global) -> Result<KeyRow, NoMemory> {
        let (values, masks) = both(
            copy_numbers(alloc, &self.values),
            copy_numbers(alloc, &self.masks),
        )?;
        Ok(KeyRow {
            values,
            masks,
            result: self.result,
        })
    }
}

impl Copied for Group {
    ghost Meaning = { tree.Group };

    ghost meaning = { group_of };

    fn copy(&self, alloc: Global) -> Result<Group, NoMemory> {
        Ok(Group {
            number: self.number,
            members: copy_numbers(alloc, &self.members)?,
        })
    }
}
