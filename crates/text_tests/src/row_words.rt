//! The words that say rows and groups.
use crate::declaration_words::{index, port};
use case_files::{number, numbers};
use cocoon_num::List;
use p4_ir::{Group, KeyRow, RowsFile, TableRows};
use std::alloc::Global;
use std::mem;

/// Rows and groups in the making. What is added stands for itself until something takes it: rows until those of a table do.
#[derive(Drop)]
struct RowsDraft {
    alloc: Global,
    rows: Vec<KeyRow>,
    tables: Vec<TableRows>,
    groups: Vec<Group>,
}

impl RowsDraft {
    fn new(alloc: Global) -> RowsDraft {
        RowsDraft {
            alloc,
            rows: Vec::new(alloc),
            tables: Vec::new(alloc),
            groups: Vec::new(alloc),
        }
    }

    /// Adds the row `VALUES:MASKS:RESULT`.
    fn add_row(&mut self, rest: &str) -> Option<()> {
        let (values, rest) = rest.split_once(':')?;
        let (masks, result) = rest.split_once(':')?;
        let values = List::from(numbers(self.alloc, values, ',')?);
        let masks = List::from(numbers(self.alloc, masks, ',')?);
        let result = number(result)?;
        self.rows
            .push(KeyRow {
                values,
                masks,
                result,
            })
            .ok()
    }

    /// Adds the rows of the table of a number, with a default: `NUMBER:DEFAULT`.
    fn add_table(&mut self, rest: &str) -> Option<()> {
        let (digits, default) = rest.split_once(':')?;
        let default = number(default)?;
        let number = index(digits)?;
        let rows = mem::replace(&mut self.rows, Vec::new(self.alloc));
        let rows = List::from(rows);
        self.tables
            .push(TableRows {
                number,
                default,
                rows,
            })
            .ok()
    }

    /// Adds the group `NUMBER:MEMBERS`.
    fn add_group(&mut self, rest: &str) -> Option<()> {
        let (digits, members) = rest.split_once(':')?;
        let number = port(digits)?;
        let members = List::from(numbers(self.alloc, members, ',')?);
        self.groups.push(Group { number, members }).ok()
    }

    fn add(&mut self, word: &str) -> Option<()> {
        let (kind, rest) = word.split_once(':')?;
        match kind {
            "row" => self.add_row(rest),
            "rows" => self.add_table(rest),
            "members" => self.add_group(rest),
            _ => None,
        }
    }

    fn finish(mut self) -> RowsFile {
        RowsFile {
            tables: List::from(mem::replace(&mut self.tables, Vec::new(self.alloc))),
            groups: List::from(mem::replace(&mut self.groups, Vec::new(self.alloc))),
        }
    }
}

/// The rows and groups that words say, if they say such.
pub fn rows_of(alloc: Global, words: &str) -> Option<RowsFile> {
    let mut draft = RowsDraft::new(alloc);
    for word in words.split_ascii_whitespace() {
        draft.add(word)?;
    }
    Some(draft.finish())
}
