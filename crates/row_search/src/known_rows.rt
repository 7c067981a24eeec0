//! The rows of a table, and those among them that can match where one key has a number.
ghost use Rattle.std.specs.Prelude.{◌≡◌, ◌<◌};
ghost use Rattle.row_search.specs.GroupsHeld.{key_count};

use crate::grouped::GroupedRows;

#[derive(Drop)]
pub(crate) struct KnownRows {
    /// The place of the key.
    pub(crate) place: usize,
    pub(crate) number: u64,
    /// Those that can match the number.
    pub(crate) matching: GroupedRows,
    pub(crate) all: GroupedRows,
    ghost within: { place < key_count all },
    ghost same: { key_count matching ≡ key_count all },
}
