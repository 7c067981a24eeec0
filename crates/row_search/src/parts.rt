//! The parts of a table's rows.
ghost use Rattle.std.specs.Prelude.{All, ◌≡◌};
ghost use Rattle.std.proofs.Props.{props};
ghost use Rattle.row_search.specs.Held.{key_count};

use crate::FlatRows;

/// The rows of each part, for so many keys; and the results of all rows, by their places.
#[derive(Drop)]
pub(crate) struct PartedRows {
    pub(crate) count: usize,
    pub(crate) parts: Vec<FlatRows>,
    pub(crate) results: Vec<u64>,
    pub(crate) default: u64,
    ghost many: { All (λ part. key_count part ≡ count) parts.items } by { Prim.hlevel props },
}
