//! How long the texts of files of rows are at least, as a law: the contract of a function that does nothing.
ghost use Rattle.std.specs.Prelude.{◌≤◌, ◌*◌, flat_map, length};
ghost use Rattle.p4_ir.specs.P4Tree.{RowsFile, TableRows};
ghost use Rattle.net_bundle.specs.Bundle.{rows_text};

/// The text of a file of rows has at least 20 bytes for each row of its tables.
pub fn rows_are_long()
    ensures { (r : RowsFile) → 20 * length (flat_map (λ (t : TableRows). t.rows) r.tables)
        ≤ length (rows_text r) }
{}
