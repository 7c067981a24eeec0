//! A switch with its rows loaded.

use p4_run::Loaded;

/// A switch: its number, and its program with the rows that are loaded into it. Neither the program nor the rows are held
/// besides.
#[derive(Drop)]
pub struct LoadedSwitch {
    pub number: u16,
    pub loaded: Loaded,
}
