//! The rows of one table, laid flat for look-ups. Rows that have the same masks, if they are many, are a part that is
//! searched by halves, and the others are one that is looked at in order; the first row of all that match decides. Where
//! one key mostly has a number that is known beforehand, rows that cannot match it are left out of these parts.
#![tactic(auto)]

pub mod dividing;
pub mod first_results;
pub mod flat;
pub mod grouped;
pub mod known;
pub mod known_rows;
pub mod laid;
pub mod laying;
pub mod matching;
pub mod parted;
pub mod parts;
pub mod placing;
pub mod scanned;
pub mod search;
pub mod sorted;

pub use flat::FlatRows;
pub use known::Hint;
pub use laid::LaidRows;
