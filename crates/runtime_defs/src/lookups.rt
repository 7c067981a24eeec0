//! What functions gave.

use cocoon_num::{Bits, List};
use declarations::FunId;

/// What a function gave at some arguments.
#[derive(Drop)]
pub struct Lookup {
    pub function: FunId,
    pub args: List<u64>,
    pub result: Bits,
}
