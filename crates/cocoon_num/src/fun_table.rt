//! Tables of functions: rows with values and masks, and a default.
ghost use Rattle.std.specs.Prelude.{All, ◌≡◌, length};
ghost use Rattle.cocoon_num.specs.FunTables.{HasKeys, looked, row_matches};

use crate::bits::Bits;
use crate::list::List;

/// One row of a table: it matches where each argument has the value in the bits of the mask.
#[derive(Drop)]
pub struct FunRow {
    /// One for each argument, in order.
    pub values: List<u64>,
    /// As many; a bit that is 0 here is not compared.
    pub masks: List<u64>,
    pub result: Bits,
}

/// What is defined of one function. The first row that matches decides. A truth value is a number of width 1.
#[derive(Drop)]
pub struct FunTable {
    /// The width of each argument, in bits.
    pub widths: List<u8>,
    pub rows: List<FunRow>,
    /// The result where no row matches.
    pub default: Bits,
}

impl FunTable {
    /// The function's value at these arguments, one for each width.
    pub fn look(&self, args: &[u64]) -> Bits
        requires args { length args.now ≡ length self.now.widths }
        requires keys { All (HasKeys (length self.now.widths)) self.now.rows }
        ensures { result ≡ looked self.now args.now }
    {
        for row in self.rows.items() {
            if row.matches(args) {
                return row.result;
            }
        }
        self.default
    }
}

impl FunRow {
    fn matches(&self, args: &[u64]) -> bool
        requires { HasKeys (length args.now) self.now }
        ensures { result ≡ row_matches args.now self.now }
    {
        let values = self.values.items();
        let masks = self.masks.items();
        let mut at = 0;
        while at < args.len() {
            if args[at] & masks[at] != values[at] & masks[at] {
                return false;
            }
            at += 1;
        }
        true
    }
}
