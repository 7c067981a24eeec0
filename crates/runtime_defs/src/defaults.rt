//! What functions give that gave nothing at some arguments.
ghost use Rattle.std.specs.Prelude.{◌≡◌, ◌≤◌};

use crate::rows::ones;
use cocoon_num::{Bits, FunRow};
use declarations::FunId;

/// The defaults of tables, where they are free.
#[derive(Clone, Copy, Debug, Drop)]
pub enum Defaults {
    /// 0.
    Zeros,
    /// The most frequent result of a function's rows, of these the first; 0 if it has no row.
    MostFrequent,
    /// Ones in all bits.
    Ones,
    /// For each function one of these or 1, as two bits say that are made of this number.
    Mixed(u64),
}

impl Defaults {
    /// The defaults that are tried in a round, in this order.
    pub fn tries(round: u32) -> [Defaults; 8] {
        let first = u64::from(round) * 5;
        [
            Defaults::Zeros,
            Defaults::MostFrequent,
            Defaults::Ones,
            Defaults::Mixed(first),
            Defaults::Mixed(first + 1),
            Defaults::Mixed(first + 2),
            Defaults::Mixed(first + 3),
            Defaults::Mixed(first + 4),
        ]
    }

    /// The default of the function of this number, which has these rows and gives so many bits.
    pub(crate) fn of(self, function: FunId, width: u8, rows: &[FunRow]) -> Bits
        requires some { 1 ≤ width }
        requires few { width ≤ 64 }
        ensures { result.width ≡ width }
    {
        let choice = match self {
            Defaults::Zeros => 0,
            Defaults::MostFrequent => 1,
            Defaults::Ones => 2,
            Defaults::Mixed(mixture) => two_bits(mixture, function),
        };
        match choice {
            0 => Bits::new(width, 0),
            1 => most_frequent(width, rows),
            2 => Bits::new(width, u128::from(ones(width))),
            _ => Bits::new(width, 1),
        }
    }
}

/// Two bits for a function, by the number of a mixture: a product spreads it over all bits.
fn two_bits(mixture: u64, function: FunId) -> u64 {
    let spread = mixture.wrapping_add(1).wrapping_mul(0x9E37_79B9_7F4A_7C15);
    (spread >> (function % 32 * 2)) & 3
}

/// The most frequent result of this width, of these the first; 0, if there is none.
fn most_frequent(width: u8, rows: &[FunRow]) -> Bits
    requires some { 1 ≤ width }
    requires few { width ≤ 64 }
    ensures { result.width ≡ width }
{
    let mut best = Bits::new(width, 0);
    let mut most = 0;
    for row in rows {
        let count = count_of(rows, row.result);
        if row.result.width == width && count > most {
            best = row.result;
            most = count;
        }
    }
    best
}

/// How many rows have the result.
fn count_of(rows: &[FunRow], value: Bits) -> usize {
    let mut count = 0;
    for row in rows {
        if row.result == value {
            count += 1;
        }
    }
    count
}
