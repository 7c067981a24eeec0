//! Numbers that look random, the same ones of each seed.
use crate::numbers::lowest;
use cocoon_num::Bits;

/// A generator of 64 bits at a time, by shifts and a multiplication.
#[derive(Drop)]
pub(crate) struct Generator {
    state: u64,
}

impl Generator {
    pub(crate) fn new(seed: u64) -> Generator {
        Generator { state: seed | 1 }
    }

    fn next(&mut self) -> u64 {
        let mut bits = self.state;
        bits ^= bits >> 12;
        bits ^= bits << 25;
        bits ^= bits >> 27;
        self.state = bits;
        bits.wrapping_mul(0x2545_F491_4F6C_DD1D)
    }

    /// A number of a width: often a small one, 0 or the largest one.
    pub(crate) fn number(&mut self, width: u8) -> Option<Bits> {
        let kind = self.next() >> 61;
        let wide = u128::from(self.next()) << 64 | u128::from(self.next());
        match kind {
            0 => lowest(width, 0),
            1 => lowest(width, u128::MAX),
            2 | 3 => lowest(width, wide),
            _ => lowest(width, wide & 7),
        }
    }
}
