//! Literals.
ghost use Rattle.std.specs.Prelude.{◌≡◌, ◌≢◌, ◌<◌, ◌^◌, pos};
ghost use Rattle.cnf_core.specs.Literals as spec;

/// A variable or its negation, as DIMACS writes them: `3` is true where variable 3 is, `-3` where it is not. Variables
/// count from 1.
#[derive(Clone, Copy)]
pub struct Lit {
    pub number: i32,
    ghost named: { number ≢ pos 0 },
}

impl Lit {
    pub fn variable(self) -> u32
        ensures { result ≡ spec.variable self.number }
    {
        self.number.unsigned_abs()
    }

    /// The literal of the same variable that is true where this one is false.
    pub fn opposite(self) -> Lit
        requires { spec.variable self.number < 2 ^ 31 }
        ensures { result.number ≡ spec.opposite self.number }
    {
        Lit {
            number: -self.number,
        }
    }

    /// Its place in an array that has two places for each variable.
    pub fn index(self) -> usize
        ensures { result ≡ spec.index_of self.number }
    {
        let first = self.number.unsigned_abs() as usize * 2;
        if self.number < 0 { first + 1 } else { first }
    }

    pub fn is_same(self, other: Lit) -> bool
        ensures { result ≡ spec.same self.number other.number }
    {
        self.number == other.number
    }
}
