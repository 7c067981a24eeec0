//! Values of expressions.
ghost use Rattle.std.specs.Prelude.{◌≡◌};
ghost use Rattle.cocoon_num.specs.Values.{as_number};
ghost use Rattle.role_values.specs.Meant.{meant};

use cocoon_num::Bits;

/// What an expression gives: a number of a width, or a truth value.
#[derive(Clone, Copy, Drop)]
pub enum Value {
    Number(Bits),
    Truth(bool),
}

impl Value {
    /// The number, if it is one.
    pub fn number(self) -> Option<u128>
        ensures { result ≡ as_number (meant self) }
    {
        match self {
            Value::Number(bits) => Some(bits.value),
            Value::Truth(_) => None,
        }
    }
}
