//! Resolved expressions.
ghost use Rattle.std.specs.Prelude.{◌<◌};

/// By how many places bits are shifted.
#[derive(Clone, Copy, Drop)]
pub struct Shift {
    pub(crate) by: u8,
    ghost few: { by < 128 },
}

/// An expression that gives a number.
#[cycle(code)]
#[derive(Drop)]
pub enum NumberCode {
    Literal(u128),
    /// A field, by its index among those of all headers.
    Field(usize),
    Meta(usize),
    /// The port, or the member of the group.
    Own,
    /// With the mask of its width.
    Flip(Box<NumberCode>, u128),
    /// With the mask of its width.
    Add(Box<NumberCode>, Box<NumberCode>, u128),
    /// With the mask of its width.
    Sub(Box<NumberCode>, Box<NumberCode>, u128),
    And(Box<NumberCode>, Box<NumberCode>),
    Or(Box<NumberCode>, Box<NumberCode>),
    Xor(Box<NumberCode>, Box<NumberCode>),
    /// With the width of the second.
    Join(Box<NumberCode>, Box<NumberCode>, Shift),
    /// With the lowest bit, and the mask of its width.
    Slice(Box<NumberCode>, Shift, u128),
    Pick(Box<TruthCode>, Box<NumberCode>, Box<NumberCode>),
}

/// An expression that gives a truth value.
#[cycle(code)]
#[derive(Drop)]
pub enum TruthCode {
    Constant(bool),
    Not(Box<TruthCode>),
    Both(Box<TruthCode>, Box<TruthCode>),
    Either(Box<TruthCode>, Box<TruthCode>),
    Equal(Box<NumberCode>, Box<NumberCode>),
    Unequal(Box<NumberCode>, Box<NumberCode>),
    Less(Box<NumberCode>, Box<NumberCode>),
    LessEqual(Box<NumberCode>, Box<NumberCode>),
    Choose(Box<TruthCode>, Box<TruthCode>, Box<TruthCode>),
}
