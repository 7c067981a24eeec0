//! A body as steps, in which each name is resolved once. What a step does to a path is told by where the choice that is
//! followed may be.
use std::alloc::Global;

/// Where the choice may be: a field or a variable, by its index, or a name that is not bound, by
/// its token index.
#[derive(Clone, Copy, Drop)]
pub(crate) enum Place {
    Field(usize),
    Var(usize),
    Token(u32),
}

/// The places where some values may have the choice: within one of them, and as the whole of it.
#[derive(Drop)]
pub(crate) struct Value {
    pub(crate) within: Vec<Place>,
    pub(crate) whole: Vec<Place>,
}

/// What a path does as it goes on. A field that no header has is `None`.
#[derive(Drop)]
pub(crate) enum Move {
    Bind(Value),
    Set(Option<usize>, Value),
    Meet(Value),
    ChooseVar(u32),
    ChooseField(Option<usize>, u32),
}

/// A step. The variables of the blocks of a `Branch` end but for those before them, which it
/// counts.
#[cycle(steps)]
#[derive(Drop)]
pub(crate) enum Step {
    Move(Move),
    Branch(usize, Vec<Step>, Vec<Step>),
    Fork(Vec<Step>),
    Send(Value),
}
