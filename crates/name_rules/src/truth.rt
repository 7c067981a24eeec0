//! Two truth values put together.
ghost use Rattle.std.specs.Prelude.{◌≡◌, ◌&&◌, ◌||◌};

pub(crate) fn both_hold(first: bool, second: bool) -> bool
    ensures { result ≡ (first && second) }
{
    first && second
}

pub(crate) fn either_holds(first: bool, second: bool) -> bool
    ensures { result ≡ (first || second) }
{
    first || second
}
