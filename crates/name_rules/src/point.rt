//! Where the walk stands in a design.
ghost use Rattle.std.specs.Prelude.{◌≡◌, ◌+◌, IfOk};

use cocoon_num::NoMemory;

/// A point of a design: its level, and how many functions' declarations end before it.
#[derive(Clone, Copy, Drop)]
pub(crate) struct Point {
    pub(crate) level: u32,
    pub(crate) functions: u32,
}

/// The next number.
pub(crate) fn next_number(number: u32) -> Result<u32, NoMemory>
    ensures { IfOk result (λ next. next ≡ number + 1) }
{
    number.checked_add(1).ok_or(NoMemory)
}
