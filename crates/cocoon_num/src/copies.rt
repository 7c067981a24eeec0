//! Copies of values and of lists, and several results as one.
ghost use Rattle.std.specs.Prelude.{◌≡◌, IfOk, Ok, map};

use crate::NoMemory;
use std::alloc::Global;

/// A type of the code whose values can be copied, and what a value stands for in the definitions.
pub trait Copied: Drop {
    ghost Meaning: { Type 0 };

    ghost meaning: { Self → Meaning };

    /// The same value, in memory of its own.
    fn copy(&self, alloc: Global) -> Result<Self, NoMemory>
        ensures { IfOk result (λ copy. meaning copy ≡ meaning self.now) };
}

/// A copy of each item, in their order.
pub fn copy_list<T: Copied>(alloc: Global, items: &[T]) -> Result<Vec<T>, NoMemory>
    ensures { IfOk result (λ copies. map T.meaning copies.items ≡ map T.meaning items.now) }
{
    let mut copies = Vec::new(alloc);
    for item in items {
        copies.push(item.copy(alloc)?)?;
    }
    Ok(copies)
}

/// Both, where both were made: two parts with one early return, which a check is much faster on.
pub fn both<A: Drop, B: Drop>(
    first: Result<A, NoMemory>,
    second: Result<B, NoMemory>,
) -> Result<(A, B), NoMemory>
    ensures { IfOk result (λ made. (first ≡ Ok made.0) × (second ≡ Ok made.1)) }
{
    let first = first?;
    Ok((first, second?))
}

/// All three, where they were made.
pub fn three<A: Drop, B: Drop, C: Drop>(
    first: Result<A, NoMemory>,
    second: Result<B, NoMemory>,
    third: Result<C, NoMemory>,
) -> Result<(A, B, C), NoMemory>
    ensures { IfOk result
        (λ made. (first ≡ Ok made.0) × (second ≡ Ok made.1) × (third ≡ Ok made.2)) }
{
    let (first, second) = both(first, second)?;
    Ok((first, second, third?))
}
