//! What was read, with what stands beside it: each is made by a function of its own, since a check is much faster on a
//! phrase with few early returns.
ghost use Rattle.std.specs.Prelude.{◌≡◌};
ghost use Rattle.parsing.specs.Joins.{with_first};

use crate::stop::Stop;

/// What was read, with this before it.
pub fn both<A: Drop, B: Drop>(
    first: A,
    read: Result<(B, usize), Stop>,
) -> Result<((A, B), usize), Stop>
    ensures { result ≡ with_first first read }
{
    let (second, next) = read?;
    Ok(((first, second), next))
}
