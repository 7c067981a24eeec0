//! Pieces of a text, one after the other: where each ends, or that it breaks its rule.
ghost use Rattle.std.specs.Prelude.{◌≡◌, ◌+◌, true, IfErr, IfOk};
ghost use Rattle.p4_resolve.specs.Judged.{Breaks, index};

use crate::fault::KindFault;

/// The token so many after this one, counted modulo 2^32: a text has fewer tokens.
pub(crate) fn after(at: u32, count: u32) -> u32
    ensures { result ≡ index (at + count) }
{
    at.wrapping_add(count)
}

/// The token after a piece of so many tokens that begins at this one, if it keeps its rule.
pub(crate) fn pass(at: u32, count: u32, keeps: bool) -> Result<u32, KindFault>
    ensures passed { IfOk result (λ end. (keeps ≡ true) × (end ≡ index (at + count))) }
    ensures breaks { IfErr result (Breaks at keeps) }
{
    if keeps {
        Ok(after(at, count))
    } else {
        Err(KindFault::Kind(at))
    }
}
