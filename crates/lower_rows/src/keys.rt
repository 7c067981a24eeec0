//! The numbers of a row: its arguments, of which the last is the choice of a fork.
ghost use Rattle.std.specs.Prelude.{◌≡◌};
ghost use Rattle.lowering_correct.specs.Groups as spec;

/// All but the last.
pub(crate) fn before_last(numbers: &[u64]) -> &[u64]
    ensures { result.now ≡ spec.before_last numbers.now }
{
    match numbers.split_last() {
        Some((_, before)) => before,
        None => numbers,
    }
}

/// The last; 0 where there is none.
pub(crate) fn last(numbers: &[u64]) -> u64
    ensures { result ≡ spec.last_of numbers.now }
{
    match numbers.split_last() {
        Some((last, _)) => *last,
        None => 0,
    }
}
