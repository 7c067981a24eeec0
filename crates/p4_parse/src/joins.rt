//! What was read, with what stands beside it: each is made by a function of its own, since a check is much faster on a
//! phrase with few early returns.
ghost use Rattle.std.specs.Prelude.{◌≡◌};
ghost use Rattle.p4_parse.specs.Kinds.{mark_text};
ghost use Rattle.p4_parse.specs.Phrases.{with_mark};

use crate::Mark;
use crate::source::Source;
use parsing::Stop;

/// What was read, where this mark comes after it.
pub fn then<T: Drop>(
    source: &Source,
    read: Result<(T, usize), Stop>,
    mark: Mark,
) -> Result<(T, usize), Stop>
    ensures { result ≡ with_mark source.now (mark_text mark) read }
{
    let (found, next) = read?;
    if source.is_mark(next, mark) {
        Ok((found, next + 1))
    } else {
        Err(Stop::Unexpected(next))
    }
}
