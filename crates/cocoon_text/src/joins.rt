//! What was read, with what stands beside it: each is made by a function of its own, since a check is
//! much faster on a phrase with few early returns.
ghost use Rattle.std.specs.Prelude.{◌≡◌};
ghost use Rattle.cocoon_text.specs.Kinds.{mark_text};
ghost use Rattle.cocoon_text.specs.Agrees.{with_mark};

use crate::source::Source;
use crate::token::Mark;
use parsing::Stop;

/// What was read, where this mark comes after it.
pub fn then<T: Drop>(
    source: &Source,
    read: Result<(T, usize), Stop>,
    mark: Mark,
) -> Result<(T, usize), Stop>
    ensures { result ≡ with_mark source.now (mark_text mark) read }
{
    let (found, next) = read?;
    if source.is_mark(next, mark) {
        Ok((found, next + 1))
    } else {
        Err(Stop::Unexpected(next))
    }
}
