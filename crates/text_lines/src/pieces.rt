//! What stands before a byte, and what behind it.
ghost use Rattle.std.specs.Prelude.{◌≡◌, ◌==◌, ◌≤◌, ◌+◌, drop, length, not, take};
ghost use Rattle.cocoon_num.specs.Tokens.{leading};

/// How many bytes come before the first one that is `stop`.
pub fn len_before(text: &[u8], stop: u8) -> usize
    ensures is { result ≡ length (leading (λ b. not (b == stop)) text.now) }
    ensures within { result ≤ length text.now }
{
    let mut len = 0;
    while len < text.len() && text[len] != stop {
        len += 1;
    }
    len
}

/// The first bytes of a text, so many.
pub fn prefix(text: &[u8], len: usize) -> &[u8]
    requires { len ≤ length text.now }
    ensures { result.now ≡ take len text.now }
{
    &text[..len]
}

/// The bytes behind the one at this index; none where there is none.
pub fn behind(text: &[u8], index: usize) -> &[u8]
    requires { index ≤ length text.now }
    ensures { result.now ≡ drop (index + 1) text.now }
{
    if index < text.len() {
        &text[index + 1..]
    } else {
        &text[index..]
    }
}
