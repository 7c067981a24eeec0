//! The classes of bytes, and how many bytes of a class a text begins with.
ghost use Rattle.std.specs.Prelude.{◌≡◌, ◌+◌, ◌==◌, ◌<◌, ◌≤◌, IfSome, IsTrue, codes, drop, length, not};
ghost use Rattle.cocoon_num.specs.Names.{same_name};
ghost use Rattle.cocoon_num.specs.Tokens as tokens;

pub fn is_blank(byte: u8) -> bool
    ensures { result ≡ tokens.is_blank byte }
{
    byte == b' ' || byte == b'\t' || byte == b'\n' || byte == b'\r'
}

pub fn is_digit(byte: u8) -> bool
    ensures { result ≡ tokens.is_digit byte }
{
    byte >= b'0' && byte <= b'9'
}

/// A letter or `_`.
pub fn is_letter(byte: u8) -> bool
    ensures { result ≡ tokens.is_letter byte }
{
    byte >= b'A' && byte <= b'Z' || byte >= b'a' && byte <= b'z' || byte == b'_'
}

pub fn is_run_byte(byte: u8) -> bool
    ensures { result ≡ tokens.is_run_byte byte }
{
    is_letter(byte) || is_digit(byte)
}

#[tactic(auto, using(crate::proofs::Runs::same_is))]
pub fn same_bytes(one: &[u8], other: &[u8]) -> bool
    ensures { result ≡ same_name one.now other.now }
{
    one == other
}

#[tactic(auto, using(crate::proofs::Runs::begins_is))]
pub fn begins(text: &[u8], prefix: &[u8]) -> bool
    ensures is { result ≡ tokens.begins prefix.now text.now }
    ensures long { IsTrue result → length prefix.now ≤ length text.now }
{
    text.starts_with(prefix)
}

/// The length of the run of letters, digits and `_` that a text begins with.
pub fn run_len(text: &[u8]) -> usize
    ensures is { result ≡ length (tokens.leading tokens.is_run_byte text.now) }
    ensures within { result ≤ length text.now }
{
    let mut len = 0;
    while len < text.len() && is_run_byte(text[len]) {
        len += 1;
    }
    len
}

/// How many bytes come before the first one that is `stop`.
pub fn len_before(text: &[u8], stop: u8) -> usize
    ensures is { result ≡ length (tokens.leading (λ b. not (b == stop)) text.now) }
    ensures within { result ≤ length text.now }
{
    let mut len = 0;
    while len < text.len() && text[len] != stop {
        len += 1;
    }
    len
}

/// Whether `*/` stands at an offset.
#[tactic(auto, using(crate::proofs::Runs::comment_ends))]
fn ends_comment(text: &[u8], at: usize) -> bool
    requires { at + 1 < length text.now }
    ensures { result ≡ tokens.begins (codes "*/") (drop at text.now) }
{
    text[at] == b'*' && text[at + 1] == b'/'
}

/// How many bytes there are up to and with the next `*/`.
pub fn comment_len(text: &[u8]) -> Option<usize>
    ensures is { result ≡ tokens.comment_end text.now }
    ensures within { IfSome result (λ n. n ≤ length text.now) }
{
    let mut len = 0;
    while len + 1 < text.len() {
        if ends_comment(text, len) {
            return Some(len + 2);
        }
        len += 1;
    }
    None
}
