//! Of which bytes a name is made.
ghost use Rattle.std.specs.Prelude.{◌≡◌};
ghost use Rattle.cocoon_num.specs.Lists.{each};
ghost use Rattle.cocoon_num.specs.Names.{same_name};
ghost use Rattle.cocoon_num.specs.Tokens as tokens;
ghost use Rattle.p4_ir.specs.P4Kinds as rules;
ghost use Rattle.p4_kinds.specs.Parts as parts;

pub fn is_digit(byte: u8) -> bool
    ensures { result ≡ tokens.is_digit byte }
{
    byte >= b'0' && byte <= b'9'
}

/// A letter, or `_`.
fn is_letter(byte: u8) -> bool
    ensures { result ≡ tokens.is_letter byte }
{
    byte >= b'A' && byte <= b'Z' || byte >= b'a' && byte <= b'z' || byte == b'_'
}

fn is_run_byte(byte: u8) -> bool
    ensures { result ≡ tokens.is_run_byte byte }
{
    is_letter(byte) || is_digit(byte)
}

/// All are letters, digits and `_`.
fn are_run_bytes(bytes: &[u8]) -> bool
    ensures { result ≡ each tokens.is_run_byte bytes.now }
{
    for byte in bytes {
        if !is_run_byte(*byte) {
            return false;
        }
    }
    true
}

/// One or more letters, digits and `_`.
pub fn is_run(bytes: &[u8]) -> bool
    ensures { result ≡ tokens.is_run bytes.now }
{
    !bytes.is_empty() && are_run_bytes(bytes)
}

pub fn is_same(name: &[u8], other: &[u8]) -> bool
    ensures { result ≡ same_name name.now other.now }
{
    name == other
}

#[tactic(auto, using(crate::proofs::ByteFacts::last_digit))]
fn ends_in_digit(name: &[u8]) -> bool
    ensures { result ≡ rules.last_is_digit name.now }
{
    match name.last() {
        Some(byte) => is_digit(*byte),
        None => false,
    }
}

/// A letter, then letters, digits and `_`, and a digit at the end.
#[tactic(auto, using(crate::proofs::ByteFacts::numbered))]
fn is_numbered(name: &[u8]) -> bool
    ensures { result ≡ parts.is_numbered name.now }
{
    let made_of_runs = are_run_bytes(name);
    let ended = ends_in_digit(name);
    match name.first() {
        Some(first) => is_letter(*first) && *first != b'_' && made_of_runs && ended,
        None => false,
    }
}

/// The name of a meta field: `site`, or one with a number.
#[tactic(auto, using(crate::proofs::ByteFacts::meta_named))]
pub fn is_meta_name(name: &[u8]) -> bool
    ensures { result ≡ rules.is_meta_name name.now }
{
    is_same(name, b"site") || is_numbered(name)
}
