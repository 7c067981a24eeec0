//! The bytes of a token.
ghost use Rattle.std.specs.Prelude.{◌≡◌, slice_range};

/// The bytes of a text from an offset up to another, as far as it has them.
pub fn bytes_between(text: &[u8], start: u32, end: u32) -> &[u8]
    ensures { result.now ≡ slice_range text.now start end }
{
    let start = text.len().min(start as usize);
    let end = text.len().min(end as usize).max(start);
    &text[start..end]
}
