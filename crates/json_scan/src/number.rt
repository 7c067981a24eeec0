//! The number that the text of a number stands for.
ghost use Rattle.std.specs.Prelude.{◌≡◌, ◌<◌, ◌==◌, IsTrue, length, option_map, slice_index, true, false};
ghost use Rattle.serde_json.specs.Read.{float_of, number_from, number_of};
ghost use Rattle.json_scan.specs.Numbers.{num_of};

use fast_float::Numeral;

/// A whole number of 64 bits, or any other number as the nearest float.
#[derive(Clone, Copy, Drop)]
pub enum JsonNumber {
    Unsigned(u64),
    Negative(i64),
    Fraction(f64),
}

/// The number of this text, where a float is as large.
pub(crate) fn number(text: &str) -> Option<JsonNumber>
    ensures { option_map num_of result ≡ number_of text.now }
{
    let bytes = text.as_bytes();
    if has_minus(bytes) {
        negative(&Numeral::scan(&bytes[1..]))
    } else {
        unsigned(&Numeral::scan(bytes))
    }
}

fn unsigned(numeral: &Numeral<'_>) -> Option<JsonNumber>
    ensures { option_map num_of result ≡ number_from false numeral.now }
{
    match numeral.to_u64() {
        Some(number) => Some(JsonNumber::Unsigned(number)),
        None => nearest(false, numeral),
    }
}

fn negative(numeral: &Numeral<'_>) -> Option<JsonNumber>
    ensures { option_map num_of result ≡ number_from true numeral.now }
{
    if let Some(number) = numeral.to_i64(true) {
        if number < 0 {
            return Some(JsonNumber::Negative(number));
        }
    }
    nearest(true, numeral)
}

fn nearest(negative: bool, numeral: &Numeral<'_>) -> Option<JsonNumber>
    ensures { option_map num_of result ≡ float_of negative numeral.now }
{
    let float = numeral.to_float::<f64>(negative);
    if float.is_finite() {
        Some(JsonNumber::Fraction(float))
    } else {
        None
    }
}

fn has_minus(bytes: &[u8]) -> bool
    ensures value { result ≡ (slice_index bytes.now 0 == 45) }
    ensures len { IsTrue result → 0 < length bytes.now }
{
    !bytes.is_empty() && bytes[0] == b'-'
}
