//! What is taken of the words for an argument: a name in its form, or a number.
ghost use Rattle.std.specs.Prelude.{◌≡◌, option_map};
ghost use Rattle.clap.specs.Words.{found_of, rows_of};
ghost use Rattle.command_line.specs.Arguments.{argument_name, argument_number, number_between, option_number, word_number, number_up_to};
ghost use Rattle.command_line.specs.Names.{is_file_name, is_name_byte};

use clap::ArgMatches;
use text_lines::decimal_value;

/// The most decimal digits of a number.
const MOST_DIGITS: usize = 7;

fn is_name_byte(byte: u8) -> bool
    ensures { result ≡ is_name_byte byte }
{
    byte.is_ascii_alphanumeric() || byte == b'.' || byte == b'_' || byte == b'-' || byte == b'/'
}

/// Whether a word may name a file: one or more letters, digits, `.`, `_`, `-` or `/`.
fn is_file_name(word: &str) -> bool
    ensures { result ≡ is_file_name word.now }
{
    for byte in word.as_bytes() {
        if !is_name_byte(*byte) {
            return false;
        }
    }
    !word.is_empty()
}

/// The word for an argument, where it is a name.
pub fn argument_name<'w>(matches: &ArgMatches<'w>, argument: &str) -> Option<&'w str>
    ensures { option_map (λ word. word.now) result
        ≡ argument_name argument.now (rows_of (found_of matches.now)) }
{
    match matches.get_str(argument) {
        Some(word) if is_file_name(word) => Some(word),
        _ => None,
    }
}

/// The number that a word is, of one to seven decimal digits.
fn number(word: &str) -> Option<u128>
    ensures { result ≡ word_number word.now }
{
    if word.len() <= MOST_DIGITS {
        decimal_value(word.as_bytes())
    } else {
        None
    }
}

/// The number that a word is, if it is none above `most`.
pub fn number_up_to(most: u32, word: &str) -> Option<u32>
    ensures { result ≡ number_up_to most word.now }
{
    let number = number(word)?;
    if number <= u128::from(most) {
        Some(number as u32)
    } else {
        None
    }
}

/// The number that a word is, if it is none below `least` and none above `most`.
fn number_between(least: u32, most: u32, word: &str) -> Option<u32>
    ensures { result ≡ number_between least most word.now }
{
    let number = number_up_to(most, word)?;
    if least <= number { Some(number) } else { None }
}

/// The number for an argument, from 1 to `most`.
pub fn argument_number<'w>(matches: &ArgMatches<'w>, argument: &str, most: u32) -> Option<u32>
    ensures { result ≡ argument_number argument.now most (rows_of (found_of matches.now)) }
{
    let word = matches.get_str(argument)?;
    number_between(1, most, word)
}

/// The number of an option: that of its word, from 1 to `most`, or the usual one if there is no word.
pub fn option_number<'w>(matches: &ArgMatches<'w>, name: &str, usual: u32, most: u32) -> Option<u32>
    ensures { result ≡ option_number name.now usual most (rows_of (found_of matches.now)) }
{
    match matches.get_str(name) {
        Some(word) => number_between(1, most, word),
        None => Some(usual),
    }
}
