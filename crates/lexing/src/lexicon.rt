//! What a crate of tokens says of its own, so that a text is lexed into them.
ghost use Rattle.std.specs.Prelude.{◌≡◌, ◌≤◌, ℕ, List, slice_range, true};
ghost use Rattle.cocoon_num.specs.Lists.{each};
ghost use Rattle.cocoon_num.specs.Tokens as tokens;
ghost use Rattle.lexing.specs.Numbers.{kind_of_number};
ghost use Rattle.lexing.specs.Prefixes.{BeginsWithLetter, has_bytes, mark_read};

use crate::numbers::Number;

/// A lexicon, with tokens of the code that stand for those of the definitions.
pub trait Lexicon {
    type Kind: Drop;

    type Token: Drop;

    /// The lexicon of the definitions.
    ghost lexicon: { tokens.Lexicon };

    /// The kind that one stands for, in a token of these bytes.
    ghost kind_of: { Self.Kind → List ℕ → tokens.Kind };

    /// The token that one stands for, in this text.
    ghost token_of: { List ℕ → Self.Token → tokens.Token };

    /// How many bits the widest literal has.
    fn widest() -> u8
        ensures is { result ≡ lexicon.widest }
        ensures most { result ≤ 128 };

    /// What a run of letters, digits and `_` that begins with a letter is.
    fn run(run: &[u8]) -> Self::Kind
        requires { BeginsWithLetter run.now }
        ensures { kind_of result run.now ≡ tokens.run_kind lexicon run.now };

    /// The longest mark with which a text begins, and how many bytes it has.
    fn mark(text: &[u8]) -> Option<(Self::Kind, usize)>
        ensures { tokens.mark_prefix (tokens.beginning lexicon.marks text.now)
            ≡ mark_read kind_of text.now result };

    /// What a number is.
    fn number(number: Number) -> Self::Kind
        ensures { (bytes : List ℕ) → kind_of result bytes ≡ kind_of_number number };

    /// What the end of a text is.
    fn end() -> Self::Kind
        ensures { (bytes : List ℕ) → kind_of result bytes ≡ tokens.finish };

    /// The token of these offsets.
    fn token(kind: Self::Kind, start: u32, end: u32) -> Self::Token
        ensures kind { (text : List ℕ) → (token_of text result).kind
            ≡ kind_of kind (slice_range text start end) }
        ensures start { (text : List ℕ) → (token_of text result).start ≡ start }
        ensures stop { (text : List ℕ) → (token_of text result).stop ≡ end };

    /// A mark takes the lexer a byte on, or more.
    ghost marks_have_bytes: { each has_bytes lexicon.marks ≡ true };
}
